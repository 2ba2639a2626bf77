// The figures of a conic, and their tests in the right order.

#![tactic(auto)]

ghost use Rattle.std.specs.Prelude.{◌≡◌};
ghost use Rattle.conic_checks.specs.Refusal.{fit, fit_nonzero, orbit_checks};

use base::{Refusal, require};

// The figures in the order of their tests. `last` is the far distance of an ellipse or the v of a hyperbola.
#[derive(Clone, Copy)]
pub struct Orbit {
    pub n: f64,
    pub v2: f64,
    pub c3: f64,
    pub nc: f64,
    pub p: f64,
    pub e2: f64,
    pub e: f64,
    pub a: f64,
    pub q: f64,
    pub last: f64,
}

// A figure that may be zero.
#[tactic(auto, unfolding(crate::specs::Refusal::fit))]
fn fit(x: f64) -> Result<(), Refusal>
    ensures { result ≡ fit x }
{
    require(base::is_finite(x), Refusal::NotFinite)
}

// A figure that may not be zero: its own refusal if it is.
#[tactic(auto, unfolding(crate::specs::Refusal::fit_nonzero))]
fn fit_nonzero(x: f64, own: Refusal) -> Result<(), Refusal>
    ensures { result ≡ fit_nonzero x own }
{
    fit(x)?;
    if x == 0.0 { Err(own) } else { Ok(()) }
}

// Every figure, in the order of their tests.
#[tactic(auto, unfolding(crate::specs::Refusal::orbit_checks))]
pub fn orbit_checks(o: Orbit) -> Result<(), Refusal>
    ensures { result ≡ orbit_checks o }
{
    fit_nonzero(o.n, Refusal::NotFinite)?;
    fit(o.v2)?;
    fit_nonzero(o.c3, Refusal::Parabola)?;
    fit_nonzero(o.nc, Refusal::StraightLine)?;
    fit(o.p)?;
    fit(o.e2)?;
    fit(o.e)?;
    fit(o.a)?;
    fit(o.q)?;
    fit(o.last)
}
