// The conic that a state would follow about its centre alone.

#![tactic(auto)]

ghost use Rattle.std.specs.Prelude.{◌≡◌};
ghost use Rattle.conic.specs.Conic.{conic_of, orbit_answer, figures_about, conic_answer};

use base::Refusal;
use conic_checks::{Orbit, orbit_checks};
use conic_formulas::orbit_of;
use state::State;

#[derive(Clone, Copy)]
pub enum Conic {
    Ellipse {
        a: f64,
        e: f64,
        p: f64,
        q: f64,
        far: f64,
    },
    Hyperbola {
        a: f64,
        e: f64,
        p: f64,
        q: f64,
        v: f64,
    },
}

#[derive(Clone, Copy)]
pub struct CentredConic {
    pub centre: u64,
    pub conic: Conic,
}

fn conic_of(o: Orbit) -> Conic
    ensures { result ≡ conic_of o }
{
    if o.c3 < 0.0 {
        return Conic::Ellipse {
            a: o.a,
            e: o.e,
            p: o.p,
            q: o.q,
            far: o.last,
        };
    }
    Conic::Hyperbola {
        a: o.a,
        e: o.e,
        p: o.p,
        q: o.q,
        v: o.last,
    }
}

#[tactic(auto, unfolding(crate::specs::Conic::orbit_answer))]
fn answer_of(centre: u64, o: Orbit) -> Result<CentredConic, Refusal>
    ensures { result ≡ orbit_answer centre o }
{
    orbit_checks(o)?;
    let conic = conic_of(o);
    Ok(CentredConic { centre, conic })
}

fn figures_about(m: f64, state: State) -> Result<CentredConic, Refusal>
    ensures { result ≡ figures_about m state }
{
    if state::is_body(state.centre) {
        if state::state_is_finite(state) {
            return answer_of(state.centre, orbit_of(m, state));
        }
        return Err(Refusal::NotFinite);
    }
    Err(Refusal::Centre)
}

pub fn conic_figures(m: f64, state: State) -> Result<CentredConic, Refusal>
    ensures { result ≡ conic_answer m state }
{
    if base::is_finite(m) {
        if 0.0 < m {
            return figures_about(m, state);
        }
    }
    Err(Refusal::Setting)
}
