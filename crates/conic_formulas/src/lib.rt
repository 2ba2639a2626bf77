// The figures of a conic by their formulas.

#![tactic(auto)]

ghost use Rattle.std.specs.Prelude.{◌≡◌};
ghost use Rattle.conic_formulas.specs.Orbit.{cross, eccentricity, last_figure, orbit};

use conic_checks::Orbit;
use state::{State, Vector};

fn cross_product(p: Vector, v: Vector) -> Vector
    ensures { result ≡ cross p v }
{
    Vector {
        x: p.y * v.z - p.z * v.y,
        y: p.z * v.x - p.x * v.z,
        z: p.x * v.y - p.y * v.x,
    }
}

fn eccentricity_of(e2: f64) -> f64
    ensures { result ≡ eccentricity e2 }
{
    if e2 < 0.0 {
        return 0.0;
    }
    root::inner::square_root(e2)
}

fn last_figure(c3: f64, a: f64, e: f64) -> f64
    ensures { result ≡ last_figure c3 a e }
{
    if c3 < 0.0 {
        return a * (1.0 + e);
    }
    root::inner::square_root(c3)
}

pub fn orbit_of(m: f64, state: State) -> Orbit
    ensures { result ≡ orbit m state }
{
    let position = state::position_of(state);
    let velocity = state::velocity_of(state);
    let n = state::square(position);
    let v2 = state::square(velocity);
    let c3 = v2 - (2.0 * m) / root::inner::square_root(n);
    let nc = state::square(cross_product(position, velocity));
    let p = nc / m;
    let e2 = 1.0 + (p * c3) / m;
    let e = eccentricity_of(e2);
    let a = -(m / c3);
    let q = p / (1.0 + e);
    let last = last_figure(c3, a, e);
    Orbit {
        n,
        v2,
        c3,
        nc,
        p,
        e2,
        e,
        a,
        q,
        last,
    }
}
