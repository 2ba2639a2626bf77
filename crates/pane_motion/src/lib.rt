// (02, R-14) A frame of the live pane with velocity: the derivative of the same cubic.

#![tactic(auto)]

ghost use Rattle.std.specs.Prelude.{◌≡◌, ◌≤◌};
ghost use Rattle.state.specs.State.{position, velocity};
ghost use Rattle.pane_live.specs.Pane.{between, figure, shown};
ghost use Rattle.pane_motion.specs.Motion.{rate, rate_between, frame_velocity, moving, with_velocity, motion_at};

use base::Refusal;
use pane_live::inner::{along_cubic, to_float};
use pane_live::{FrameAnswer, Pane};
use state::{State, Vector, position_of, velocity_of};

// Position in km and velocity in km/s, from the centre of the states.
#[derive(Clone, Copy)]
pub struct Motion {
    pub position: Vector,
    pub velocity: Vector,
}

fn rate_of(d: f64, s: f64, p0: f64, v0: f64, p1: f64, v1: f64) -> f64
    ensures { result ≡ rate d s p0 v0 p1 v1 }
{
    let m0 = d * v0;
    let m1 = d * v1;
    let e = p1 - p0;
    let c2 = (3.0 * e - 2.0 * m0) - m1;
    let c3 = (m0 + m1) - 2.0 * e;
    (m0 + s * (2.0 * c2 + s * (3.0 * c3))) / d
}

// Between both states, so many ms past the older one: D, s and the cubic's coefficients serve position and velocity.
fn motion_along(a: State, b: State, gone: u64, span: u64) -> Motion
    ensures { result ≡ moving (between a b gone span) (rate_between a b gone span) }
{
    let long = to_float(span);
    let d = long / 1000.0;
    let s = to_float(gone) / long;
    let position = Vector {
        x: along_cubic(d, s, a.x, a.vx, b.x, b.vx),
        y: along_cubic(d, s, a.y, a.vy, b.y, b.vy),
        z: along_cubic(d, s, a.z, a.vz, b.z, b.vz),
    };
    let velocity = Vector {
        x: rate_of(d, s, a.x, a.vx, b.x, b.vx),
        y: rate_of(d, s, a.y, a.vy, b.y, b.vy),
        z: rate_of(d, s, a.z, a.vz, b.z, b.vz),
    };
    Motion { position, velocity }
}

fn motion_of(s: State) -> Motion
    ensures { result ≡ moving (position s) (velocity s) }
{
    let position = position_of(s);
    let velocity = velocity_of(s);
    Motion { position, velocity }
}

fn motion_within(a: State, b: State, t: u64) -> Motion
    requires { (a.moment ≤ t) × (t ≤ b.moment) }
    ensures { result ≡ moving (figure a b t) (frame_velocity a b t) }
{
    if t == a.moment {
        return motion_of(a);
    }
    if t == b.moment {
        return motion_of(b);
    }
    motion_along(a, b, t - a.moment, b.moment - a.moment)
}

fn show(m: Motion) -> FrameAnswer<Motion>
    ensures { result ≡ with_velocity (shown m.position) m.velocity }
{
    let position = m.position;
    let velocity = m.velocity;
    if state::vector_is_finite(position) {
        if state::vector_is_finite(velocity) {
            return FrameAnswer::Current(m);
        }
    }
    FrameAnswer::Refused(Refusal::NotFinite)
}

fn motion_between(a: State, b: State, t: u64) -> FrameAnswer<Motion>
    ensures { result ≡ motion_at (Pane.Two a b) t }
{
    if b.moment < t {
        return FrameAnswer::Late(t - b.moment);
    }
    if t < a.moment {
        return FrameAnswer::Empty;
    }
    show(motion_within(a, b, t))
}

// What the pane shows at a moment, with the velocity there.
pub fn frame_motion(pane: Pane, moment: u64) -> FrameAnswer<Motion>
    ensures { result ≡ motion_at pane moment }
{
    match pane {
        Pane::Blank => FrameAnswer::Empty,
        Pane::One(a) => FrameAnswer::Empty,
        Pane::Two(a, b) => motion_between(a, b, moment),
    }
}
