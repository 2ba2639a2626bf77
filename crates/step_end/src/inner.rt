// The end of a step, for a moment that is known to be in range: the weighted slopes of the four stages, and the new
// state with its own acceleration.

ghost use Rattle.std.specs.Prelude.{◌≡◌, ◌<◌};
ghost use Rattle.base.specs.Limits.{end_of_time};
ghost use Rattle.state.specs.State.{acceleration};
ghost use Rattle.step_end.specs.Arrival.{arrive_for, lastly_for};
ghost use Rattle.step_end.specs.Kept.{kept, keeping_for};

use crate::Stepped;
use base::{Reason, Refusal};
use gravity::{Guesses, Sights};
use gravity_stored::inner::kept_under;
use state::{Injection, Setting, State, Vector};
use step_sums::{half_of, seconds, sixth_of, toward, weigh_all};

// The new state, with its own acceleration by the bodies at its moment.
fn arrived<R: Reason>(
    setting: Setting,
    bodies: Sights<R>,
    moment: u64,
    centre: u64,
    p: Vector,
    v: Vector,
) -> Result<Stepped, R>
    ensures { result ≡ kept bodies.entries (arrive_for R.held (keeping_for R.held bodies setting) moment centre p v) }
{
    if state::vector_is_finite(p) {
        if state::vector_is_finite(v) {
            let reached = Injection {
                moment,
                centre,
                x: p.x,
                y: p.y,
                z: p.z,
                vx: v.x,
                vy: v.y,
                vz: v.z,
            };
            let state = kept_under(bodies, setting, reached)?;
            let entries = bodies.entries;
            return Ok(Stepped { state, entries });
        }
    }
    Err(R::held(Refusal::NotFinite))
}

// The weighted sum of the slopes of the four stages.
pub fn finish<R: Reason>(
    setting: Setting,
    s: State,
    h: u32,
    bodies: Sights<R>,
    a2: Vector,
    a3: Vector,
    a4: Vector,
) -> Result<Stepped, R>
    requires { s.moment < end_of_time }
    ensures { result ≡ kept bodies.entries (lastly_for R.held (keeping_for R.held bodies setting) h s (acceleration s) a2 a3 a4) }
{
    let half = half_of(h);
    let sixth = sixth_of(h);
    let a1 = state::acceleration_of(s);
    let v = state::velocity_of(s);
    let v2 = toward(v, half, a1);
    let v3 = toward(v, half, a2);
    let v4 = toward(v, seconds(h), a3);
    let p = toward(state::position_of(s), sixth, weigh_all(v, v2, v3, v4));
    let w = toward(v, sixth, weigh_all(a1, a2, a3, a4));
    arrived(setting, bodies, s.moment + h as u64, s.centre, p, w)
}
