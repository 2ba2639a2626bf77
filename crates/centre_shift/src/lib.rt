// (02, R-6) Position and velocity of a state minus those of a new centre, seen from the old.

#![tactic(auto)]

ghost use Rattle.std.specs.Prelude.{◌≡◌};
ghost use Rattle.centre_shift.specs.Shift.{offset, velocity_offset, shifted};

use book::Motion;
use book_series::{Place, Velocity};
use gravity_pull::pulls::difference;
use state::{Injection, State, Vector};

// The position of the new centre, seen from the old.
fn apart_by(old: Place, new: Place) -> Vector
    ensures { result ≡ offset old new }
{
    Vector {
        x: new.x - old.x,
        y: new.y - old.y,
        z: new.z - old.z,
    }
}

// The velocity of the new centre, seen from the old.
fn velocity_apart(old: Velocity, new: Velocity) -> Vector
    ensures { result ≡ velocity_offset old new }
{
    Vector {
        x: new.x - old.x,
        y: new.y - old.y,
        z: new.z - old.z,
    }
}

pub fn shifted_state(s: State, centre: u64, old: Motion, new: Motion) -> Injection
    ensures { result ≡ shifted s centre old new }
{
    let p = difference(state::position_of(s), apart_by(old.place, new.place));
    let v = difference(
        state::velocity_of(s),
        velocity_apart(old.velocity, new.velocity),
    );
    Injection {
        moment: s.moment,
        centre,
        x: p.x,
        y: p.y,
        z: p.z,
        vx: v.x,
        vy: v.y,
        vz: v.z,
    }
}
