// Writes a frame to the caller's memory.

ghost use Rattle.std.specs.Float.{nan};
ghost use Rattle.std.specs.Prelude.{◌≡◌};
ghost use Rattle.c_run.specs.Lent.{vector_in};
ghost use Rattle.belfry_pane.specs.Answers.{nothing, frame_number, frame_late, current_or, six_in, no_motion};

use pane_live::FrameAnswer;
use pane_motion::Motion;
use state::Vector;

const LATE: u64 = 102;

const EMPTY: u64 = 103;

fn no_number() -> f64
    ensures { result ≡ nan }
{
    // infinity less infinity is a NaN
    let top = f64::from_bits(0x7ff0_0000_0000_0000);
    top - top
}

// If a frame is not current, no older figure remains in the place of the position.
pub fn position_in(shown: FrameAnswer<Vector>) -> [f64; 3]
    ensures { result ≡ current_or vector_in nothing shown }
{
    match shown {
        FrameAnswer::Current(p) => [p.x, p.y, p.z],
        _ => [no_number(); 3],
    }
}

// The same for position and velocity.
pub fn motion_in(shown: FrameAnswer<Motion>) -> [f64; 6]
    ensures { result ≡ current_or six_in no_motion shown }
{
    match shown {
        FrameAnswer::Current(m) => {
            [
                m.position.x,
                m.position.y,
                m.position.z,
                m.velocity.x,
                m.velocity.y,
                m.velocity.z,
            ]
        }
        _ => [no_number(); 6],
    }
}

pub fn late_in<T: Copy>(shown: FrameAnswer<T>) -> u64
    ensures { result ≡ frame_late shown }
{
    match shown {
        FrameAnswer::Late(ms) => ms,
        _ => 0,
    }
}

pub fn returned_by<T: Copy>(shown: FrameAnswer<T>) -> u64
    ensures { result ≡ frame_number shown }
{
    match shown {
        FrameAnswer::Current(_) => 0,
        FrameAnswer::Late(_) => LATE,
        FrameAnswer::Empty => EMPTY,
        FrameAnswer::Refused(refusal) => refusal.number(),
    }
}
