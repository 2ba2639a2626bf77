// (02, R-14) The live pane for C and Rust, as numbers in the caller's memory. The first array has the number of
// states, then moment and centre of the older and of the newer. The second has the nine coordinates of each. Memory
// of zeros is an empty pane.

#![tactic(auto)]

mod frames;

ghost use Rattle.std.specs.Prelude.{◌≡◌};
ghost use Rattle.c_answer.specs.Handed.{handed};
ghost use Rattle.c_run.specs.Lent.{state_of};
ghost use Rattle.pane_live.specs.Pane.{take, clear, frame_at};
ghost use Rattle.pane_motion.specs.Motion.{motion_at};
ghost use Rattle.c_pane.specs.Lent.{kept_in, pane_of, pane_in, fed_with, left};
ghost use Rattle.belfry_pane.specs.Answers.{framed, of_frame, in_motion, of_motion};

use c_pane::{keep, pane_of};

// Always 0.
#[unsafe(no_mangle)]
pub extern "C" fn belfry_clear(pane: &mut [u64; 5], places: &mut [f64; 18]) -> u64
    ensures { handed result (kept_in pane.new places.new) ≡ handed 0 (pane_in clear) }
{
    let blank = pane_live::clear();
    *pane = c_pane::numbers_in(blank);
    *places = c_pane::places_in(blank);
    0
}

// Returns 0 if the state is taken. Otherwise returns 18 and leaves the pane unchanged.
#[unsafe(no_mangle)]
pub extern "C" fn belfry_take(
    moment: u64,
    centre: u64,
    coordinates: &[f64; 9],
    pane: &mut [u64; 5],
    places: &mut [f64; 18],
) -> u64
    ensures { handed result (kept_in pane.new places.new) ≡ left (kept_in pane.old places.old)
        (take (pane_of pane.old places.old) (state_of moment centre coordinates.now)) }
{
    let before = pane_of(pane, places);
    let state = c_run::state_of(moment, centre, *coordinates);
    keep(pane_live::take(before, state), pane, places)
}

// The number that a run returned, and the state that it reached. Returns 0 if that state is taken, 18 if it is not,
// and 101 for a refused run.
#[unsafe(no_mangle)]
pub extern "C" fn belfry_feed(
    answer: u64,
    moment: u64,
    centre: u64,
    coordinates: &[f64; 9],
    pane: &mut [u64; 5],
    places: &mut [f64; 18],
) -> u64
    ensures { handed result (kept_in pane.new places.new) ≡ left (kept_in pane.old places.old)
        (fed_with (pane_of pane.old places.old) answer (state_of moment centre coordinates.now)) }
{
    let before = pane_of(pane, places);
    let state = c_run::state_of(moment, centre, *coordinates);
    keep(c_pane::feed(before, answer, state), pane, places)
}

// Returns 0 and the position; 102 and how late, in milliseconds; 103 for empty; or 7. There is a position only with
// 0.
#[unsafe(no_mangle)]
pub extern "C" fn belfry_frame(
    pane: &[u64; 5],
    places: &[f64; 18],
    moment: u64,
    position: &mut [f64; 3],
    late: &mut u64,
) -> u64
    ensures { framed result position.new late.new ≡ of_frame
        (frame_at (pane_of pane.now places.now) moment) }
{
    let shown = c_pane::shown_at(pane, places, moment);
    *position = frames::position_in(shown);
    *late = frames::late_in(shown);
    frames::returned_by(shown)
}

// As belfry_frame, with the velocity after the position. There are both only with 0.
#[unsafe(no_mangle)]
pub extern "C" fn belfry_frame_motion(
    pane: &[u64; 5],
    places: &[f64; 18],
    moment: u64,
    motion: &mut [f64; 6],
    late: &mut u64,
) -> u64
    ensures { in_motion result motion.new late.new ≡ of_motion
        (motion_at (pane_of pane.now places.now) moment) }
{
    let shown = pane_motion::frame_motion(pane_of(pane, places), moment);
    *motion = frames::motion_in(shown);
    *late = frames::late_in(shown);
    frames::returned_by(shown)
}
