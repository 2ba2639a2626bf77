// The static library of belfry_pane: each export has the clauses of the call that it passes on.
//
// (02, R-14) The live pane for C and Rust, as numbers in the caller's memory. The first array has the number of
// states, then moment and centre of the older and of the newer. The second has the nine coordinates of each. Memory
// of zeros is an empty pane.

#![tactic(auto)]

ghost use Rattle.std.specs.Prelude.{◌≡◌};
ghost use Rattle.c_answer.specs.Handed.{handed};
ghost use Rattle.c_run.specs.Lent.{state_of};
ghost use Rattle.pane_live.specs.Pane.{take, clear, frame_at};
ghost use Rattle.pane_motion.specs.Motion.{motion_at};
ghost use Rattle.c_pane.specs.Lent.{kept_in, pane_of, pane_in, fed_with, left};
ghost use Rattle.belfry_pane.specs.Answers.{framed, of_frame, in_motion, of_motion};

// Always 0.
#[unsafe(no_mangle)]
pub extern "C" fn belfry_clear(pane: &mut [u64; 5], places: &mut [f64; 18]) -> u64
    ensures { handed result (kept_in pane.new places.new) ≡ handed 0 (pane_in clear) }
{
    belfry_pane::belfry_clear(pane, places)
}

// Returns 0 if the state is taken. Otherwise returns 18 and leaves the pane unchanged.
#[unsafe(no_mangle)]
pub extern "C" fn belfry_take(
    moment: u64,
    centre: u64,
    coordinates: &[f64; 9],
    pane: &mut [u64; 5],
    places: &mut [f64; 18],
) -> u64
    ensures { handed result (kept_in pane.new places.new) ≡ left (kept_in pane.old places.old)
        (take (pane_of pane.old places.old) (state_of moment centre coordinates.now)) }
{
    belfry_pane::belfry_take(moment, centre, coordinates, pane, places)
}

// The number that a run returned, and the state that it reached. Returns 0 if that state is taken, 18 if it is not,
// and 101 for a refused run.
#[unsafe(no_mangle)]
pub extern "C" fn belfry_feed(
    answer: u64,
    moment: u64,
    centre: u64,
    coordinates: &[f64; 9],
    pane: &mut [u64; 5],
    places: &mut [f64; 18],
) -> u64
    ensures { handed result (kept_in pane.new places.new) ≡ left (kept_in pane.old places.old)
        (fed_with (pane_of pane.old places.old) answer (state_of moment centre coordinates.now)) }
{
    belfry_pane::belfry_feed(answer, moment, centre, coordinates, pane, places)
}

// Returns 0 and the position; 102 and how late, in milliseconds; 103 for empty; or 7. There is a position only with
// 0.
#[unsafe(no_mangle)]
pub extern "C" fn belfry_frame(
    pane: &[u64; 5],
    places: &[f64; 18],
    moment: u64,
    position: &mut [f64; 3],
    late: &mut u64,
) -> u64
    ensures { framed result position.new late.new ≡ of_frame
        (frame_at (pane_of pane.now places.now) moment) }
{
    belfry_pane::belfry_frame(pane, places, moment, position, late)
}

// As belfry_frame, with the velocity after the position. There are both only with 0.
#[unsafe(no_mangle)]
pub extern "C" fn belfry_frame_motion(
    pane: &[u64; 5],
    places: &[f64; 18],
    moment: u64,
    motion: &mut [f64; 6],
    late: &mut u64,
) -> u64
    ensures { in_motion result motion.new late.new ≡ of_motion
        (motion_at (pane_of pane.now places.now) moment) }
{
    belfry_pane::belfry_frame_motion(pane, places, moment, motion, late)
}
