// The calls about a state under a book, with numbers and the caller's memory. The exported calls of the crates above
// use them.

ghost use Rattle.std.specs.Prelude.{◌≡◌};
ghost use Rattle.run.specs.Run.{run_answer};
ghost use Rattle.centre.specs.Move.{move_answer};
ghost use Rattle.c_answer.specs.Handed.{handed, answered};
ghost use Rattle.c_state.specs.Groups.{setting_of, state_of, whole_in};
ghost use Rattle.c_run.specs.Lent.{guesses_of};
ghost use Rattle.c_run.specs.Answers.{of_move, run_memory, of_flight};

use crate::{guesses_of, hand_back_whole};
use c_answer::hand_out;
pub use c_gravity::{inject, pull};
use c_state::{setting_of, state_of, whole_in};

// Input and output are separate arrays: the next call reads what this one wrote. The centre is the one given.
pub fn fly(
    book: &[u8],
    coefficients: &[f64; 6],
    extras: &[f64; 3],
    dut: u32,
    rule: u64,
    moment: u64,
    centre: u64,
    coordinates: &[f64; 9],
    h: u32,
    target: u64,
    budget: u32,
    guesses: &[u64; 5],
    reached: &mut u64,
    there: &mut [f64; 9],
    entries: &mut [u64; 5],
    steps: &mut u32,
) -> u64
    ensures { run_memory result reached.new there.new entries.new steps.new ≡ of_flight
        (run_answer book.now (setting_of coefficients.now extras.now dut rule)
        (state_of moment centre coordinates.now) h target budget (guesses_of guesses.now)) }
{
    let setting = setting_of(*coefficients, *extras, dut, rule);
    let state = state_of(moment, centre, *coordinates);
    let given = guesses_of(*guesses);
    let answer = run::run(book, setting, state, h, target, budget, given);
    hand_back_whole(answer, reached, there, entries, steps)
}

pub fn moved(
    book: &[u8],
    coefficients: &[f64; 6],
    extras: &[f64; 3],
    dut: u32,
    rule: u64,
    moment: u64,
    centre: u64,
    coordinates: &[f64; 9],
    new: u64,
    moved: &mut [f64; 9],
) -> u64
    ensures { handed result moved.new ≡ answered moved.old
        (of_move (move_answer book.now (setting_of coefficients.now extras.now dut rule)
        (state_of moment centre coordinates.now) new)) }
{
    let setting = setting_of(*coefficients, *extras, dut, rule);
    let state = state_of(moment, centre, *coordinates);
    hand_out(
        centre::move_to(book, setting, state, new).map(whole_in),
        moved,
    )
}
