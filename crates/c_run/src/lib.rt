// Converts the guesses and the answer of a run between the caller's memory and the values of the crates below. Also
// the calls about a state under a book.

#![tactic(auto)]

pub mod calls;

ghost use Rattle.std.specs.Prelude.{◌≡◌};
ghost use Rattle.c_run.specs.Lent.{guesses_of};
ghost use Rattle.c_run.specs.Answers.{number_by, run_memory, of_run_in, of_run_by, of_flight_by};

use base::Reason;
use c_state::{coordinates_in, whole_in};
pub use c_state::{injection_of, setting_of, state_of};
use gravity::Guesses;
use run::{Outcome, RunAnswer};

const GOING: u64 = 100;

pub fn guesses_of(g: [u64; 5]) -> Guesses
    ensures { result ≡ guesses_of g }
{
    Guesses {
        moon: g[0],
        sun: g[1],
        venus: g[2],
        mars: g[3],
        jupiter: g[4],
    }
}

fn outcome_number<R: Reason>(outcome: Outcome<R>) -> u64
    ensures { result ≡ number_by R.told outcome }
{
    match outcome {
        Outcome::Arrived => 0,
        Outcome::Going => GOING,
        Outcome::Refused(refusal) => refusal.told(),
    }
}

// A refused run returns these too: the last state reached, in these coordinates, and the steps done.
fn hand_back_in<R: Reason, const N: usize>(
    coordinates: [f64; N],
    answer: RunAnswer<R>,
    reached: &mut u64,
    there: &mut [f64; N],
    entries: &mut [u64; 5],
    steps: &mut u32,
) -> u64
    ensures { run_memory result reached.new there.new entries.new steps.new
        ≡ of_run_in R.told coordinates.entry answer }
{
    *reached = answer.state.moment;
    *there = coordinates;
    let g = answer.guesses;
    *entries = [g.moon, g.sun, g.venus, g.mars, g.jupiter];
    *steps = answer.steps;
    outcome_number(answer.outcome)
}

// Position and velocity of the last state reached.
pub fn hand_back<R: Reason>(
    answer: RunAnswer<R>,
    reached: &mut u64,
    there: &mut [f64; 6],
    entries: &mut [u64; 5],
    steps: &mut u32,
) -> u64
    ensures { run_memory result reached.new there.new entries.new steps.new
        ≡ of_run_by R.told answer }
{
    let six = coordinates_in(answer.state);
    hand_back_in(six, answer, reached, there, entries, steps)
}

// The same with the whole state.
pub fn hand_back_whole<R: Reason>(
    answer: RunAnswer<R>,
    reached: &mut u64,
    there: &mut [f64; 9],
    entries: &mut [u64; 5],
    steps: &mut u32,
) -> u64
    ensures { run_memory result reached.new there.new entries.new steps.new
        ≡ of_flight_by R.told answer }
{
    let nine = whole_in(answer.state);
    hand_back_in(nine, answer, reached, there, entries, steps)
}
