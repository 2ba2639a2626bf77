// The motion of a spacecraft: steps of a fixed length under a book of bodies, run in portions.

#![tactic(auto)]

pub mod inner;
mod walking;

ghost use Rattle.std.specs.Prelude.{◌≡◌};
ghost use Rattle.run.specs.Run.{run_answer, single_step_answer};

use base::{END_OF_TIME, Refusal};
use gravity::Guesses;
use state::{Setting, State};
pub use step_end::Stepped;

// How a run ended. A refusal is held as a `Refusal`, or as any R, as a number is.
#[derive(Clone, Copy)]
pub enum Outcome<R = Refusal> {
    Arrived,
    Going,
    Refused(R),
}

#[derive(Clone, Copy)]
pub struct RunAnswer<R = Refusal> {
    pub outcome: Outcome<R>,
    pub steps: u32,
    pub state: State,
    pub guesses: Guesses,
}

// Steps of h milliseconds from a state to a target, as many as the budget allows.
#[tactic(auto, using(crate::proofs::Start::may_walk), unfolding(crate::specs::Run::run_answer))]
pub fn run(
    book: &[u8],
    setting: Setting,
    state: State,
    h: u32,
    target: u64,
    budget: u32,
    guesses: Guesses,
) -> RunAnswer
    ensures { result ≡ run_answer book.now setting state h target budget guesses }
{
    match run_checks::start_checks(book, setting, state, h, target) {
        Ok(()) => walking::walk_on(book, setting, state, h, target, budget, guesses),
        Err(refusal) => RunAnswer {
            outcome: Outcome::Refused(refusal),
            steps: 0,
            state,
            guesses,
        },
    }
}

// One step. If the moment is at or past the end of time, the call refuses it, and the target does not matter.
pub fn single_step(
    book: &[u8],
    setting: Setting,
    state: State,
    h: u32,
    guesses: Guesses,
) -> RunAnswer
    ensures { result ≡ single_step_answer book.now setting state h guesses }
{
    if state.moment < END_OF_TIME {
        return run(book, setting, state, h, state.moment + h as u64, 1, guesses);
    }
    run(book, setting, state, h, END_OF_TIME, 1, guesses)
}
