// The loop over the steps.

ghost use Rattle.std.specs.Prelude.{◌≡◌};
ghost use Rattle.step.specs.Step.{step};
ghost use Rattle.run.specs.Run.{handed_back, run_to, with_guesses};
ghost use Rattle.run.specs.Kept.{guess_from, guesses_from, MayWalk};

use crate::{Outcome, RunAnswer};
use gravity::Guesses;
use state::{Setting, State};
use step::inner::step_under;

fn guess_from(m: f64, lit: bool, entry: u64, given: u64) -> u64
    ensures { result ≡ guess_from m lit entry given }
{
    if state::is_looked_up(m, lit) {
        return entry;
    }
    given
}

fn guesses_from(setting: Setting, entries: Guesses, given: Guesses) -> Guesses
    ensures { result ≡ guesses_from setting entries given }
{
    let shines = state::sun_shines(setting);
    Guesses {
        moon: guess_from(setting.moon, false, entries.moon, given.moon),
        sun: guess_from(setting.sun, shines, entries.sun, given.sun),
        venus: guess_from(setting.venus, false, entries.venus, given.venus),
        mars: guess_from(setting.mars, false, entries.mars, given.mars),
        jupiter: guess_from(setting.jupiter, false, entries.jupiter, given.jupiter),
    }
}

fn handed_back(outcome: Outcome, steps: u32, state: State, guesses: Guesses) -> RunAnswer
    ensures { result ≡ handed_back outcome steps state guesses }
{
    RunAnswer {
        outcome,
        steps,
        state,
        guesses,
    }
}

// The entry of each body at the end of a step is the first guess for the next step.
pub fn walk_on(
    book: &[u8],
    setting: Setting,
    start: State,
    h: u32,
    target: u64,
    budget: u32,
    given: Guesses,
) -> RunAnswer
    requires { MayWalk book.now setting start h target }
    ensures { result ≡ with_guesses book.now setting given (run_to (step book.now setting h) target budget start) }
{
    let calm = book::inner::book_calm(book);
    let mut now = start;
    let mut guesses = given;
    for n in 0..budget {
        if now.moment == target {
            return handed_back(Outcome::Arrived, n, now, guesses);
        }
        match step_under(book, setting, now, h, guesses, calm) {
            Ok(next) => {
                now = next.state;
                guesses = guesses_from(setting, next.entries, given);
            }
            Err(refusal) => return handed_back(Outcome::Refused(refusal), n, now, guesses),
        }
    }
    if now.moment == target {
        return handed_back(Outcome::Arrived, budget, now, guesses);
    }
    handed_back(Outcome::Going, budget, now, guesses)
}
