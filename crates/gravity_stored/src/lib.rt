// (02, R-8) The acceleration stored with a state: turns an injection into a state, and checks whether the stored
// value is the rule's.

#![tactic(auto)]

pub mod inner;

ghost use Rattle.std.specs.Prelude.{◌≡◌};
ghost use Rattle.gravity_stored.specs.Injection.{injection_checks, injection_answer, or_none, launched};

use base::{END_OF_TIME, Refusal};
use state::{Injection, Setting, State, Vector, carrying};
use state_checks::common_checks;

#[tactic(auto, unfolding(crate::specs::Injection::injection_checks))]
fn injection_checks(book: &[u8], setting: Setting, i: Injection) -> Result<(), Refusal>
    ensures { result ≡ injection_checks book.now setting i }
{
    let centred = state::centre_is_allowed(setting, i.centre);
    let finite = state::injection_is_finite(i);
    common_checks(book, setting, centred, i.moment < END_OF_TIME, finite)
}

// The state with the acceleration that the rule gives it.
#[tactic(auto, using(crate::proofs::Checked::injectable), unfolding(crate::specs::Injection::injection_answer))]
pub fn inject(book: &[u8], setting: Setting, injection: Injection) -> Result<State, Refusal>
    ensures { result ≡ injection_answer book.now setting injection }
{
    injection_checks(book, setting, injection)?;
    inner::kept_at(book, setting, injection)
}

fn or_none(i: Injection, answer: Result<State, Refusal>) -> State
    ensures { result ≡ or_none i answer }
{
    match answer {
        Ok(s) => s,
        Err(k) => carrying(
            i,
            Vector {
                x: 0.0,
                y: 0.0,
                z: 0.0,
            },
        ),
    }
}

// The state of an old order, from which a run may start. If the rule gives it no acceleration, the run refuses before
// it reads one.
#[tactic(auto, unfolding(crate::specs::Injection::launched))]
pub fn launch(book: &[u8], setting: Setting, injection: Injection) -> State
    ensures { result ≡ launched book.now setting injection }
{
    let answer = inject(book, setting, injection);
    or_none(injection, answer)
}
