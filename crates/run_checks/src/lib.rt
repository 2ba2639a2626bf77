// The checks before a run's first step.

#![tactic(auto)]

ghost use Rattle.std.specs.Prelude.{◌≡◌};
ghost use Rattle.run_checks.specs.Start.{inputs_checks, start_checks};

use base::{END_OF_TIME, Refusal};
use gravity_stored::inner::stored_check;
use run_target::target_checks;
use state::{Setting, State};
use state_checks::common_checks;

// The common checks of the state and the target.
#[tactic(auto, unfolding(crate::specs::Start::inputs_checks))]
fn inputs_checks(book: &[u8], setting: Setting, s: State, target: u64) -> Result<(), Refusal>
    ensures { result ≡ inputs_checks book.now setting s target }
{
    let centred = state::centre_is_allowed(setting, s.centre);
    let timed = s.moment < END_OF_TIME && target < END_OF_TIME;
    let finite = state::state_is_finite(s);
    common_checks(book, setting, centred, timed, finite)
}

// The first check that fails refuses. The stored acceleration is checked only if the book passes and the centre is allowed.
#[tactic(auto, using(crate::proofs::Passed::opened), unfolding(crate::specs::Start::start_checks))]
pub fn start_checks(
    book: &[u8],
    setting: Setting,
    s: State,
    h: u32,
    target: u64,
) -> Result<(), Refusal>
    ensures { result ≡ start_checks book.now setting s h target }
{
    inputs_checks(book, setting, s, target)?;
    stored_check(book, setting, s)?;
    target_checks(s.moment, h, target)
}
