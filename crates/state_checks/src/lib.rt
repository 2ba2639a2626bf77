// The first checks of acceleration, injection, move and run.

#![tactic(auto)]

ghost use Rattle.std.specs.Prelude.{◌≡◌};
ghost use Rattle.state_checks.specs.Common.{common_checks};

use base::{Refusal, require};
use state::Setting;

// The first check that fails refuses. The caller says whether its centres are allowed, its moments in range and its
// figures finite.
#[tactic(auto, unfolding(crate::specs::Common::common_checks))]
pub fn common_checks(
    book: &[u8],
    setting: Setting,
    centred: bool,
    timed: bool,
    finite: bool,
) -> Result<(), Refusal>
    ensures { result ≡ common_checks book.now setting centred timed finite }
{
    require(book::book_passes(book), Refusal::Book)?;
    require(state::setting_is_allowed(setting), Refusal::Setting)?;
    require(centred, Refusal::Centre)?;
    require(timed, Refusal::Moment)?;
    require(finite, Refusal::NotFinite)
}
