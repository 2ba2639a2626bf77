// The acceleration of a state, for a book that is known to pass and a centre that is known to be a used body. These
// are not public calls: the crates above call them after both checks.

ghost use Rattle.std.specs.Prelude.{true, ◌≡◌};
ghost use Rattle.state.specs.State.{starting_position, centre_allowed};
ghost use Rattle.book.specs.Passes.{passes};
ghost use Rattle.gravity.specs.Sight.{acceleration_for};
ghost use Rattle.gravity_stored.specs.Injection.{kept_by, kept, stored_check_by, stored_check};

use base::{Reason, Refusal, require};
use gravity::Sights;
use gravity::inner::{acceleration_under, rule};
use state::{
    Injection, Setting, State, Vector, acceleration_of, carrying, position_of, starting_position,
};

fn keep<R: Reason>(i: Injection, answer: Result<Vector, R>) -> Result<State, R>
    ensures { result ≡ kept_by i answer }
{
    Ok(carrying(i, answer?))
}

// The bodies at its moment are known already.
pub fn kept_under<R: Reason>(bodies: Sights<R>, setting: Setting, i: Injection) -> Result<State, R>
    ensures { result ≡ kept_by i (acceleration_for R.held bodies setting (starting_position i)) }
{
    let answer = acceleration_under(bodies, setting, starting_position(i));
    keep(i, answer)
}

#[tactic(auto, unfolding(crate::specs::Injection::kept))]
pub fn kept_at(book: &[u8], setting: Setting, i: Injection) -> Result<State, Refusal>
    requires { (passes book.now ≡ true) × (centre_allowed setting i.centre ≡ true) }
    ensures { result ≡ kept book.now setting i }
{
    let answer = rule(book, setting, i.centre, i.moment, starting_position(i));
    keep(i, answer)
}

fn stored_check_by(s: State, answer: Result<Vector, Refusal>) -> Result<(), Refusal>
    ensures { result ≡ stored_check_by s answer }
{
    require(
        state::vectors_agree(answer?, acceleration_of(s)),
        Refusal::Stored,
    )
}

// Whether the acceleration stored with a state is the rule's.
#[tactic(auto, unfolding(crate::specs::Injection::stored_check))]
pub fn stored_check(book: &[u8], setting: Setting, s: State) -> Result<(), Refusal>
    requires { (passes book.now ≡ true) × (centre_allowed setting s.centre ≡ true) }
    ensures { result ≡ stored_check book.now setting s }
{
    let answer = rule(book, setting, s.centre, s.moment, position_of(s));
    stored_check_by(s, answer)
}
