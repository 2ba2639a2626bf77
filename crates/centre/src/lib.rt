// (02, R-6) A state moved to another centre, (02, R-8) with the acceleration that the rule gives it there.

#![tactic(auto)]

ghost use Rattle.std.specs.Prelude.{true, ◌≡◌};
ghost use Rattle.state.specs.State.{centre_allowed};
ghost use Rattle.book.specs.Passes.{passes};
ghost use Rattle.gravity.specs.Acceleration.{at_rest};
ghost use Rattle.centre.specs.Move.{motion_of, kept_or7, move_by, move_of, move_checks, move_answer};

use base::{END_OF_TIME, Refusal};
use book::{Motion, Place, Velocity};
use centre_shift::shifted_state;
use gravity_stored::inner::kept_at;
use state::{Injection, Setting, State};
use state_checks::common_checks;

// The Earth is at rest and needs no cover.
fn at_rest() -> Motion
    ensures { result ≡ at_rest }
{
    let place = Place {
        x: 0.0,
        y: 0.0,
        z: 0.0,
    };
    let velocity = Velocity {
        x: 0.0,
        y: 0.0,
        z: 0.0,
    };
    Motion { place, velocity }
}

fn motion_of(book: &[u8], number: u64, moment: u64) -> Option<Motion>
    requires { passes book.now ≡ true }
    ensures { result ≡ motion_of book.now number moment }
{
    if number == 1 {
        return Some(at_rest());
    }
    let Some(entry) = book::inner::lookup_guessed(book, number, moment, 0) else {
        return None;
    };
    let place = book::inner::place_at(book, entry, moment);
    let velocity = book::inner::velocity_at(book, entry, moment);
    Some(Motion { place, velocity })
}

fn kept_or_7(book: &[u8], setting: Setting, i: Injection) -> Result<State, Refusal>
    requires { (passes book.now ≡ true) × (centre_allowed setting i.centre ≡ true) }
    ensures { result ≡ kept_or7 book.now setting i }
{
    if state::injection_is_finite(i) {
        return kept_at(book, setting, i);
    }
    Err(Refusal::NotFinite)
}

// Both centres must have cover before anything is computed.
fn move_by(
    book: &[u8],
    setting: Setting,
    s: State,
    centre: u64,
    from: Option<Motion>,
    to: Option<Motion>,
) -> Result<State, Refusal>
    requires { (passes book.now ≡ true) × (centre_allowed setting centre ≡ true) }
    ensures { result ≡ move_by book.now setting s centre from to }
{
    let Some(old) = from else {
        return Err(Refusal::Cover);
    };
    let Some(new) = to else {
        return Err(Refusal::Cover);
    };
    kept_or_7(book, setting, shifted_state(s, centre, old, new))
}

// The move itself. The book is known to pass, and the new centre is a used body. If the centre stays the same,
// nothing is looked up.
#[tactic(auto, unfolding(crate::specs::Move::move_of))]
fn moved(book: &[u8], setting: Setting, s: State, centre: u64) -> Result<State, Refusal>
    requires { (passes book.now ≡ true) × (centre_allowed setting centre ≡ true) }
    ensures { result ≡ move_of book.now setting s centre }
{
    if s.centre == centre {
        return Ok(s);
    }
    let from = motion_of(book, s.centre, s.moment);
    let to = motion_of(book, centre, s.moment);
    move_by(book, setting, s, centre, from, to)
}

#[tactic(auto, unfolding(crate::specs::Move::move_checks))]
fn move_checks(book: &[u8], setting: Setting, s: State, centre: u64) -> Result<(), Refusal>
    ensures { result ≡ move_checks book.now setting s centre }
{
    let from = state::centre_is_allowed(setting, s.centre);
    let to = state::centre_is_allowed(setting, centre);
    let finite = state::state_is_finite(s);
    common_checks(book, setting, from && to, s.moment < END_OF_TIME, finite)
}

// The state about another centre: its position and velocity minus those of the new centre, seen from the old.
#[tactic(auto, using(crate::proofs::Moves::may_move), unfolding(crate::specs::Move::move_answer))]
pub fn move_to(book: &[u8], setting: Setting, state: State, centre: u64) -> Result<State, Refusal>
    ensures { result ≡ move_answer book.now setting state centre }
{
    move_checks(book, setting, state, centre)?;
    moved(book, setting, state, centre)
}
