// The acceleration of a spacecraft about a centre: the pull of the centre, minus what the other bodies give the craft
// and the centre.

#![tactic(auto)]

pub mod inner;

ghost use Rattle.std.specs.Prelude.{◌≡◌};
ghost use Rattle.gravity.specs.Acceleration.{acceleration_answer};

use base::{END_OF_TIME, Refusal};
use gravity_pull::{CraftRoots, Other};
use state::{Setting, Vector};
use state_checks::common_checks;

// (02, R-6) The five bodies other than the centre, in rising number, each seen from the centre with its pull on the
// centre.
#[derive(Clone, Copy)]
pub struct Others {
    pub first: Other,
    pub second: Other,
    pub third: Other,
    pub fourth: Other,
    pub fifth: Other,
}

// For each body other than the Earth, the entry of the book to try first.
#[derive(Clone, Copy)]
pub struct Guesses {
    pub moon: u64,
    pub sun: u64,
    pub venus: u64,
    pub mars: u64,
    pub jupiter: u64,
}

// What is kept for a moment about a centre: the refusal of the first body that is refused, the entries found, and
// the coefficient of the centre. Also the positions of the Earth and the Sun, seen from the centre (02, R-7), and the
// other bodies. The refusal is held as an R, which may be any number.
#[derive(Clone, Copy)]
pub struct Sights<R = Refusal> {
    pub checked: Result<(), R>,
    pub entries: Guesses,
    pub own: f64,
    pub home: Vector,
    pub sun: Vector,
    pub others: Others,
}

// The last three bodies beside the centre, and the roots that a first position asks for.
#[derive(Clone, Copy)]
pub struct LastSeen {
    pub third: Other,
    pub fourth: Other,
    pub fifth: Other,
    pub roots: [f64; 3],
}

// The bodies beside the centre, and the roots that a first position asks for.
#[derive(Clone, Copy)]
pub struct OthersSeen {
    pub others: Others,
    pub roots: CraftRoots,
}

// What is kept of a moment, and the roots that a first position asks for.
#[derive(Clone, Copy)]
pub struct Seen {
    pub bodies: Sights,
    pub roots: CraftRoots,
}

// The acceleration about a centre at a position, under a setting, at a moment of a book.
#[tactic(auto, unfolding(crate::specs::Acceleration::acceleration_answer))]
pub fn acceleration(
    book: &[u8],
    setting: Setting,
    centre: u64,
    moment: u64,
    position: Vector,
) -> Result<Vector, Refusal>
    ensures { result ≡ acceleration_answer book.now setting centre moment position }
{
    let centred = state::centre_is_allowed(setting, centre);
    let finite = state::vector_is_finite(position);
    common_checks(book, setting, centred, moment < END_OF_TIME, finite)?;
    inner::rule(book, setting, centre, moment, position)
}
