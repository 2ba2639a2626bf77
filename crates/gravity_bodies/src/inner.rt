// One body looked up in a book that is known to pass; and the Moon and the Sun together.

ghost use Rattle.std.specs.Prelude.{false, ◌≡◌};
ghost use Rattle.book.specs.Calm.{Ready};
ghost use Rattle.gravity_bodies.specs.Looked.{found_at, found_of};

use crate::{Sight, TwoSights, blank_sight};
use base::Refusal;
use book::Place;
use state::Vector;

// A body that an entry puts at p; `slow` says whether its velocity is finite.
fn found_at(p: Place, slow: bool, entry: usize, m: f64) -> Sight
    ensures { result ≡ found_at p slow entry m }
{
    let place = Vector {
        x: p.x,
        y: p.y,
        z: p.z,
    };
    if state::vector_is_finite(place) {
        if slow {
            return Sight {
                checked: Ok(()),
                entry,
                m,
                place,
            };
        }
        return blank_sight(m, Err(Refusal::NotFinite));
    }
    blank_sight(m, Err(Refusal::NotFinite))
}

// Looks up a body if it pulls, or for its light (02, R-7). `calm` may be true only for a book in which no velocity
// can overflow.
pub fn found(
    book: &[u8],
    number: u64,
    m: f64,
    light: bool,
    moment: u64,
    guess: u64,
    calm: bool,
) -> Sight
    requires { Ready book.now calm }
    ensures { result ≡ found_of book.now number m light moment }
{
    if state::is_looked_up(m, light) {
        let Some(entry) = book::inner::lookup_guessed(book, number, moment, guess as usize) else {
            return blank_sight(m, Err(Refusal::Cover));
        };
        let place = book::inner::place_at(book, entry, moment);
        let slow = book::inner::slow_at(book, entry, moment, calm);
        return found_at(place, slow, entry, m);
    }
    blank_sight(m, Ok(()))
}

// The Moon and the Sun, one after the other.
fn found_each(
    book: &[u8],
    m: f64,
    m2: f64,
    light: bool,
    moment: u64,
    guess: u64,
    guess2: u64,
    calm: bool,
) -> TwoSights
    requires { Ready book.now calm }
    ensures first_value { result.first ≡ found_of book.now 2 m false moment }
    ensures second_value { result.second ≡ found_of book.now 3 m2 light moment }
{
    let first = found(book, 2, m, false, moment, guess, calm);
    let second = found(book, 3, m2, light, moment, guess2, calm);
    TwoSights { first, second }
}

// Looks up the Moon and the Sun, each as `found` does. If both have an entry, their series share a loop: that is
// faster than one after the other.
pub fn found_two(
    book: &[u8],
    m: f64,
    m2: f64,
    light: bool,
    moment: u64,
    guess: u64,
    guess2: u64,
    calm: bool,
) -> TwoSights
    requires { Ready book.now calm }
    ensures first_value { result.first ≡ found_of book.now 2 m false moment }
    ensures second_value { result.second ≡ found_of book.now 3 m2 light moment }
{
    if state::is_looked_up(m, false) {
        if state::is_looked_up(m2, light) {
            let Some(i) = book::inner::lookup_guessed(book, 2, moment, guess as usize) else {
                return found_each(book, m, m2, light, moment, guess, guess2, calm);
            };
            let Some(j) = book::inner::lookup_guessed(book, 3, moment, guess2 as usize) else {
                return found_each(book, m, m2, light, moment, guess, guess2, calm);
            };
            let places = book::inner::two_places_at(book, i, j, moment);
            let moon = places.first;
            let sun = places.second;
            let slow = book::inner::slow_at(book, i, moment, calm);
            let slow2 = book::inner::slow_at(book, j, moment, calm);
            let first = found_at(moon, slow, i, m);
            let second = found_at(sun, slow2, j, m2);
            return TwoSights { first, second };
        }
    }
    found_each(book, m, m2, light, moment, guess, guess2, calm)
}
