// For a book that is known to pass: the calls that the crates above make at each stage, after `book_passes` has
// returned true. They are not public calls of the product: those that take a book require that it passes.

ghost use Rattle.std.specs.Prelude.{true, ◌&&◌, ◌≡◌, ◌<◌};
ghost use Rattle.std.specs.Float.Ieee.Scale.{finite};
ghost use Rattle.book_check.specs.Contents.{entry_count};
ghost use Rattle.book_check.specs.Passes.{passes};
ghost use Rattle.book_search.specs.Lookup.{covers};
ghost use Rattle.book_series.specs.Series.{place, velocity};
ghost use Rattle.book.specs.Position.{finite_place, finite_velocity, body_at};
ghost use Rattle.book.specs.Reading.{Reads};
ghost use Rattle.book.specs.Calm.{Ready};

use crate::Motion;
pub use crate::calm::book_calm;
use base::{Refusal, is_finite};
use base_bytes::inner::{u16_at, u32_at, u64_at};
pub use book_check::inner::{fields_allowed, floats_finite, offset_of, size_of};
pub use book_search::inner::lookup_guessed;
use book_series::inner::{argument_at, series_at, slopes_at, two_series_at};
use book_series::{Place, TwoPlaces, Velocity};

// What is read from an entry for a moment: the place of its block, the number of floats for an axis, w and L.
#[derive(Clone, Copy)]
pub struct Reading {
    pub offset: usize,
    pub n: usize,
    pub w: f64,
    pub span: f64,
}

fn reading_at(book: &[u8], entry: usize, moment: u64) -> Reading
    requires book_value { passes book.now ≡ true }
    requires bound { (entry < entry_count book.now) × (covers book.now entry moment ≡ true) }
    ensures { Reads book.now entry moment result }
{
    let at = 8 + 24 * entry;
    let n = u16_at(book, at + 2) as usize;
    let offset = u32_at(book, at + 4) as usize;
    let start = u64_at(book, at + 8);
    let span = u64_at(book, at + 16);
    let w = argument_at(start, span, moment);
    let long = span as f64;
    Reading {
        offset,
        n,
        w,
        span: long,
    }
}

pub fn place_at(book: &[u8], entry: usize, moment: u64) -> Place
    requires book_value { passes book.now ≡ true }
    requires bound { (entry < entry_count book.now) × (covers book.now entry moment ≡ true) }
    ensures { result ≡ place book.now entry moment }
{
    let r = reading_at(book, entry, moment);
    series_at(book, r.offset, r.n, r.w)
}

// The places by entries i and j at one moment, each as `place_at` returns it. The two series share a loop.
pub fn two_places_at(book: &[u8], i: usize, j: usize, moment: u64) -> TwoPlaces
    requires book_value { passes book.now ≡ true }
    requires i_bound { (i < entry_count book.now) × (covers book.now i moment ≡ true) }
    requires j_bound { (j < entry_count book.now) × (covers book.now j moment ≡ true) }
    ensures first_value { result.first ≡ place book.now i moment }
    ensures second_value { result.second ≡ place book.now j moment }
{
    let r = reading_at(book, i, moment);
    let s = reading_at(book, j, moment);
    two_series_at(book, r.offset, r.n, r.w, s.offset, s.n, s.w)
}

pub fn velocity_at(book: &[u8], entry: usize, moment: u64) -> Velocity
    requires book_value { passes book.now ≡ true }
    requires bound { (entry < entry_count book.now) × (covers book.now entry moment ≡ true) }
    ensures { result ≡ velocity book.now entry moment }
{
    let r = reading_at(book, entry, moment);
    slopes_at(book, r.offset, r.n, r.w, r.span)
}

fn all_finite(x: f64, y: f64, z: f64) -> bool
    ensures { result ≡ (finite x && finite y && finite z) }
{
    is_finite(x) && is_finite(y) && is_finite(z)
}

pub fn place_finite(place: Place) -> bool
    ensures { result ≡ finite_place place }
{
    all_finite(place.x, place.y, place.z)
}

fn velocity_finite(velocity: Velocity) -> bool
    ensures { result ≡ finite_velocity velocity }
{
    all_finite(velocity.x, velocity.y, velocity.z)
}

// Whether the velocity at the moment is finite. In a calm book it always is, so it is not computed.
pub fn slow_at(book: &[u8], entry: usize, moment: u64, calm: bool) -> bool
    requires ready { Ready book.now calm }
    requires bound { (entry < entry_count book.now) × (covers book.now entry moment ≡ true) }
    ensures { result ≡ finite_velocity (velocity book.now entry moment) }
{
    calm || velocity_finite(velocity_at(book, entry, moment))
}

pub fn body_at(book: &[u8], body: u64, moment: u64, guess: usize) -> Result<Motion, Refusal>
    requires { passes book.now ≡ true }
    ensures { result ≡ body_at book.now body moment }
{
    let Some(i) = lookup_guessed(book, body, moment, guess) else {
        return Err(Refusal::Cover);
    };
    let place = place_at(book, i, moment);
    let velocity = velocity_at(book, i, moment);
    if place_finite(place) && velocity_finite(velocity) {
        Ok(Motion { place, velocity })
    } else {
        Err(Refusal::NotFinite)
    }
}
