// The calls about a state that need no book: Earth-fixed coordinates, a launch injection and the conic. An old line is the new one about
// the Earth, by the old rule.

ghost use Rattle.std.specs.Prelude.{◌≡◌, drop};
ghost use Rattle.line_answers.specs.Calls.{fixed_call, turn_call, sphere_call, conic_call, orbit_call, answer_of, questions};

use crate::flights::book_call;
use line_form::form::{Numbers, reads};
use line_types::Answer;
use line_values::inner::{narrowed, nth_float, sphere_of, state_from, unkept_from};

fn fixed_line(v: &Numbers) -> Answer
    ensures { result ≡ fixed_call.answer v.now }
{
    let state = unkept_from(v, v[1], 2);
    Answer::Fixed(earth_fixed::earth_fixed(0, narrowed(v[0]), state))
}

fn turn_line(v: &Numbers) -> Answer
    ensures { result ≡ turn_call.answer v.now }
{
    let state = state_from(v, 2);
    Answer::Fixed(earth_fixed::earth_fixed(v[0], narrowed(v[1]), state))
}

fn sphere_line(v: &Numbers) -> Answer
    ensures { result ≡ sphere_call.answer v.now }
{
    let sphere = sphere_of(v);
    Answer::Launched(launch::from_sphere(sphere, v[0], v[2], narrowed(v[1])))
}

fn conic_line(v: &Numbers) -> Answer
    ensures { result ≡ conic_call.answer v.now }
{
    let state = unkept_from(v, 0, 1);
    Answer::Conic(conic::conic_figures(nth_float(v, 0), state))
}

fn orbit_line(v: &Numbers) -> Answer
    ensures { result ≡ orbit_call.answer v.now }
{
    let state = state_from(v, 1);
    Answer::Conic(conic::conic_figures(nth_float(v, 0), state))
}

// conic or orbit, or a call with a book.
fn conic_call(book: &[u8], line: &[u8]) -> Answer
    ensures { result ≡ answer_of (drop 9 (questions book.now)) line.now }
{
    let mut v = [0u64; 30];
    if reads(line, b"conic", b"FFFFFFF", &mut v) {
        return conic_line(&v);
    }
    if reads(line, b"orbit", b"FDDFFFFFFFFF", &mut v) {
        return orbit_line(&v);
    }
    book_call(book, line)
}

// fixed, turn or sphere, or a call of a conic.
pub fn place_call(book: &[u8], line: &[u8]) -> Answer
    ensures { result ≡ answer_of (drop 6 (questions book.now)) line.now }
{
    let mut v = [0u64; 30];
    if reads(line, b"fixed", b"SDFFFFFF", &mut v) {
        return fixed_line(&v);
    }
    if reads(line, b"turn", b"DSDDFFFFFFFFF", &mut v) {
        return turn_line(&v);
    }
    if reads(line, b"sphere", b"DSDFNDFND", &mut v) {
        return sphere_line(&v);
    }
    conic_call(book, line)
}
