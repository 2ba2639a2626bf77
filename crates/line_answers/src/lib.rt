// What ask answers to a line, by the book that it has.

#![tactic(auto)]

mod almanac;
mod flights;
mod places;

ghost use Rattle.std.specs.Prelude.{◌≡◌};
ghost use Rattle.line_answers.specs.Calls.{answer_to};

use crate::almanac::{root_line, sincos_line, time_call};
use line_form::form::reads;
use line_types::Answer;

// root or sincos, or a call of a time.
pub fn answer_to(book: &[u8], line: &[u8]) -> Answer
    ensures { result ≡ answer_to book.now line.now }
{
    let mut v = [0u64; 30];
    if reads(line, b"root", b"F", &mut v) {
        return root_line(&v);
    }
    if reads(line, b"sincos", b"D", &mut v) {
        return sincos_line(&v);
    }
    time_call(book, line)
}
