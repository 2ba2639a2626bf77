// The calls that need no state: square root, sine and cosine, sidereal time and calendar.

ghost use Rattle.std.specs.Prelude.{◌≡◌, drop};
ghost use Rattle.line_answers.specs.Calls.{root_call, sincos_call, hour_call, sidereal_call, date_call, day_call, answer_of, questions};

use crate::places::place_call;
use calendar::Calendar;
use line_form::form::{Numbers, reads};
use line_types::Answer;
use line_values::inner::{narrowed, nth_float};

pub fn root_line(v: &Numbers) -> Answer
    ensures { result ≡ root_call.answer v.now }
{
    Answer::Root(root::root(nth_float(v, 0)))
}

pub fn sincos_line(v: &Numbers) -> Answer
    ensures { result ≡ sincos_call.answer v.now }
{
    Answer::SineCosine(sine::sine_cosine(v[0]))
}

fn hour_line(v: &Numbers) -> Answer
    ensures { result ≡ hour_call.answer v.now }
{
    Answer::Hour(hour::hour_angle(v[0], narrowed(v[1])))
}

fn sidereal_line(v: &Numbers) -> Answer
    ensures { result ≡ sidereal_call.answer v.now }
{
    Answer::Hour(hour::sidereal(v[0], v[1], narrowed(v[2])))
}

fn date_line(v: &Numbers) -> Answer
    ensures { result ≡ date_call.answer v.now }
{
    Answer::Date(Calendar::from_day(v[0]))
}

fn day_line(v: &Numbers) -> Answer
    ensures { result ≡ day_call.answer v.now }
{
    Answer::Day(Calendar::from_date(v[0], v[1], v[2]))
}

// hour, sidereal, date or day, or a call of a place.
pub fn time_call(book: &[u8], line: &[u8]) -> Answer
    ensures { result ≡ answer_of (drop 2 (questions book.now)) line.now }
{
    let mut v = [0u64; 30];
    if reads(line, b"hour", b"DS", &mut v) {
        return hour_line(&v);
    }
    if reads(line, b"sidereal", b"DDS", &mut v) {
        return sidereal_line(&v);
    }
    if reads(line, b"date", b"D", &mut v) {
        return date_line(&v);
    }
    if reads(line, b"day", b"DDD", &mut v) {
        return day_line(&v);
    }
    place_call(book, line)
}
