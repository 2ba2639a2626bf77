// A line, byte by byte.

ghost use Rattle.std.specs.Prelude.{◌≡◌, []};
ghost use Rattle.listing_scan.specs.Reading.{finite_bits, pushed, blank};
ghost use Rattle.listing_scan.specs.Bytes.{told, begun, on_first, on_letter, behind_number, on_digit, on_behind, on_moment, on_hex, on_byte, ends_as};

use crate::letters::{hex_value, is_decimal, letters_of};
use crate::{Line, Row, Scan, Word};

// A tenth of the end of time: a moment of this or more cannot take another digit.
const TENTH: u64 = 315_576_000_000;

fn first_byte(b: u8) -> Scan
    ensures { result ≡ on_first b }
{
    if b == 83 {
        return Scan::Letters(Word::Strip, 1);
    }
    if b == 65 {
        return Scan::Letters(Word::Arrived, 1);
    }
    if b == 82 {
        return Scan::Letters(Word::Refused, 1);
    }
    if is_decimal(b) {
        return Scan::Moment((b - 48) as u64);
    }
    Scan::Bad
}

fn next_letter(w: Word, i: usize, b: u8) -> Scan
    ensures { result ≡ on_letter w i b }
{
    let letters = letters_of(w);
    if i < letters.len() {
        if b == letters[i] {
            return Scan::Letters(w, i + 1);
        }
        return Scan::Bad;
    }
    if is_decimal(b) {
        return Scan::Digits(w, 48 < b);
    }
    Scan::Bad
}

fn next_digit(w: Word, more: bool, b: u8) -> Scan
    ensures { result ≡ on_digit w more b }
{
    if b == 32 {
        return behind_number(w);
    }
    if more {
        if is_decimal(b) {
            return Scan::Digits(w, more);
        }
        return Scan::Bad;
    }
    Scan::Bad
}

// After a number and a space: the steps if it is a refusal, else nothing.
fn behind_number(w: Word) -> Scan
    ensures { result ≡ behind_number w }
{
    match w {
        Word::Refused => Scan::Letters(Word::Steps, 0),
        Word::Strip => Scan::Bad,
        Word::Arrived => Scan::Bad,
        Word::Steps => Scan::Bad,
    }
}

fn blank_row(t: u64) -> Row
    ensures { result ≡ blank t }
{
    Row {
        moment: t,
        x: 0,
        y: 0,
        z: 0,
        vx: 0,
        vy: 0,
        vz: 0,
    }
}

fn moment_on(t: u64, b: u8) -> Scan
    ensures { result ≡ on_moment t b }
{
    if is_decimal(b) {
        if 0 < t {
            if t < TENTH {
                return Scan::Moment(10 * t + ((b - 48) as u64));
            }
            return behind(6, blank_row(t), b);
        }
        return behind(6, blank_row(t), b);
    }
    behind(6, blank_row(t), b)
}

fn behind(more: u64, row: Row, b: u8) -> Scan
    ensures { result ≡ on_behind more row b }
{
    if more == 0 {
        return Scan::Bad;
    }
    if b == 32 {
        return Scan::Component(more - 1, 15, 0, row);
    }
    Scan::Bad
}

fn push(r: Row, bits: u64) -> Row
    ensures { result ≡ pushed r bits }
{
    Row {
        moment: r.moment,
        x: r.y,
        y: r.z,
        z: r.vx,
        vx: r.vy,
        vy: r.vz,
        vz: bits,
    }
}

fn is_finite_bits(bits: u64) -> bool
    ensures { result ≡ finite_bits bits }
{
    bits % 0x8000_0000_0000_0000 < 0x7ff0_0000_0000_0000
}

fn next_hex(more: u64, left: u64, bits: u64, row: Row, b: u8) -> Scan
    ensures { result ≡ on_hex more left bits row b }
{
    let d = hex_value(b);
    if 16 <= d {
        return Scan::Bad;
    }
    let next = bits % 0x1000_0000_0000_0000 * 16 + d;
    if 0 < left {
        return Scan::Component(more, left - 1, next, row);
    }
    if is_finite_bits(next) {
        return Scan::Behind(more, push(row, next));
    }
    Scan::Bad
}

// The scan after one more byte of the line.
pub fn take_byte(scan: Scan, b: u8) -> Scan
    ensures { result ≡ on_byte scan b }
{
    match scan {
        Scan::Start => first_byte(b),
        Scan::Letters(w, i) => next_letter(w, i, b),
        Scan::Digits(w, more) => next_digit(w, more, b),
        Scan::Moment(t) => moment_on(t, b),
        Scan::Component(more, left, bits, row) => next_hex(more, left, bits, row, b),
        Scan::Behind(more, row) => behind(more, row, b),
        Scan::Bad => Scan::Bad,
    }
}

fn end_of_number(w: Word) -> Line
    ensures { result ≡ ends_as w }
{
    match w {
        Word::Strip => Line::Header,
        Word::Arrived => Line::Outcome,
        Word::Refused => Line::Lone,
        Word::Steps => Line::Outcome,
    }
}

fn end_of_row(more: u64, row: Row) -> Line
    ensures { result ≡ told (Scan.Behind more row) [] }
{
    if more == 0 {
        return Line::State(row);
    }
    Line::Bad
}

// The kind of the line, if it ends here.
pub fn line_end(scan: Scan) -> Line
    ensures { result ≡ told scan [] }
{
    match scan {
        Scan::Digits(w, _) => end_of_number(w),
        Scan::Behind(more, row) => end_of_row(more, row),
        Scan::Start => Line::Bad,
        Scan::Letters(_, _) => Line::Bad,
        Scan::Moment(_) => Line::Bad,
        Scan::Component(_, _, _, _) => Line::Bad,
        Scan::Bad => Line::Bad,
    }
}

// Whether a byte of the line has been read.
pub fn has_begun(scan: Scan) -> bool
    ensures { result ≡ begun scan }
{
    match scan {
        Scan::Start => false,
        Scan::Letters(_, _) => true,
        Scan::Digits(_, _) => true,
        Scan::Moment(_) => true,
        Scan::Component(_, _, _, _) => true,
        Scan::Behind(_, _) => true,
        Scan::Bad => true,
    }
}
