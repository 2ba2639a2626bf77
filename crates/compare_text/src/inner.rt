// The lines of the report, for a buffer with room for them.

ghost use Rattle.std.specs.Prelude.{◌+◌, ◌≤◌, length, Some, None};
ghost use Rattle.compare_report.specs.Report.{component, at_one, numbered, two_numbers, name, diff_line, text_of, end_text, first_refusal, refusal_text};
ghost use Rattle.compare_report.specs.Turns.{Put, only_text, differences_at};

use compare_report::Component;
use compare_steps::steps_between;
use listing_scan::Row;
use text_write::inner::{put_bytes, put_decimal};

fn put_numbered(out: &mut [u8], at: usize, word: &[u8], n: u64) -> usize
    requires { at + length word.now + 20 ≤ length out.old }
    ensures { Put out.old at (numbered word.now n) out.new result (length word.now + 20) }
{
    let number = put_bytes(out, at, word);
    put_decimal(out, number, n)
}

// A line of a word and two numbers.
fn put_two(out: &mut [u8], at: usize, word: &[u8], m: u64, n: u64) -> usize
    requires { at + length word.now + 42 ≤ length out.old }
    ensures { Put out.old at (two_numbers word.now m n) out.new result (length word.now + 42) }
{
    let second = put_numbered(out, at, word, m);
    let end = put_numbered(out, second, b" ", n);
    put_bytes(out, end, b"\n")
}

// The name of a component with the spaces around it, and its float steps.
fn put_steps(out: &mut [u8], at: usize, k: Component, n: u64) -> usize
    requires { at + 24 ≤ length out.old }
    ensures { Put out.old at (numbered (name k) n) out.new result 24 }
{
    match k {
        Component::X => put_numbered(out, at, b" x ", n),
        Component::Y => put_numbered(out, at, b" y ", n),
        Component::Z => put_numbered(out, at, b" z ", n),
        Component::VX => put_numbered(out, at, b" vx ", n),
        Component::VY => put_numbered(out, at, b" vy ", n),
        Component::VZ => put_numbered(out, at, b" vz ", n),
    }
}

fn put_diff(out: &mut [u8], at: usize, moment: u64, k: Component, n: u64) -> usize
    requires { at + 50 ≤ length out.old }
    ensures { Put out.old at (diff_line moment k n) out.new result 50 }
{
    let count = put_numbered(out, at, b"DIFF ", moment);
    let end = put_steps(out, count, k, n);
    put_bytes(out, end, b"\n")
}

// A line if the bits differ.
fn put_component(out: &mut [u8], at: usize, moment: u64, k: Component, a: u64, b: u64) -> usize
    requires { at + 50 ≤ length out.old }
    ensures { Put out.old at (text_of (component moment k a b)) out.new result 50 }
{
    if a == b {
        return at;
    }
    put_diff(out, at, moment, k, steps_between(a, b))
}

// Two states of one moment.
fn put_one(out: &mut [u8], at: usize, r: Row, s: Row) -> usize
    requires { at + 300 ≤ length out.old }
    ensures { Put out.old at (text_of (at_one r s)) out.new result 300 }
{
    let y = put_component(out, at, r.moment, Component::X, r.x, s.x);
    let z = put_component(out, y, r.moment, Component::Y, r.y, s.y);
    let vx = put_component(out, z, r.moment, Component::Z, r.z, s.z);
    let vy = put_component(out, vx, r.moment, Component::VX, r.vx, s.vx);
    let vz = put_component(out, vy, r.moment, Component::VY, r.vy, s.vy);
    put_component(out, vz, r.moment, Component::VZ, r.vz, s.vz)
}

fn put_only(out: &mut [u8], at: usize, listing: u64, moment: u64) -> usize
    requires { at + 300 ≤ length out.old }
    ensures { Put out.old at (only_text listing moment) out.new result 300 }
{
    put_two(out, at, b"ONLY ", listing, moment)
}

fn put_rows(out: &mut [u8], at: usize, r: Row, s: Row) -> usize
    requires { at + 300 ≤ length out.old }
    ensures { Put out.old at (text_of (differences_at (Some r) (Some s))) out.new result 300 }
{
    if r.moment < s.moment {
        return put_only(out, at, 1, r.moment);
    }
    if s.moment < r.moment {
        return put_only(out, at, 2, s.moment);
    }
    put_one(out, at, r, s)
}

fn put_with(out: &mut [u8], at: usize, r: Row, second: Option<Row>) -> usize
    requires { at + 300 ≤ length out.old }
    ensures { Put out.old at (text_of (differences_at (Some r) second)) out.new result 300 }
{
    match second {
        Some(s) => put_rows(out, at, r, s),
        None => put_only(out, at, 1, r.moment),
    }
}

fn put_without(out: &mut [u8], at: usize, second: Option<Row>) -> usize
    requires { at + 300 ≤ length out.old }
    ensures { Put out.old at (text_of (differences_at None second)) out.new result 300 }
{
    match second {
        Some(s) => put_only(out, at, 2, s.moment),
        None => at,
    }
}

// The report on the next state in moment order.
pub fn put_turn(out: &mut [u8], at: usize, first: Option<Row>, second: Option<Row>) -> usize
    requires { at + 300 ≤ length out.old }
    ensures { Put out.old at (text_of (differences_at first second)) out.new result 300 }
{
    match first {
        Some(row) => put_with(out, at, row, second),
        None => put_without(out, at, second),
    }
}

// For two listings, each with its line that is not of the form or 0: the first that has one, or nothing.
fn put_first_refusal(out: &mut [u8], at: usize, k: u64, line: u64, l: u64, other: u64) -> usize
    requires { at + 300 ≤ length out.old }
    ensures { Put out.old at (first_refusal k line l other) out.new result 300 }
{
    if 0 < line {
        return put_two(out, at, b"REFUSED 13 ", k, line);
    }
    if 0 < other {
        return put_two(out, at, b"REFUSED 13 ", l, other);
    }
    at
}

// The refusal, by the lines of both listings that are not of the form, or nothing.
pub fn put_refusal(out: &mut [u8], at: usize, first: u64, second: u64) -> usize
    requires { at + 300 ≤ length out.old }
    ensures { Put out.old at (refusal_text first second) out.new result 300 }
{
    put_first_refusal(out, at, 1, first, 2, second)
}

// The end of the report, by whether anything was reported.
pub fn put_end(out: &mut [u8], at: usize, reported: bool, states: u64) -> usize
    requires { at + 300 ≤ length out.old }
    ensures { Put out.old at (end_text reported states) out.new result 300 }
{
    if reported {
        return at;
    }
    let end = put_numbered(out, at, b"SAME ", states);
    put_bytes(out, end, b"\n")
}
