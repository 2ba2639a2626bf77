// The lines of a listing. Each function writes at a place of a caller's buffer and returns the place after it. They
// are inner functions: the caller knows that there is room.

ghost use Rattle.std.specs.Prelude.{◌+◌, ◌≤◌, length};
ghost use Rattle.text_write.specs.Written.{Wrote};
ghost use Rattle.listing_write.specs.Lines.{numbered, spaced, vector_text, header_line, state_line, arrived_line, refused_line, outcome_line_by, lone_refusal};

use base::Reason;
use run::Outcome;
use state::{State, Vector};
use text_write::inner::{put_bytes, put_decimal, put_float};

pub const LONGEST_LINE: usize = 123;

// A word, a number and the end of the line.
fn put_numbered(out: &mut [u8], at: usize, word: &[u8], n: u64) -> usize
    requires { at + length word.now + 21 ≤ length out.old }
    ensures { Wrote out.old at (numbered word.now n) out.new result }
{
    let number = put_bytes(out, at, word);
    let end = put_decimal(out, number, n);
    put_bytes(out, end, b"\n")
}

pub fn put_header(out: &mut [u8], at: usize, h: u32) -> usize
    requires { at + 123 ≤ length out.old }
    ensures { Wrote out.old at (header_line h) out.new result }
{
    put_numbered(out, at, b"STRIP ", h as u64)
}

fn put_spaced(out: &mut [u8], at: usize, x: f64) -> usize
    requires { at + 17 ≤ length out.old }
    ensures { Wrote out.old at (spaced x) out.new result }
{
    let next = put_bytes(out, at, b" ");
    put_float(out, next, x)
}

fn put_vector(out: &mut [u8], at: usize, v: Vector) -> usize
    requires { at + 51 ≤ length out.old }
    ensures { Wrote out.old at (vector_text v) out.new result }
{
    let x = put_spaced(out, at, v.x);
    let y = put_spaced(out, x, v.y);
    put_spaced(out, y, v.z)
}

pub fn put_state(out: &mut [u8], at: usize, s: State) -> usize
    requires { at + 123 ≤ length out.old }
    ensures { Wrote out.old at (state_line s) out.new result }
{
    let moment = put_decimal(out, at, s.moment);
    let position = put_vector(out, moment, state::position_of(s));
    let velocity = put_vector(out, position, state::velocity_of(s));
    put_bytes(out, velocity, b"\n")
}

fn put_arrived(out: &mut [u8], at: usize, steps: u64) -> usize
    requires { at + 123 ≤ length out.old }
    ensures { Wrote out.old at (arrived_line steps) out.new result }
{
    put_numbered(out, at, b"ARRIVED ", steps)
}

fn put_refused(out: &mut [u8], at: usize, refusal: u64, steps: u64) -> usize
    requires { at + 123 ≤ length out.old }
    ensures { Wrote out.old at (refused_line refusal steps) out.new result }
{
    let number = put_bytes(out, at, b"REFUSED ");
    let count = put_decimal(out, number, refusal);
    put_numbered(out, count, b" ", steps)
}

pub fn put_outcome<R: Reason>(out: &mut [u8], at: usize, outcome: Outcome<R>, steps: u64) -> usize
    requires { at + 123 ≤ length out.old }
    ensures { Wrote out.old at (outcome_line_by R.told outcome steps) out.new result }
{
    match outcome {
        Outcome::Arrived => put_arrived(out, at, steps),
        Outcome::Refused(refusal) => put_refused(out, at, refusal.told(), steps),
        Outcome::Going => at,
    }
}

#[tactic(auto, unfolding(crate::specs::Lines::lone_refusal))]
pub fn put_lone_refusal(out: &mut [u8], at: usize, number: u64) -> usize
    requires { at + 123 ≤ length out.old }
    ensures { Wrote out.old at (lone_refusal number) out.new result }
{
    put_numbered(out, at, b"REFUSED ", number)
}
