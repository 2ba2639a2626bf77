// A portion of the report: inner functions of the program. It knows that a text that is over has no more bytes in its
// block.

ghost use Rattle.std.specs.Prelude.{true, ◌≡◌, length};
ghost use Rattle.compare_blocks.specs.Sides.{waiting, Fills, waits_for, stops, halt_of, leaving, Shut, Reported, portion_of};

use crate::{Halt, Portion, Reading};
use compare_report::side_of;
use compare_text::inner::put_turn;
use listing_read::next_row;
use listing_scan::Row;

// Room for what is reported of one moment.
const LONGEST_TURN: usize = 300;

// Whether more of the listing must be read before its next state is known.
fn waits(r: Reading) -> bool
    ensures { result ≡ waiting r }
{
    !r.over && r.found.is_none()
}

fn searched(block: &[u8], r: Reading) -> Reading
    requires { waiting r ≡ true }
    ensures { Fills block.now r result }
{
    let scan = r.scan;
    let next = next_row(block, r.at, scan);
    let found = next.found;
    let behind = next.scan;
    Reading {
        found,
        scan: behind,
        at: next.at,
        over: r.over,
    }
}

// Looks for the next state, if it is not known.
fn filled(block: &[u8], r: Reading) -> Reading
    ensures { Fills block.now r result }
{
    if waits(r) {
        return searched(block, r);
    }
    r
}

fn wait_for(first: bool, second: bool, over: bool) -> Halt
    ensures { result ≡ waits_for first second over }
{
    Halt {
        first,
        second,
        over,
    }
}

fn does_stop(h: Halt) -> bool
    ensures { result ≡ stops h }
{
    if h.first {
        return true;
    }
    if h.second {
        return true;
    }
    h.over
}

fn halt_of(first: Reading, second: Reading) -> Halt
    ensures { result ≡ halt_of first second }
{
    if waits(first) {
        return wait_for(true, false, false);
    }
    if waits(second) {
        return wait_for(false, true, false);
    }
    let f = first.found;
    let g = second.found;
    let side = side_of(f, g);
    if side.first {
        return wait_for(false, false, false);
    }
    if side.second {
        return wait_for(false, false, false);
    }
    wait_for(false, false, true)
}

// The next state is done, if it was reported.
fn leave(r: Reading, reported: bool) -> Reading
    ensures { result ≡ leaving reported r }
{
    if reported {
        let scan = r.scan;
        return Reading {
            found: None,
            scan,
            at: r.at,
            over: r.over,
        };
    }
    r
}

fn portion_of(first: Reading, second: Reading, written: usize, halt: Halt) -> Portion
    ensures { result ≡ portion_of first second written halt }
{
    Portion {
        first,
        second,
        written,
        halt,
    }
}

// The report on the states in two blocks, moment by moment, while there is room for one moment more.
pub fn portion(a: &[u8], b: &[u8], from: Reading, beside: Reading, out: &mut [u8]) -> Portion
    requires shut { Shut (length a.now) from }
    requires shut_2 { Shut (length b.now) beside }
    ensures { Reported a.now b.now from beside out.old out.new result }
{
    let mut first = from;
    let mut second = beside;
    let mut at: usize = 0;
    // A turn writes as many bytes as it has to report, so there is no count to go over.
    while at + LONGEST_TURN <= out.len() {
        first = filled(a, first);
        second = filled(b, second);
        let halt = halt_of(first, second);
        if does_stop(halt) {
            return portion_of(first, second, at, halt);
        }
        let f = first.found;
        let g = second.found;
        at = put_turn(out, at, f, g);
        let side = side_of(f, g);
        first = leave(first, side.first);
        second = leave(second, side.second);
    }
    portion_of(first, second, at, wait_for(false, false, false))
}
