// Two listings read side by side, a block of each: the report on their states, in portions that fit a caller's
// buffer.

#![tactic(auto)]

pub mod inner;

ghost use Rattle.std.specs.Prelude.{◌≡◌};
ghost use Rattle.compare_blocks.specs.Sides.{opened, onward, going_on};

use listing_read::last_row;
use listing_scan::{Row, Scan};

// The stage of reading a listing: the next state, if it is known; how far its line is read; the place in its block.
// Also whether the text is over: then no state follows the next.
#[derive(Clone, Copy)]
pub struct Reading {
    pub found: Option<Row>,
    pub scan: Scan,
    pub at: usize,
    pub over: bool,
}

// What the report waits for: more of the first listing, or of the second; or it is over. Otherwise it continues.
#[derive(Clone, Copy)]
pub struct Halt {
    pub first: bool,
    pub second: bool,
    pub over: bool,
}

// The bytes written, both readings after them, and why no more is written.
#[derive(Clone, Copy)]
pub struct Portion {
    pub first: Reading,
    pub second: Reading,
    pub written: usize,
    pub halt: Halt,
}

// Before the first block.
pub fn opening() -> Reading
    ensures { result ≡ opened }
{
    Reading {
        found: None,
        scan: Scan::Start,
        at: 0,
        over: false,
    }
}

// A reading that waits, before its next block, of that many bytes. 0 means the end of the text.
fn next_block(r: Reading, n: usize) -> Reading
    ensures { result ≡ onward r n }
{
    let scan = r.scan;
    if 0 < n {
        return Reading {
            found: None,
            scan,
            at: 0,
            over: false,
        };
    }
    Reading {
        found: last_row(scan),
        scan: Scan::Start,
        at: 0,
        over: true,
    }
}

// A reading whose next block was read, if it was wanted.
pub fn go_on(wanted: bool, r: Reading, n: usize) -> Reading
    ensures { result ≡ going_on wanted r n }
{
    if wanted {
        return next_block(r, n);
    }
    r
}
