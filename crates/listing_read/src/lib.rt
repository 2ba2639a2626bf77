// The reader of listings: the judgement of their lines, block by block.

#![tactic(auto)]

pub mod feed;
pub mod inner;

ghost use Rattle.std.specs.Prelude.{◌≡◌, []};
ghost use Rattle.listing_read.specs.Form.{row_of, later, after_top, after_header, after_state, placed};
ghost use Rattle.listing_scan.specs.Bytes.{told};
ghost use Rattle.listing_read.specs.Bytes.{at_top, row_here, behind_byte, next_row};

use feed::to_feed;
use listing_scan::scanning::{line_end, take_byte};
use listing_scan::{Line, Row, Scan};

// The stage of reading a listing: before its first line, after the header, after a state of that moment, after the
// outcome, or not of the form.
#[derive(Clone, Copy)]
pub enum Place {
    Top,
    First,
    After(u64),
    Done,
    Off,
}

// A listing after some of its bytes: the stage and the scan, the number of the line being read, the states and the
// bytes so far. Also where the line being read and the last one before it start.
#[derive(Clone, Copy)]
pub struct Judge {
    pub place: Place,
    pub scan: Scan,
    pub line: u64,
    pub rows: u64,
    pub read: u64,
    pub from: u64,
    pub last: u64,
}

// A reading, and its place in the block.
#[derive(Clone, Copy)]
pub struct Judged {
    pub judge: Judge,
    pub at: usize,
}

// The line that is not of the form, or 0; the states; and where the last line starts.
#[derive(Clone, Copy)]
pub struct Verdict {
    pub refusal: u64,
    pub rows: u64,
    pub outcome: u64,
}

// What was found in a block, and where to go on.
#[derive(Clone, Copy)]
pub struct Next {
    pub found: Option<Row>,
    pub scan: Scan,
    pub at: usize,
}

// What is known of a line up to its line feed or the end of the block, with that place.
#[derive(Clone, Copy)]
pub struct Reached {
    pub scan: Scan,
    pub at: usize,
}

// The stage after one more line.
pub fn place_after(place: Place, line: Line) -> Place
    ensures { result ≡ placed place line }
{
    match place {
        Place::Top => after_top(line),
        Place::First => after_header(line),
        Place::After(t) => after_state(t, line),
        Place::Done => Place::Off,
        Place::Off => Place::Off,
    }
}

fn after_top(line: Line) -> Place
    ensures { result ≡ after_top line }
{
    match line {
        Line::Header => Place::First,
        Line::Lone => Place::Done,
        Line::State(_) => Place::Off,
        Line::Outcome => Place::Off,
        Line::Bad => Place::Off,
    }
}

fn after_header(line: Line) -> Place
    ensures { result ≡ after_header line }
{
    match row_of(line) {
        Some(row) => Place::After(row.moment),
        None => Place::Off,
    }
}

fn after_state(t: u64, line: Line) -> Place
    ensures { result ≡ after_state t line }
{
    match line {
        Line::State(row) => place_later(t, row.moment),
        Line::Outcome => Place::Done,
        Line::Header => Place::Off,
        Line::Lone => Place::Off,
        Line::Bad => Place::Off,
    }
}

// "whose moments do not rise" is not of the form.
fn place_later(t: u64, moment: u64) -> Place
    ensures { result ≡ later t moment }
{
    if t < moment {
        return Place::After(moment);
    }
    Place::Off
}

pub fn top() -> Judge
    ensures { result ≡ at_top }
{
    Judge {
        place: Place::Top,
        scan: Scan::Start,
        line: 1,
        rows: 0,
        read: 0,
        from: 0,
        last: 0,
    }
}

// The state whose line a byte ends, if it is a line feed.
fn row_here(scan: Scan, b: u8) -> Option<Row>
    ensures { result ≡ row_here scan b }
{
    if b == 10 {
        return last_row(scan);
    }
    None
}

// The state whose line ends here.
pub fn last_row(scan: Scan) -> Option<Row>
    ensures { result ≡ row_of (told scan []) }
{
    row_of(line_end(scan))
}

pub fn row_of(line: Line) -> Option<Row>
    ensures { result ≡ row_of line }
{
    match line {
        Line::State(row) => Some(row),
        Line::Header => None,
        Line::Outcome => None,
        Line::Lone => None,
        Line::Bad => None,
    }
}

// After one more byte: a line feed starts a new line.
fn after_byte(scan: Scan, b: u8) -> Scan
    ensures { result ≡ behind_byte scan b }
{
    if b == 10 {
        return Scan::Start;
    }
    take_byte(scan, b)
}

// The next state in the block from a place on.
pub fn next_row(block: &[u8], at: usize, scan: Scan) -> Next
    ensures { result ≡ next_row block.now at scan }
{
    let first = to_feed(block, at, scan);
    let mut s = first.scan;
    let mut i = first.at;
    // No `for`: a turn goes on to the next line feed.
    while i < block.len() {
        let b = block[i];
        let found = row_here(s, b);
        let behind = after_byte(s, b);
        i += 1;
        if let Some(row) = found {
            return Next {
                found: Some(row),
                scan: behind,
                at: i,
            };
        }
        let next = to_feed(block, i, behind);
        s = next.scan;
        i = next.at;
    }
    Next {
        found: None,
        scan: s,
        at: i,
    }
}
