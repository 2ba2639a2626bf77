// A listing in blocks, short enough that its bytes can be counted. These are inner functions of the programs.

ghost use Rattle.std.specs.Prelude.{◌≡◌, [], ◌+◌, ◌-◌, ◌<◌, ◌≤◌, length};
ghost use Rattle.listing_read.specs.Form.{is_off, missing};
ghost use Rattle.listing_read.specs.Reached.{read_on, judged_line};
ghost use Rattle.listing_read.specs.Bytes.{line_after, rows_after, line_ended, Counted, Goes, closed, verdict_of};

use crate::feed::to_feed;
use crate::{Judge, Judged, Place, Reached, Verdict, place_after};
use listing_scan::scanning::{has_begun, line_end};
use listing_scan::{Line, Scan};

pub fn is_off(place: Place) -> bool
    ensures { result ≡ is_off place }
{
    match place {
        Place::Off => true,
        Place::Top => false,
        Place::First => false,
        Place::After(_) => false,
        Place::Done => false,
    }
}

// One more if the listing is still of the form.
fn line_after(place: Place, line: u64) -> u64
    requires { line + 1 < 0x1_0000_0000_0000_0000 }
    ensures { result ≡ line_after place line }
{
    if is_off(place) { line } else { line + 1 }
}

fn rows_after(line: Line, rows: u64) -> u64
    requires { rows + 1 < 0x1_0000_0000_0000_0000 }
    ensures { result ≡ rows_after line rows }
{
    match line {
        Line::State(_) => rows + 1,
        Line::Header => rows,
        Line::Outcome => rows,
        Line::Lone => rows,
        Line::Bad => rows,
    }
}

// The line that is being read ends, and the next starts at a place.
fn end_line(j: Judge, next: u64) -> Judge
    requires { (j.line + 1 < 0x1_0000_0000_0000_0000) × (j.rows + 1 < 0x1_0000_0000_0000_0000) }
    ensures { result ≡ line_ended j next }
{
    let scan = j.scan;
    let line = line_end(scan);
    let before = j.place;
    let place = place_after(before, line);
    Judge {
        place,
        scan: Scan::Start,
        line: line_after(place, j.line),
        rows: rows_after(line, j.rows),
        read: next,
        from: next,
        last: j.from,
    }
}

// The reading, advanced inside its line.
fn read_on(j: Judge, line: Reached, at: usize) -> Judge
    requires at_le_at { at ≤ line.at }
    requires at_bound { j.read + (line.at - at) < 0x1_0000_0000_0000_0000 }
    ensures { result ≡ read_on j line at }
{
    let scan = line.scan;
    let place = j.place;
    Judge {
        place,
        scan,
        line: j.line,
        rows: j.rows,
        read: j.read + ((line.at - at) as u64),
        from: j.from,
        last: j.last,
    }
}

// The reading after the next line feed, or at the end of the block.
fn judge_line(j: Judge, block: &[u8], at: usize) -> Judged
    requires counted { Counted j }
    requires at_in_bounds { at ≤ length block.now }
    requires at_bound { j.read + (length block.now - at) + 2 < 0x1_0000_0000_0000_0000 }
    ensures { result ≡ judged_line block.now at j }
{
    let scan = j.scan;
    let line = to_feed(block, at, scan);
    let judge = read_on(j, line, at);
    if line.at < block.len() {
        return Judged {
            judge: end_line(judge, judge.read + 1),
            at: line.at + 1,
        };
    }
    Judged { judge, at: line.at }
}

// Reads one more block.
pub fn judge_block(from: Judge, block: &[u8]) -> Judge
    requires counted { Counted from }
    requires block_bound { from.read + length block.now + 2 < 0x1_0000_0000_0000_0000 }
    ensures { Goes from block.now result }
{
    let mut j = from;
    let mut i = 0;
    // No `for`: a turn reads a whole line, so i goes to the place after it.
    while i < block.len() {
        let line = judge_line(j, block, i);
        j = line.judge;
        i = line.at;
    }
    j
}

fn missing_line(place: Place, line: u64) -> u64
    ensures { result ≡ missing place line }
{
    match place {
        Place::Done => 0,
        Place::Top => line,
        Place::First => line,
        Place::After(_) => line,
        Place::Off => line,
    }
}

fn closed_verdict(j: Judge) -> Verdict
    ensures { result ≡ closed j }
{
    let place = j.place;
    Verdict {
        refusal: missing_line(place, j.line),
        rows: j.rows,
        outcome: j.last,
    }
}

// The verdict at the end of the text, whose last line may lack its line feed.
pub fn verdict(j: Judge) -> Verdict
    requires counted { Counted j }
    requires read_bound { j.read + 2 < 0x1_0000_0000_0000_0000 }
    ensures { result ≡ verdict_of j [] }
{
    let scan = j.scan;
    if has_begun(scan) {
        return closed_verdict(end_line(j, j.read));
    }
    closed_verdict(j)
}
