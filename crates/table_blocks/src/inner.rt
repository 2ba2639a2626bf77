// A table in portions that fit a caller's buffer: inner functions of the program, which knows that there is room.

ghost use Rattle.std.specs.Prelude.{◌≡◌, [], ◌∷◌, ◌+◌, ◌≤◌, ◌<◌, length, None};
ghost use Rattle.base.specs.declared.Refusal.TheVariants.{Listing};
ghost use Rattle.text_write.specs.Written.{Wrote};
ghost use Rattle.table_blocks.specs.Table.{found_refusal, found_text, at_end, no_rows, refused_by, refused_text, refusal_text};
ghost use Rattle.table_blocks.specs.Steps.{Held, Stands, Fresh, Steps, Feeds, Tabled, Ends, table_with};

use crate::feed::to_line_end;
use crate::{End, Portion, RefusedLine, Standing, Step, refusal_at};
use base::Refusal;
use listing_read::{Place, place_after, row_of};
use listing_scan::scanning::{has_begun, line_end, take_byte};
use listing_scan::{Row, Scan};
use table_rows::inner::put_row;
use text_write::inner::{put_bytes, put_decimal};

// Room for one row.
const LONGEST_ROW: usize = 157;

fn put_found(out: &mut [u8], at: usize, found: Option<Row>) -> usize
    requires found_value { found_refusal found ≡ None }
    requires at_in_bounds { at + 157 ≤ length out.old }
    ensures { Wrote out.old at (found_text found) out.new result }
{
    match found {
        Some(row) => put_row(out, at, row),
        None => at,
    }
}

// The line of that number ends.
fn end_line(out: &mut [u8], at: usize, place: Place, scan: Scan, line: u64) -> Step
    requires held { Held place line }
    requires at_in_bounds { at + 157 ≤ length out.old }
    ensures { Feeds (Standing.Going place scan line) out.old at out.new result }
{
    let kind = line_end(scan);
    let after = place_after(place, kind);
    let found = row_of(kind);
    let refusal = refusal_at(after, found);
    match refusal {
        None => Step {
            standing: Standing::Going(after, Scan::Start, line + 1),
            next: put_found(out, at, found),
        },
        Some(refusal) => Step {
            standing: Standing::Refused(RefusedLine {
                number: refusal.number(),
                line,
            }),
            next: at,
        },
    }
}

fn go_on(out: &mut [u8], at: usize, place: Place, scan: Scan, line: u64, b: u8) -> Step
    requires held { Held place line }
    requires at_in_bounds { at + 157 ≤ length out.old }
    ensures { Steps (Standing.Going place scan line) (b ∷ []) out.old at out.new result }
{
    if b == 10 {
        return end_line(out, at, place, scan, line);
    }
    Step {
        standing: Standing::Going(place, take_byte(scan, b), line),
        next: at,
    }
}

// One byte further.
fn take(out: &mut [u8], at: usize, standing: Standing, b: u8) -> Step
    requires stands { Stands standing }
    requires at_in_bounds { at + 157 ≤ length out.old }
    ensures { Steps standing (b ∷ []) out.old at out.new result }
{
    match standing {
        Standing::Going(place, scan, line) => go_on(out, at, place, scan, line, b),
        Standing::Refused(refused) => Step {
            standing: Standing::Refused(refused),
            next: at,
        },
    }
}

// The rows of the bytes of a block from a place on, while there is room for one more row.
pub fn portion(block: &[u8], from: usize, standing: Standing, out: &mut [u8]) -> Portion
    requires { Stands standing }
    ensures { Tabled block.now from standing out.old out.new result }
{
    let mut s = standing;
    let mut i = from;
    let mut at: usize = 0;
    // No `for`: a turn goes on to the next line feed.
    while i < block.len() {
        if out.len() < at + LONGEST_ROW {
            return Portion {
                standing: s,
                at: i,
                written: at,
            };
        }
        let step = take(out, at, s, block[i]);
        let behind = step.standing;
        at = step.next;
        let line = to_line_end(block, i + 1, behind);
        s = line.standing;
        i = line.at;
    }
    Portion {
        standing: s,
        at: i,
        written: at,
    }
}

// A text that ends between two lines.
fn at_end(place: Place, line: u64, next: usize) -> End
    ensures { (no_rows result.refused ≡ at_end place line) × (result.next ≡ next) }
{
    match place {
        Place::Done => End {
            refused: None,
            next,
        },
        Place::Top => missing(line, next),
        Place::First => missing(line, next),
        Place::After(_) => missing(line, next),
        Place::Off => missing(line, next),
    }
}

fn missing(line: u64, next: usize) -> End
    ensures { (no_rows result.refused ≡ refused_by Listing line) × (result.next ≡ next) }
{
    let number = Refusal::Listing.number();
    End {
        refused: Some(RefusedLine { number, line }),
        next,
    }
}

fn ended(step: Step) -> End
    requires { Fresh step.standing }
    ensures { (table_with step.standing [] ≡ no_rows result.refused) × (result.next ≡ step.next) }
{
    let standing = step.standing;
    match standing {
        Standing::Going(place, _, line) => at_end(place, line, step.next),
        Standing::Refused(refused) => End {
            refused: Some(refused),
            next: step.next,
        },
    }
}

fn finish_line(out: &mut [u8], place: Place, scan: Scan, line: u64) -> End
    requires held { Held place line }
    requires in_bounds { 157 ≤ length out.old }
    ensures { Ends (Standing.Going place scan line) out.old out.new result }
{
    if has_begun(scan) {
        return ended(end_line(out, 0, place, scan, line));
    }
    at_end(place, line, 0)
}

// The end of the text, whose last line may lack its line feed.
pub fn finish(out: &mut [u8], standing: Standing) -> End
    requires stands { Stands standing }
    requires in_bounds { 157 ≤ length out.old }
    ensures { Ends standing out.old out.new result }
{
    match standing {
        Standing::Going(place, scan, line) => finish_line(out, place, scan, line),
        Standing::Refused(refused) => End {
            refused: Some(refused),
            next: 0,
        },
    }
}

// REFUSED n LINE.
fn put_refused(out: &mut [u8], number: u64, line: u64) -> usize
    requires { 50 ≤ length out.old }
    ensures { Wrote out.old 0 (refused_text number line) out.new result }
{
    let first = put_bytes(out, 0, b"REFUSED ");
    let behind = put_decimal(out, first, number);
    let second = put_bytes(out, behind, b" ");
    let end = put_decimal(out, second, line);
    put_bytes(out, end, b"\n")
}

// The same of a refusal, or nothing.
pub fn put_refusal(out: &mut [u8], refused: Option<RefusedLine>) -> usize
    requires { 50 ≤ length out.old }
    ensures { Wrote out.old 0 (refusal_text refused) out.new result }
{
    match refused {
        Some(RefusedLine { number, line }) => put_refused(out, number, line),
        None => 0,
    }
}
