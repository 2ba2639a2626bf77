// The table of a listing, made byte by byte. The first refused line decides, and the rows before it are written.

#![tactic(auto)]

mod feed;
pub mod inner;

ghost use Rattle.std.specs.Prelude.{◌≡◌};
ghost use Rattle.table_blocks.specs.Table.{state_refusal, found_refusal, refusal_at};
ghost use Rattle.table_blocks.specs.Steps.{opened};

use base::Refusal;
use listing_read::Place;
use listing_read::inner::is_off;
use listing_scan::{Row, Scan};
use table_rows::has_large;

// Why a listing is refused, as the number that is written, and the number of its line.
#[derive(Clone, Copy)]
pub struct RefusedLine {
    pub number: u64,
    pub line: u64,
}

// The stage of reading a listing: a place of the form, with a scan of the line of that number; or refused.
#[derive(Clone, Copy)]
pub enum Standing {
    Going(Place, Scan, u64),
    Refused(RefusedLine),
}

// The stage of reading, and its place in the block.
#[derive(Clone, Copy)]
pub struct Ahead {
    pub standing: Standing,
    pub at: usize,
}

// The place after what was written.
#[derive(Clone, Copy)]
pub struct Step {
    pub standing: Standing,
    pub next: usize,
}

// The bytes written, and the place in the block after them.
#[derive(Clone, Copy)]
pub struct Portion {
    pub standing: Standing,
    pub at: usize,
    pub written: usize,
}

// The refusal of a whole text, if it is refused, and the place after what was written.
#[derive(Clone, Copy)]
pub struct End {
    pub refused: Option<RefusedLine>,
    pub next: usize,
}

// Before the first byte.
pub fn opening() -> Standing
    ensures { result ≡ opened }
{
    Standing::Going(Place::Top, Scan::Start, 1)
}

fn state_refusal(row: Row) -> Option<Refusal>
    ensures { result ≡ state_refusal row }
{
    if row.moment < base::END_OF_TIME {
        if has_large(row) {
            return Some(Refusal::Large);
        }
        return None;
    }
    Some(Refusal::Listing)
}

fn found_refusal(found: Option<Row>) -> Option<Refusal>
    ensures { result ≡ found_refusal found }
{
    match found {
        Some(row) => state_refusal(row),
        None => None,
    }
}

// The refusal of a line that leads to a stage, if it is refused.
pub fn refusal_at(place: Place, found: Option<Row>) -> Option<Refusal>
    ensures { result ≡ refusal_at place found }
{
    if is_off(place) {
        return Some(Refusal::Listing);
    }
    found_refusal(found)
}
