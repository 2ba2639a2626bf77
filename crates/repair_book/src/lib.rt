// Saves what can be saved of a damaged book: writes one that passes, from the entries that can be kept, and reports.

#![tactic(auto)]

mod marks;

ghost use Rattle.std.specs.Prelude.{◌≡◌, ◌≤◌, length};
ghost use Rattle.repair_choose.specs.Sized.{held, Sized};
ghost use Rattle.repair_book.specs.Repaired.{repair_checks, room_of, repaired, outcome_of, mended, repair_outcome};

use base::{Refusal, require};
use book::LONGEST_BOOK;
use marks::report;
use repair_choose::Kept;
use repair_choose::inner::go_forward;
use repair_sort::inner::{looked_at, put_in_order};
use repair_write::inner::write_book;

// As many as the longest book can have in its contents.
pub const MOST_ENTRIES: usize = repair_sort::MOST_ENTRIES;

// Fates: the fate of a kept entry is its new number, which is below MOST_ENTRIES.
pub const FIELDS: u16 = repair_sort::FIELDS;

pub const BLOCK: u16 = repair_sort::BLOCK;

pub const COEFFICIENT: u16 = repair_sort::COEFFICIENT;

pub const OVERLAP: u16 = repair_sort::OVERLAP;

pub const ROOM: u16 = repair_sort::ROOM;

#[derive(Clone, Copy)]
pub struct Changed {
    pub total: bool,
    pub count: bool,
    pub order: bool,
    pub offsets: bool,
}

#[derive(Clone, Copy)]
pub struct Report {
    // Entries looked at: the number of fates written.
    pub looked: usize,
    pub kept: usize,
    // Bytes of the book written.
    pub written: usize,
    pub changed: Changed,
}

fn checks(input: usize, output: usize) -> Result<(), Refusal>
    ensures { result ≡ repair_checks input output }
{
    require(8 <= input && 8 <= output, Refusal::Short)?;
    require(input <= LONGEST_BOOK, Refusal::Book)
}

fn room_of(output: usize) -> usize
    ensures { result ≡ room_of output }
{
    if output < LONGEST_BOOK {
        output
    } else {
        LONGEST_BOOK
    }
}

// Chooses the entries to keep, and writes the fates of all. `order` and `kept` are room for entry numbers.
fn choose(input: &[u8], room: usize, fates: &mut [u16], order: &mut [u16], kept: &mut [u16]) -> Kept
    requires in_bounds { (8 ≤ length input.now) × (length input.now ≤ 61_440) × (8 ≤ room) × (room ≤ 61_440) }
    requires in_bounds_2 { (2559 ≤ length fates.old) × (2559 ≤ length order.old) × (2559 ≤ length kept.old) }
    ensures sized { Sized input.now room kept.new result.count result.last result.length }
    ensures fates_after { held kept.new result.count fates.new ≡ repaired input.now room fates.old }
{
    let going = put_in_order(input, looked_at(input), order, fates);
    go_forward(input, room, &order[..going], kept, fates)
}

fn mend_by(
    input: &[u8],
    output: &mut [u8],
    fates: &mut [u16],
    order: &mut [u16],
    kept: &mut [u16],
) -> Report
    requires in_bounds { (8 ≤ length input.now) × (length input.now ≤ 61_440) × (8 ≤ length output.old) }
    requires in_bounds_2 { (2559 ≤ length fates.old) × (2559 ≤ length order.old) × (2559 ≤ length kept.old) }
    ensures { outcome_of (Ok result) output.new fates.new ≡ mended input.now output.old fates.old }
{
    let chosen = choose(input, room_of(output.len()), fates, order, kept);
    let count = chosen.count;
    write_book(input, &kept[..count], chosen.length, output);
    report(input, &kept[..count], chosen.length)
}

fn mend(input: &[u8], output: &mut [u8], fates: &mut [u16]) -> Report
    requires in_bounds { (8 ≤ length input.now) × (length input.now ≤ 61_440) × (8 ≤ length output.old) }
    requires in_bounds_2 { 2559 ≤ length fates.old }
    ensures { outcome_of (Ok result) output.new fates.new ≡ mended input.now output.old fates.old }
{
    let mut order = [0u16; MOST_ENTRIES];
    let mut kept = [0u16; MOST_ENTRIES];
    mend_by(input, output, fates, &mut order, &mut kept)
}

#[tactic(auto, unfolding(crate::specs::Repaired::repair_answer, crate::specs::Repaired::output_after, crate::specs::Repaired::fates_after))]
pub fn repair(
    input: &[u8],
    output: &mut [u8],
    fates: &mut [u16; MOST_ENTRIES],
) -> Result<Report, Refusal>
    ensures { outcome_of result output.new fates.new ≡ repair_outcome input.now output.old fates.old }
{
    checks(input.len(), output.len())?;
    Ok(mend(input, output, fates))
}
