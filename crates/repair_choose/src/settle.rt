// One more entry: dropped for overlap, dropped for room, or kept under the next number.

ghost use Rattle.std.specs.Prelude.{◌≡◌, ◌+◌, ◌<◌, ◌≤◌, length};
ghost use Rattle.book.specs.Passes.{overlaps};
ghost use Rattle.repair_sort.specs.Held.{Sound};
ghost use Rattle.repair_choose.specs.LastKept.{settle_by_last};
ghost use Rattle.repair_choose.specs.Sized.{held, Sized, overlaps_at};

use crate::Kept;
use base_bytes::inner::{u16_at, u64_at};
use book::inner::size_of;
use repair_sort::{OVERLAP, ROOM};

// For two entries with allowed fields: s + L does not wrap.
fn overlap(input: &[u8], i: usize, j: usize) -> bool
    requires { Sound input.now i × Sound input.now j }
    ensures { result ≡ overlaps input.now i j }
{
    let entry = 8 + 24 * i;
    let other = 8 + 24 * j;
    if u16_at(input, entry) == u16_at(input, other) {
        let start = u64_at(input, entry + 8);
        let other_start = u64_at(input, other + 8);
        if start < other_start + u64_at(input, other + 16) {
            return other_start < start + u64_at(input, entry + 16);
        }
    }
    false
}

// Whether entry i overlaps the last of `count` entries, if there is one.
fn overlaps_last(input: &[u8], count: usize, last: usize, i: usize) -> bool
    requires { Sound input.now i × (0 < count → Sound input.now last) }
    ensures { result ≡ overlaps_at input.now count last i }
{
    if count == 0 {
        return false;
    }
    overlap(input, last, i)
}

pub fn settle_one(
    input: &[u8],
    room: usize,
    kept: &mut [u16],
    fates: &mut [u16],
    sofar: Kept,
    i: usize,
) -> Kept
    requires count_in_bounds { (sofar.count < length kept.old) × (sofar.count < 2559) × (i < length fates.old) × (i < 2559) × (room ≤ 61_440) × Sound input.now i }
    requires sized { Sized input.now room kept.old sofar.count sofar.last sofar.length }
    ensures sized_2 { Sized input.now room kept.new result.count result.last result.length × (result.count ≤ sofar.count + 1) }
    ensures fates_after { held kept.new result.count fates.new ≡ settle_by_last input.now room (held kept.old sofar.count fates.old) i }
{
    let count = sofar.count;
    let length = sofar.length;
    let overlaps = overlaps_last(input, count, sofar.last, i);
    let longer = length + 24 + 24 * size_of(input, i);
    let full = room < longer;
    if overlaps {
        fates[i] = OVERLAP;
        return sofar;
    }
    if full {
        fates[i] = ROOM;
        sofar
    } else {
        kept[count] = i as u16;
        fates[i] = count as u16;
        Kept {
            count: count + 1,
            last: i,
            length: longer,
        }
    }
}
