// What changed: total, count, order, offsets.

ghost use Rattle.std.specs.Prelude.{◌≡◌, ◌≤◌, length};
ghost use Rattle.repair_sort.specs.Held.{AllSound};
ghost use Rattle.repair_write.specs.Anew.{book_length};
ghost use Rattle.repair_book.specs.Report.{as_in_contents, offsets_stay, changed_of, report_of};

use crate::{Changed, Report};
use base_bytes::inner::u32_at;
use book::inner::{offset_of, size_of};
use repair_sort::inner::looked_at;

fn as_in_contents(kept: &[u16]) -> bool
    ensures { result ≡ as_in_contents kept.now }
{
    kept.is_sorted_by(|a, b| a < b)
}

fn offsets_stay(input: &[u8], kept: &[u16]) -> bool
    requires { AllSound input.now kept.now × (book_length input.now kept.now ≤ 61_440) }
    ensures { result ≡ offsets_stay input.now kept.now }
{
    let mut place = 8 + 24 * kept.len();
    for &i in kept {
        let i = i as usize;
        if offset_of(input, i) != place {
            return false;
        }
        place += 24 * size_of(input, i);
    }
    true
}

fn changed_from(input: &[u8], kept: &[u16], total: usize) -> Changed
    requires in_bounds { 8 ≤ length input.now }
    requires all_sound { AllSound input.now kept.now × (total ≡ book_length input.now kept.now) × (total ≤ 61_440) }
    ensures { result ≡ changed_of input.now kept.now }
{
    let stated = u32_at(input, 0) as usize;
    let count = u32_at(input, 4) as usize;
    Changed {
        total: total != stated,
        count: kept.len() != count,
        order: !as_in_contents(kept),
        offsets: !offsets_stay(input, kept),
    }
}

pub fn report(input: &[u8], kept: &[u16], total: usize) -> Report
    requires in_bounds { 8 ≤ length input.now }
    requires all_sound { AllSound input.now kept.now × (total ≡ book_length input.now kept.now) × (total ≤ 61_440) }
    ensures { result ≡ report_of input.now kept.now }
{
    Report {
        looked: looked_at(input),
        kept: kept.len(),
        written: total,
        changed: changed_from(input, kept, total),
    }
}
