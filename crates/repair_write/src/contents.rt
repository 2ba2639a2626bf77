// The contents: each entry unchanged, except for the place of its block.

ghost use Rattle.std.specs.Prelude.{◌≡◌, ◌+◌, ◌≤◌, length};
ghost use Rattle.book.specs.Contents.{entry_at};
ghost use Rattle.repair_sort.specs.Held.{AllSound};
ghost use Rattle.repair_write.specs.Anew.{book_length, entry_anew, contents_anew, with_text};

use crate::bytes::{copy, put_u32};
use book::inner::size_of;

fn write_entry(input: &[u8], i: usize, place: usize, out: &mut [u8], at: usize)
    requires { (entry_at i + 24 ≤ length input.now) × (at + 24 ≤ length out.old) × (place ≤ 61_440) }
    ensures { out.new ≡ with_text out.old at (entry_anew input.now i place) }
{
    let entry = 8 + 24 * i;
    copy(input, entry, out, at, 4);
    put_u32(out, at + 4, place as u32);
    copy(input, entry + 8, out, at + 8, 16);
}

pub fn write_contents(input: &[u8], kept: &[u16], out: &mut [u8])
    requires { AllSound input.now kept.now × (book_length input.now kept.now ≤ 61_440) × (book_length input.now kept.now ≤ length out.old) }
    ensures { out.new ≡ with_text out.old 8 (contents_anew input.now (entry_at (length kept.now)) kept.now) }
{
    let mut place = 8 + 24 * kept.len();
    for (k, &i) in kept.iter().enumerate() {
        let i = i as usize;
        write_entry(input, i, place, out, 8 + 24 * k);
        place += 24 * size_of(input, i);
    }
}
