// The blocks, one after the other: the bytes of the input.

ghost use Rattle.std.specs.Prelude.{◌≡◌, ◌≤◌, length};
ghost use Rattle.book.specs.Contents.{entry_at};
ghost use Rattle.repair_sort.specs.Held.{AllSound};
ghost use Rattle.repair_write.specs.Anew.{book_length, blocks_anew, with_text};

use crate::bytes::copy;
use book::inner::{offset_of, size_of};

pub fn write_blocks(input: &[u8], kept: &[u16], out: &mut [u8])
    requires { AllSound input.now kept.now × (book_length input.now kept.now ≤ 61_440) × (book_length input.now kept.now ≤ length out.old) }
    ensures { out.new ≡ with_text out.old (entry_at (length kept.now)) (blocks_anew input.now kept.now) }
{
    let mut place = 8 + 24 * kept.len();
    for &i in kept {
        let i = i as usize;
        let size = 24 * size_of(input, i);
        copy(input, offset_of(input, i), out, place, size);
        place += size;
    }
}
