// For entries that are known to be sound and a book of them that fits. Not a public call.

ghost use Rattle.std.specs.Prelude.{◌≡◌, ◌≤◌, length};
ghost use Rattle.repair_sort.specs.Held.{AllSound};
ghost use Rattle.repair_write.specs.Anew.{book_length, book_anew, with_text};

use crate::blocks::write_blocks;
use crate::bytes::put_u32;
use crate::contents::write_contents;

pub fn write_book(input: &[u8], kept: &[u16], total: usize, out: &mut [u8])
    requires { AllSound input.now kept.now × (total ≡ book_length input.now kept.now) × (total ≤ 61_440) × (total ≤ length out.old) }
    ensures { out.new ≡ with_text out.old 0 (book_anew input.now kept.now) }
{
    put_u32(out, 0, total as u32);
    put_u32(out, 4, kept.len() as u32);
    write_contents(input, kept, out);
    write_blocks(input, kept, out);
}
