// The reasons that follow from the bytes of the entry itself.

ghost use Rattle.std.specs.Prelude.{◌≡◌, ◌+◌, ◌≤◌, length};
ghost use Rattle.book.specs.Contents.{entry_at};
ghost use Rattle.repair_sort.specs.Reasons.{first_reason};

use crate::{BLOCK, COEFFICIENT, FIELDS};
use book::inner::{fields_allowed, floats_finite, offset_of, size_of};

// An entry that has none of these reasons.
pub const GOES_ON: u16 = 3_000;

pub fn reason(input: &[u8], i: usize) -> u16
    requires { entry_at i + 24 ≤ length input.now }
    ensures { result ≡ first_reason input.now i }
{
    if !fields_allowed(input, i) {
        return FIELDS;
    }
    let n = size_of(input, i);
    let offset = offset_of(input, i);
    if input.len() < offset + 24 * n {
        return BLOCK;
    }
    if floats_finite(input, offset, 3 * n) {
        GOES_ON
    } else {
        COEFFICIENT
    }
}
