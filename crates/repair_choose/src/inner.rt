// For entries that are known to be sound; not a public call. It compares each entry only with the last kept one.
// If the entries are in order, that gives the same as the last kept of its body (proofs/OwnBody.antt:
// `last_is_enough`).

ghost use Rattle.std.specs.Prelude.{◌≡◌, ◌≤◌, length};
ghost use Rattle.repair_sort.specs.Held.{AllSound};
ghost use Rattle.repair_choose.specs.LastKept.{forward_by_last};
ghost use Rattle.repair_choose.specs.Sized.{held, Sized};

use crate::Kept;
use crate::settle::settle_one;

pub fn go_forward(
    input: &[u8],
    room: usize,
    order: &[u16],
    kept: &mut [u16],
    fates: &mut [u16],
) -> Kept
    requires le_room { (8 ≤ room) × (room ≤ 61_440) × (length order.now ≤ 2559) × (2559 ≤ length kept.old) × (2559 ≤ length fates.old) }
    requires input_len_bound { (length input.now ≤ 61_440) × AllSound input.now order.now }
    ensures sized { Sized input.now room kept.new result.count result.last result.length }
    ensures fates_after { held kept.new result.count fates.new ≡ forward_by_last input.now room (held kept.old 0 fates.old) order.now }
{
    let mut sofar = Kept {
        count: 0,
        last: 0,
        length: 8,
    };
    for &i in order {
        sofar = settle_one(input, room, kept, fates, sofar, i as usize);
    }
    sofar
}
