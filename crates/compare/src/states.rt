// The states of both listings, reported as they are read.

ghost use Rattle.std.specs.Prelude.{◌≡◌, ◌≤◌, false, length, IfOk};
ghost use Rattle.compare_blocks.specs.Sides.{Shut};

use crate::files::{read_at, too_large};
use crate::lines::print_bytes;
use crate::{Failure, any};
use compare_blocks::inner::portion;
use compare_blocks::{go_on, opening};
use std::fs::File;
use std::io;

// A file of which some bytes are read; the last n of them are in its block.
#[derive(Clone, Copy)]
struct Source<'a> {
    file: &'a File,
    read: u64,
    n: usize,
}

// Reads the next block, if it is wanted.
fn refilled<'a>(wanted: bool, s: Source<'a>, block: &mut [u8]) -> io::Result<Source<'a>>
    requires { s.n ≤ length block.old }
    ensures { IfOk result (λ r. (r.n ≤ length block.new) × (wanted ≡ false → r.n ≡ s.entry.n)) }
{
    if wanted {
        let n = read_at(s.file, block, s.read)?;
        return Ok(Source {
            file: s.file,
            read: s.read.wrapping_add(n as u64),
            n,
        });
    }
    Ok(s)
}

fn unread(file: &File) -> Source<'_>
    ensures { result.n ≡ 0 }
{
    Source {
        file,
        read: 0,
        n: 0,
    }
}

// Portion after portion, with one more block whenever the report waits for one. The number of portions is a limit
// that no report reaches. The loop needs one, because nothing else shows that a file ends.
pub fn print_states(rt: &impl Print, file: &File, other: &File) -> Result<bool, Failure> {
    let mut a = [0u8; 65_536];
    let mut b = [0u8; 65_536];
    let mut out = [0u8; 65_536];
    let mut first = opening();
    let mut second = opening();
    let mut one = unread(file);
    let mut two = unread(other);
    let mut reported = false;
    for _ in 0..u64::MAX {
        let n = one.n;
        let m = two.n;
        let p = portion(&a[..n], &b[..m], first, second, &mut out);
        let written = p.written;
        print_bytes(rt, &out[..written])?;
        reported = any(reported, written);
        let halt = p.halt;
        if halt.over {
            return Ok(reported);
        }
        one = refilled(halt.first, one, &mut a).map_err(Failure::FirstUnread)?;
        two = refilled(halt.second, two, &mut b).map_err(Failure::SecondUnread)?;
        first = go_on(halt.first, p.first, one.n);
        second = go_on(halt.second, p.second, two.n);
    }
    Err(Failure::FirstUnread(too_large()))
}
