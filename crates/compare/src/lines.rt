// Header and outcome lines, compared whole, of any length, in blocks. `turn` of compare_lines makes the text that is
// printed.

ghost use Rattle.std.specs.Prelude.{◌≤◌, length, IfOk};

use crate::files::{END, read_at, too_large};
use crate::{Failure, Listing, any};
use compare_lines::inner::{put_absent, turn};
use compare_lines::{Line, Stage, line_of, place_of, wants_first, wants_second};
use compare_report::Part;
use std::fs::File;
use std::io;

// A block of a line from a byte of it on.
fn read_line(file: &File, line: Line, block: &mut [u8], from: u64) -> io::Result<usize>
    requires { 1 ≤ length block.old }
    ensures { IfOk result (λ n. n ≤ length block.new) }
{
    if line.there {
        return read_at(file, block, line.from.wrapping_add(from));
    }
    Ok(put_absent(block, from))
}

// The same, if it is wanted.
fn read_wanted(
    wanted: bool,
    file: &File,
    line: Line,
    block: &mut [u8],
    from: u64,
) -> io::Result<usize>
    requires { 1 ≤ length block.old }
    ensures { IfOk result (λ n. n ≤ length block.new) }
{
    if wanted {
        return read_line(file, line, block, from);
    }
    Ok(0)
}

pub fn print_bytes(rt: &impl Print, text: &[u8]) -> Result<(), Failure> {
    rt.write_all(text).map_err(Failure::Unwritten)
}

// Turn after turn. The number of turns is a limit that no line reaches. The loop needs one, because nothing else
// shows that a line ends.
pub fn print_lines(
    rt: &impl Print,
    part: Part,
    first: Listing<'_>,
    second: Listing<'_>,
) -> Result<bool, Failure> {
    let one = line_of(part, first.verdict);
    let two = line_of(part, second.verdict);
    let mut a = [0u8; 4_096];
    let mut b = [0u8; 4_096];
    let mut out = [0u8; 65_536];
    let mut stage = Stage::Comparing(0);
    let mut reported = false;
    for _ in 0..u64::MAX {
        if matches!(stage, Stage::Over) {
            return Ok(reported);
        }
        let d = place_of(stage);
        if END < d {
            return Err(Failure::FirstUnread(too_large()));
        }
        let got = read_wanted(wants_first(stage), first.file, one, &mut a, d);
        let n = got.map_err(Failure::FirstUnread)?;
        let beside = read_wanted(wants_second(stage), second.file, two, &mut b, d);
        let m = beside.map_err(Failure::SecondUnread)?;
        let t = turn(part, stage, &a[..n], &b[..m], &mut out);
        let written = t.written;
        print_bytes(rt, &out[..written])?;
        reported = any(reported, written);
        stage = t.stage;
    }
    Err(Failure::FirstUnread(too_large()))
}
