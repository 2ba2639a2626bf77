// A turn of the report on two lines, for a buffer with room for a block and the words around it.

ghost use Rattle.std.specs.Prelude.{◌≡◌, ◌+◌, ◌≤◌, length};
ghost use Rattle.text_write.specs.Written.{Wrote};
ghost use Rattle.compare_lines.specs.Stages.{line_ends, both_end, used_up, likeness, absent_from, word_of, line_text, after_first, after_second, Room, Turned};

use crate::{Likeness, Stage, Turn};
use compare_report::Part;
use compare_report::same::line_length;
use text_write::inner::put_bytes;

// Whether a line ends in a block of it: at a line feed, or at the end of the text, where the block is empty.
fn line_ends(block: &[u8]) -> bool
    ensures { result ≡ line_ends block.now }
{
    if line_length(block) < block.len() {
        return true;
    }
    block.len() == 0
}

fn both_end(a: &[u8], b: &[u8]) -> bool
    ensures { result ≡ both_end a.now b.now }
{
    if line_length(a) == 0 {
        return line_length(b) == 0;
    }
    false
}

// One of the blocks has no more than i bytes, and these are the same in both.
fn used_up(a: &[u8], b: &[u8], i: usize) -> Likeness
    ensures { result ≡ used_up i a.now b.now }
{
    if 0 < i {
        return Likeness::SoFar(i);
    }
    if both_end(a, b) {
        return Likeness::Same;
    }
    Likeness::Differ
}

fn compare_blocks(a: &[u8], b: &[u8]) -> Likeness
    ensures { result ≡ likeness 0 a.now b.now }
{
    for (&x, &y) in a.iter().zip(b) {
        if x != y {
            return Likeness::Differ;
        }
        if x == b'\n' {
            return Likeness::Same;
        }
    }
    used_up(a, b, a.len().min(b.len()))
}

// The block of a header that is not there, from one of its bytes on: - and then nothing.
pub fn put_absent(out: &mut [u8], from: u64) -> usize
    requires { 1 ≤ length out.old }
    ensures { Wrote out.old 0 (absent_from from) out.new result }
{
    if 0 < from {
        return 0;
    }
    put_bytes(out, 0, b"-")
}

fn put_word(out: &mut [u8], part: Part) -> usize
    requires { 8 ≤ length out.old }
    ensures { Wrote out.old 0 (word_of part) out.new result }
{
    match part {
        Part::Header => put_bytes(out, 0, b"HEADER "),
        Part::States => put_bytes(out, 0, b"OUTCOME "),
        Part::Outcome => put_bytes(out, 0, b"OUTCOME "),
        Part::End => put_bytes(out, 0, b"OUTCOME "),
        Part::Over => put_bytes(out, 0, b"OUTCOME "),
    }
}

// The bytes of a line in a block, and a text after them if the line ends there.
fn put_line(out: &mut [u8], block: &[u8], behind: &[u8]) -> usize
    requires { length block.now + length behind.now ≤ length out.old }
    ensures { Wrote out.old 0 (line_text block.now behind.now) out.new result }
{
    let n = line_length(block);
    let end = put_bytes(out, 0, &block[..n]);
    if line_ends(block) {
        return put_bytes(out, end, behind);
    }
    end
}

fn compare_turn(part: Part, d: u64, a: &[u8], b: &[u8], out: &mut [u8]) -> Turn
    requires { (d + length a.now ≤ 0xffff_ffff_ffff_ffff) × (8 ≤ length out.old) }
    ensures { Turned part (Stage.Comparing d) a.now b.now out.old out.new result }
{
    match compare_blocks(a, b) {
        Likeness::Same => Turn {
            stage: Stage::Over,
            written: 0,
        },
        Likeness::Differ => Turn {
            stage: Stage::First(0),
            written: put_word(out, part),
        },
        Likeness::SoFar(k) => Turn {
            stage: Stage::Comparing(d + (k as u64)),
            written: 0,
        },
    }
}

fn after_first(d: u64, a: &[u8]) -> Stage
    requires { d + length a.now ≤ 0xffff_ffff_ffff_ffff }
    ensures { result ≡ after_first d a.now }
{
    if line_ends(a) {
        return Stage::Second(0);
    }
    Stage::First(d + (a.len() as u64))
}

fn after_second(d: u64, b: &[u8]) -> Stage
    requires { d + length b.now ≤ 0xffff_ffff_ffff_ffff }
    ensures { result ≡ after_second d b.now }
{
    if line_ends(b) {
        return Stage::Over;
    }
    Stage::Second(d + (b.len() as u64))
}

fn first_turn(part: Part, d: u64, a: &[u8], b: &[u8], out: &mut [u8]) -> Turn
    requires { (d + length a.now ≤ 0xffff_ffff_ffff_ffff) × (length a.now + 3 ≤ length out.old) }
    ensures { Turned part (Stage.First d) a.now b.now out.old out.new result }
{
    let stage = after_first(d, a);
    Turn {
        stage,
        written: put_line(out, a, b" | "),
    }
}

fn second_turn(part: Part, d: u64, a: &[u8], b: &[u8], out: &mut [u8]) -> Turn
    requires { (d + length b.now ≤ 0xffff_ffff_ffff_ffff) × (length b.now + 1 ≤ length out.old) }
    ensures { Turned part (Stage.Second d) a.now b.now out.old out.new result }
{
    let stage = after_second(d, b);
    Turn {
        stage,
        written: put_line(out, b, b"\n"),
    }
}

// One turn. The blocks that the stage wants are those of the two lines from its place on.
pub fn turn(part: Part, stage: Stage, a: &[u8], b: &[u8], out: &mut [u8]) -> Turn
    requires { Room stage (length a.now) (length b.now) (length out.old) }
    ensures { Turned part stage a.now b.now out.old out.new result }
{
    match stage {
        Stage::Comparing(d) => compare_turn(part, d, a, b, out),
        Stage::First(d) => first_turn(part, d, a, b, out),
        Stage::Second(d) => second_turn(part, d, a, b, out),
        Stage::Over => Turn {
            stage: Stage::Over,
            written: 0,
        },
    }
}
