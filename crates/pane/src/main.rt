// The live pane as a program: reads lines on standard input, and writes one line for each. It keeps the last two
// states that it took. The definition `answer_to` (pane_lines) gives the answer to a line, and `line_text` (line_form)
// how it is written.

#![tactic(auto)]

ghost use Rattle.std.specs.Prelude.{◌+◌, ◌≤◌, length};

use line_form::put::Out;
use pane_lines::answer_to;
use pane_lines::inner::put_line;
use pane_live::Pane;
use std::io;
use std::io::Read;

// No line of a call has this many bytes. Of a longer line only these are kept, and it is unreadable in any case.
const LINE: usize = 1_001;

// The pane, and how many bytes of an unfinished line are kept.
#[derive(Clone, Copy)]
struct Standing {
    pane: Pane,
    kept: usize,
}

fn tell_unwritten(rt: &impl Eprint, written: io::Result<()>) {
    match written {
        Ok(()) => {}
        Err(e) => console::fail(rt, "pane: cannot write the answers", e),
    }
}

fn write_out(rt: &(impl Print + Eprint), out: &Out, n: usize)
    requires { n ≤ 65_536 }
{
    let all: &[u8] = out;
    tell_unwritten(rt, rt.write_all(&all[..n]));
}

// A place with room for an answer. If that would be past the end, everything before it is written out first.
fn with_room(rt: &(impl Print + Eprint), out: &mut Out, at: usize) -> usize
    requires { at ≤ 65_536 }
    ensures { result + 512 ≤ 65_536 }
{
    if at <= 65_024 {
        return at;
    }
    write_out(rt, out, at);
    0
}

// The pane after a line, and the place after the answer.
#[derive(Clone, Copy)]
struct Told {
    pane: Pane,
    end: usize,
}

// Adds the answer to the line's first n bytes at a place of `out`.
fn answer_line(
    rt: &(impl Print + Eprint),
    pane: Pane,
    line: &[u8],
    n: usize,
    out: &mut Out,
    at: usize,
) -> Told
    requires { (n ≤ length line.now) × (at ≤ 65_536) }
    ensures { result.end ≤ 65_536 }
{
    let from = with_room(rt, out, at);
    let told = answer_to(pane, &line[..n]);
    let after = told.pane;
    let answer = told.answer;
    let end = put_line(out, from, answer);
    Told { pane: after, end }
}

// Answers the lines that end in the block. The rest of the block stays in `line`.
fn answer_block(
    rt: &(impl Print + Eprint),
    from: Standing,
    block: &[u8],
    line: &mut [u8; LINE],
) -> Standing
    requires { from.kept ≤ 1_001 }
    ensures { result.kept ≤ 1_001 }
{
    let mut out = [0u8; 65536];
    let mut at = 0;
    let mut pane = from.pane;
    let mut n = from.kept;
    for &byte in block {
        if byte == b'\n' {
            let told = answer_line(rt, pane, line, n, &mut out, at);
            pane = told.pane;
            at = told.end;
            n = 0;
        } else if n < LINE {
            line[n] = byte;
            n += 1;
        }
    }
    write_out(rt, &out, at);
    Standing { pane, kept: n }
}

// The number of blocks is a limit that no input reaches. The loop needs one, because nothing else shows that the
// input ends.
fn answer_all(rt: &(impl Input + Print + Eprint)) {
    let mut input = rt.reader();
    let mut block = [0u8; 65536];
    let mut line = [0u8; LINE];
    let mut standing = Standing {
        pane: pane_live::clear(),
        kept: 0,
    };
    for _ in 0..u64::MAX {
        let n = match input.read(&mut block) {
            Ok(n) => n,
            Err(e) => {
                console::fail(rt, "pane: cannot read standard input", e);
                0
            }
        };
        if n == 0 {
            break;
        }
        standing = answer_block(rt, standing, &block[..n], &mut line);
    }
    if 0 < standing.kept {
        answer_block(rt, standing, b"\n", &mut line);
    }
}

fn main(rt: HostRuntime) {
    if console::has_argument(&rt, 1) {
        let _ = eprintln!(rt; "use: pane < LINES");
        return;
    }
    answer_all(&rt);
}
