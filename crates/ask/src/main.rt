// The program ask: reads calls on standard input, one on each line, and writes one line for each. Its argument names
// the file of the book. Without one the book has no bytes. The text that it writes for a line is the definition
// `answer_text`.

#![tactic(auto)]

ghost use Rattle.std.specs.Prelude.{◌+◌, ◌≤◌, length, IfOk};
ghost use Rattle.line_form.specs.Spelled.{Puts};
ghost use Rattle.ask.specs.Text.{answer_text};

use line_answers::answer_to;
use line_form::put::Out;
use line_texts::inner::put_line;
use std::fs::File;
use std::io;
use std::io::Read;
use std::rt::Files;

// One byte more than a book may have: enough to refuse a longer one.
const BOOK: usize = book::LONGEST_BOOK + 1;

// No call has this many bytes. Of a longer line only these are kept, and it is unreadable in any case.
const LINE: usize = 1_001;

// Prints on standard error that a file cannot be read, and why.
fn tell_unread(rt: &impl Eprint, name: &str, error: io::Error) {
    let _ = eprint!(rt; "ask: cannot read ");
    console::fail(rt, name, error);
}

fn tell_unwritten(rt: &impl Eprint, written: io::Result<()>) {
    match written {
        Ok(()) => {}
        Err(e) => console::fail(rt, "ask: cannot write the answers", e),
    }
}

fn write_out(rt: &(impl Print + Eprint), out: &Out, n: usize)
    requires { n ≤ 65_536 }
{
    let all: &[u8] = out;
    tell_unwritten(rt, rt.write_all(&all[..n]));
}

// A place with room for an answer. If that would be past the end, everything before it is written out first.
fn with_room(rt: &(impl Print + Eprint), out: &mut Out, at: usize) -> usize
    requires { at ≤ 65_536 }
    ensures { result + 512 ≤ 65_536 }
{
    if at <= 65_024 {
        return at;
    }
    write_out(rt, out, at);
    0
}

// The line that answers a line, and the place behind it.
fn put_answer(book: &[u8], line: &[u8], out: &mut Out, at: usize) -> usize
    requires { at + 512 ≤ 65_536 }
    ensures { Puts out.old at (answer_text book.now line.now) out.new 1 512 result }
{
    put_line(out, at, answer_to(book, line))
}

// Adds the answer to the line's first n bytes at a place of `out`.
fn answer_line(
    rt: &(impl Print + Eprint),
    book: &[u8],
    line: &[u8],
    n: usize,
    out: &mut Out,
    at: usize,
) -> usize
    requires { (n ≤ length line.now) × (at ≤ 65_536) }
    ensures { result ≤ 65_536 }
{
    let from = with_room(rt, out, at);
    put_answer(book, &line[..n], out, from)
}

// Answers the lines that end in the block. The rest of the block stays in `line`. `kept` is the number of bytes in
// `line` before, and the result is the number after.
fn answer_block(
    rt: &(impl Print + Eprint),
    book: &[u8],
    block: &[u8],
    line: &mut [u8; LINE],
    kept: usize,
) -> usize
    requires { kept ≤ 1_001 }
    ensures { result ≤ 1_001 }
{
    let mut out = [0u8; 65536];
    let mut at = 0;
    let mut n = kept;
    for &byte in block {
        if byte == b'\n' {
            at = answer_line(rt, book, line, n, &mut out, at);
            n = 0;
        } else if n < LINE {
            line[n] = byte;
            n += 1;
        }
    }
    write_out(rt, &out, at);
    n
}

// The number of blocks is a limit that no input reaches. The loop needs one, because nothing else shows that the
// input ends.
fn answer_all(rt: &(impl Input + Print + Eprint), book: &[u8]) {
    let mut input = rt.reader();
    let mut block = [0u8; 65536];
    let mut line = [0u8; LINE];
    let mut kept = 0;
    for _ in 0..u64::MAX {
        let n = match input.read(&mut block) {
            Ok(n) => n,
            Err(e) => {
                console::fail(rt, "ask: cannot read standard input", e);
                0
            }
        };
        if n == 0 {
            break;
        }
        kept = answer_block(rt, book, &block[..n], &mut line, kept);
    }
    if 0 < kept {
        answer_block(rt, book, b"\n", &mut line, kept);
    }
}

// Puts the book of that name at the start of `book`, and returns its length, or that of the part which `book` holds.
fn read_book(files: &impl Files, name: &str, book: &mut [u8]) -> io::Result<usize>
    ensures { IfOk result (λ n. n ≤ length book.new) }
{
    let mut file = File::open(files, name)?;
    console::read_full(&mut file, book)
}

// Answers from the book of that name. If it cannot be read, nothing is answered.
fn answer_from(rt: &(impl Files + Input + Print + Eprint), name: &str) {
    let mut book = [0u8; BOOK];
    match read_book(rt, name, &mut book) {
        Ok(count) => answer_all(rt, &book[..count]),
        Err(e) => tell_unread(rt, name, e),
    }
}

fn main(rt: HostRuntime) {
    if console::has_argument(&rt, 2) {
        let _ = eprintln!(rt; "use: ask [BOOK] < QUESTIONS");
        return;
    }
    if !console::has_argument(&rt, 1) {
        answer_all(&rt, b"");
        return;
    }
    let mut room = [0u8; 4_096];
    match console::argument(&rt, 1, &mut room) {
        Ok(name) => answer_from(&rt, name),
        Err(e) => console::fail(&rt, "ask: the book's name", e),
    }
}
