// The program repair: reads a damaged book from standard input, writes one that passes to standard output, and
// reports on standard error. An optional argument is the room: the greatest length of the book that it writes. Errors
// of reading and writing are printed on standard error.
//
// No contract can say what a program reads or writes. The new book and the fates come from `repair_book::repair`;
// this program only passes them on.

#![tactic(auto)]

ghost use Rattle.std.specs.Prelude.{◌≤◌, length};

use repair_book::{Changed, MOST_ENTRIES, Report};
use std::io;
use std::rt::Env;
use text_write::Field;

const NO_ROOM_GIVEN: usize = book::LONGEST_BOOK;
// One byte more than the longest book: enough to detect that the input is too long.
const LONGEST_INPUT: usize = book::LONGEST_BOOK + 1;

const NOT_ALLOWED: usize = book::LONGEST_BOOK + 1;

// The room that a word gives in decimal; one above the limit if it is no such number.
fn room_of(word: &[u8]) -> usize
    ensures { result ≤ 61_441 }
{
    let field = text_write::read_decimal(word, 0);
    let Some(Field { value: n, next }) = field else {
        return NOT_ALLOWED;
    };
    if next < word.len() {
        return NOT_ALLOWED;
    }
    if n <= 61_440 { n as usize } else { NOT_ALLOWED }
}

fn room_given(env: &impl Env) -> usize
    ensures { result ≤ 61_441 }
{
    if !console::has_argument(env, 1) {
        return NO_ROOM_GIVEN;
    }
    if console::has_argument(env, 2) {
        return NOT_ALLOWED;
    }
    let mut word = [0u8; 64];
    match env.arg(1, &mut word) {
        Ok(n) => room_of(&word[..n]),
        Err(_) => NOT_ALLOWED,
    }
}

fn tell(rt: &impl Eprint, text: &str) {
    let _ = rt.eprint(text);
}

// A number, a word and the end of the line.
fn tell_numbered(rt: &impl Eprint, n: usize, word: &str) {
    let _ = eprint!(rt; "{n}{word}");
}

fn tell_reason(rt: &impl Eprint, fate: u16) {
    if fate == repair_book::FIELDS {
        tell(rt, " FIELDS\n");
    } else if fate == repair_book::BLOCK {
        tell(rt, " BLOCK\n");
    } else if fate == repair_book::COEFFICIENT {
        tell(rt, " COEFF\n");
    } else if fate == repair_book::OVERLAP {
        tell(rt, " OVERLAP\n");
    } else {
        tell(rt, " ROOM\n");
    }
}

fn tell_fate(rt: &impl Eprint, i: usize, fate: u16) {
    let _ = eprint!(rt; "{i}");
    if fate < 2_559 {
        tell(rt, " KEPT ");
        tell_numbered(rt, fate as usize, "\n");
    } else {
        tell_reason(rt, fate);
    }
}

fn tell_changed(rt: &impl Eprint, changed: Changed) {
    if changed.total {
        tell(rt, "CHANGED total\n");
    }
    if changed.count {
        tell(rt, "CHANGED count\n");
    }
    if changed.order {
        tell(rt, "CHANGED order\n");
    }
    if changed.offsets {
        tell(rt, "CHANGED offsets\n");
    }
}

fn tell_fates(rt: &impl Eprint, fates: &[u16; MOST_ENTRIES], looked: usize) {
    for (i, &fate) in fates.iter().take(looked).enumerate() {
        tell_fate(rt, i, fate);
    }
}

fn tell_report(rt: &impl Eprint, report: Report, fates: &[u16; MOST_ENTRIES]) {
    tell_fates(rt, fates, report.looked);
    let changed = report.changed;
    tell_changed(rt, changed);
    tell(rt, "WRITTEN ");
    tell_numbered(rt, report.written, "\n");
}

// Writes the whole book.
fn print_book(rt: &impl Print, output: &[u8], written: usize) -> io::Result<()> {
    if written <= output.len() {
        return rt.write_all(&output[..written]);
    }
    Err(io::Error::from(io::ErrorKind::WriteZero))
}

fn print_written(
    rt: &(impl Print + Eprint),
    output: &[u8],
    report: Report,
    fates: &[u16; MOST_ENTRIES],
) {
    match print_book(rt, output, report.written) {
        Ok(()) => tell_report(rt, report, fates),
        Err(e) => console::fail(rt, "repair: cannot write the book", e),
    }
}

fn print_repaired(rt: &(impl Print + Eprint), input: &[u8], output: &mut [u8]) {
    let mut fates = [0u16; MOST_ENTRIES];
    let answer = repair_book::repair(input, output, &mut fates);
    match answer {
        Ok(report) => {
            print_written(rt, output, report, &fates);
        }
        Err(refusal) => {
            tell(rt, "REFUSED ");
            tell_numbered(rt, refusal.number() as usize, "\n");
        }
    }
}

fn print_within(rt: &(impl Print + Eprint), input: &[u8], output: &mut [u8], room: usize)
    requires { room ≤ length output.old }
{
    print_repaired(rt, input, &mut output[..room]);
}

fn main(rt: HostRuntime) {
    let room = room_given(&rt);
    if book::LONGEST_BOOK < room {
        tell(
            &rt,
            "use: repair [ROOM] < DAMAGED > REPAIRED, ROOM 0 to 61440 bytes in decimal\n",
        );
        return;
    }
    let mut input = [0u8; LONGEST_INPUT];
    match console::read_full(&mut rt.reader(), &mut input) {
        Ok(n) => {
            let mut output = [0u8; book::LONGEST_BOOK];
            print_within(&rt, &input[..n], &mut output, room);
        }
        Err(e) => console::fail(&rt, "repair: cannot read standard input", e),
    }
}
