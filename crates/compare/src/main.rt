// The program compare: prints where two strip listings differ. It reads each file twice, in blocks: once to check its
// form and once to report. If it cannot read or write, it prints the error on standard error.
//
// No contract can say what a program reads or writes. The definition `report` (compare_report) says what it should
// print for the two texts. Every text that is printed here comes from a function with a contract. compare_laws proves
// that these texts, in this order, make up the whole.

#![tactic(auto)]

mod files;
mod lines;
mod states;

ghost use Rattle.std.specs.Prelude.{◌≡◌, ◌≤◌, true, length};
ghost use Rattle.base.specs.Choice.{if◌then◌otherwise◌, ◌<?◌};

use compare_report::{Part, next_part};
use compare_text::inner::{put_end, put_refusal};
use listing_read::Verdict;
use std::fs::File;
use std::io;
use std::rt::Files;

// What could not be read or written.
#[derive(Clone, Copy)]
pub enum Failure {
    FirstUnread(io::Error),
    SecondUnread(io::Error),
    Unwritten(io::Error),
}

// A listing of the form: its file, and the verdict on it.
#[derive(Clone, Copy)]
pub struct Listing<'a> {
    pub file: &'a File,
    pub verdict: Verdict,
}

fn print_refusal(rt: &impl Print, first: u64, second: u64) -> Result<(), Failure> {
    let mut line = [0u8; 512];
    let n = put_refusal(&mut line, 0, first, second);
    lines::print_bytes(rt, &line[..n])
}

fn print_end(rt: &impl Print, reported: bool, states: u64) -> Result<(), Failure> {
    let mut line = [0u8; 512];
    let n = put_end(&mut line, 0, reported, states);
    lines::print_bytes(rt, &line[..n])
}

// Whether anything was reported, counting a text of that many bytes.
pub fn any(reported: bool, written: usize) -> bool
    ensures { result ≡ (if reported then true otherwise 0 <? written) }
{
    if reported {
        return true;
    }
    0 < written
}

// Whether that part printed anything.
fn print_part(
    rt: &impl Print,
    part: Part,
    first: Listing<'_>,
    second: Listing<'_>,
    reported: bool,
) -> Result<bool, Failure> {
    match part {
        Part::Header => lines::print_lines(rt, part, first, second),
        Part::States => states::print_states(rt, first.file, second.file),
        Part::Outcome => lines::print_lines(rt, part, first, second),
        Part::End => {
            print_end(rt, reported, first.verdict.rows)?;
            Ok(true)
        }
        Part::Over => Ok(false),
    }
}

// The report on two listings of the form: its four parts, one after the other.
fn print_report(rt: &impl Print, first: Listing<'_>, second: Listing<'_>) -> Result<(), Failure> {
    let mut part = Part::Header;
    let mut reported = false;
    for _ in 0..4 {
        reported |= print_part(rt, part, first, second, reported)?;
        part = next_part(part);
    }
    Ok(())
}

// The first listing is checked to its end before the second is read.
fn print_compared(rt: &impl Print, file: &File, other: &File) -> Result<(), Failure> {
    let verdict = files::judge(file).map_err(Failure::FirstUnread)?;
    if 0 < verdict.refusal {
        return print_refusal(rt, verdict.refusal, 0);
    }
    let first = Listing { file, verdict };
    let verdict = files::judge(other).map_err(Failure::SecondUnread)?;
    if 0 < verdict.refusal {
        return print_refusal(rt, 0, verdict.refusal);
    }
    let second = Listing {
        file: other,
        verdict,
    };
    print_report(rt, first, second)
}

fn compare_files(rt: &(impl Files<File = File> + Print + Eprint), first: &str, second: &str) {
    let file = files::opened(rt, first);
    let other = files::opened(rt, second);
    let (Some(file), Some(other)) = (file, other) else {
        return;
    };
    match print_compared(rt, &file, &other) {
        Ok(()) => {}
        Err(Failure::FirstUnread(e)) => files::tell_unread(rt, first, e),
        Err(Failure::SecondUnread(e)) => files::tell_unread(rt, second, e),
        Err(Failure::Unwritten(e)) => console::fail(rt, "compare: cannot write the report", e),
    }
}

fn main(rt: HostRuntime) {
    if console::has_argument(&rt, 3) || !console::has_argument(&rt, 2) {
        let _ = eprintln!(rt; "use: compare FIRST SECOND");
        return;
    }
    let mut room = [0u8; 4_096];
    let first = match console::argument(&rt, 1, &mut room) {
        Ok(name) => name,
        Err(e) => {
            console::fail(&rt, "compare: the first file's name", e);
            return;
        }
    };
    let mut more = [0u8; 4_096];
    match console::argument(&rt, 2, &mut more) {
        Ok(second) => compare_files(&rt, first, second),
        Err(e) => console::fail(&rt, "compare: the second file's name", e),
    }
}
