// The program table: reads a strip listing from standard input and writes it as comma-separated rows while it reads.
// A refusal is printed on standard error after the rows before it, and so is an error of reading or writing.
//
// No contract can say what a program reads or writes. The definition `table_of` (table_blocks) says what it should
// write for the text that it reads. Every text that is written here comes from a function with a contract. table_laws
// proves that these texts, in this order, make up the whole.

#![tactic(auto)]

ghost use Rattle.std.specs.Prelude.{◌≤◌, length};
ghost use Rattle.table_blocks.specs.Steps.{Stands};

use std::io::Read;
use table_blocks::inner::{finish, portion, put_refusal};
use table_blocks::{RefusedLine, Standing, opening};
use table_rows::inner::put_heading;

// The stage of reading, and whether all rows so far were written.
#[derive(Clone, Copy)]
struct Printed {
    standing: Standing,
    whole: bool,
}

// Whether the whole text was written; if not, prints the reason on standard error.
fn print(rt: &(impl Print + Eprint), part: &[u8]) -> bool {
    match rt.write_all(part) {
        Ok(()) => true,
        Err(e) => {
            console::fail(rt, "table: cannot write the table", e);
            false
        }
    }
}

fn print_heading(rt: &(impl Print + Eprint)) -> bool {
    let mut row = [0u8; 64];
    let n = put_heading(&mut row, 0);
    print(rt, &row[..n])
}

// The rows of a block, portion after portion.
fn print_block(rt: &(impl Print + Eprint), block: &[u8], from: Standing, out: &mut [u8]) -> Printed
    requires stands { Stands from }
    requires in_bounds { 157 ≤ length out.old }
    ensures { Stands result.standing }
{
    let mut s = from;
    let mut i: usize = 0;
    // No `for`: a portion goes as far as its rows fit.
    while i < block.len() {
        let p = portion(block, i, s, out);
        let n = p.written;
        s = p.standing;
        i = p.at;
        if print(rt, &out[..n]) {} else {
            return Printed {
                standing: s,
                whole: false,
            };
        }
    }
    Printed {
        standing: s,
        whole: true,
    }
}

fn is_refused(s: Standing) -> bool {
    match s {
        Standing::Going(_, _, _) => false,
        Standing::Refused(_) => true,
    }
}

fn tell_refusal(rt: &impl Eprint, refused: Option<RefusedLine>) {
    let mut room = [0u8; 64];
    let n = put_refusal(&mut room, refused);
    let _ = rt.eprint(str::from_utf8(&room[..n]).unwrap_or(""));
}

// The end of the text, or of the part that is read.
fn print_end(rt: &(impl Print + Eprint), standing: Standing, out: &mut [u8])
    requires stands { Stands standing }
    requires in_bounds { 157 ≤ length out.old }
{
    let end = finish(out, standing);
    let n = end.next;
    if print(rt, &out[..n]) {
        tell_refusal(rt, end.refused);
    }
}

// Block after block, to the end of the input or a refusal.
fn print_rows(rt: &(impl Input + Print + Eprint), block: &mut [u8], out: &mut [u8])
    requires { 157 ≤ length out.old }
{
    let mut input = rt.reader();
    let mut s = opening();
    for _ in 0..u64::MAX {
        let n = match input.read(block) {
            Ok(n) => n,
            Err(e) => {
                console::fail(rt, "table: cannot read standard input", e);
                return;
            }
        };
        if n == 0 {
            print_end(rt, s, out);
            return;
        }
        let p = print_block(rt, &block[..n], s, out);
        s = p.standing;
        if p.whole {
            if is_refused(s) {
                print_end(rt, s, out);
                return;
            }
        } else {
            return;
        }
    }
}

fn main(rt: HostRuntime) {
    if console::has_argument(&rt, 1) {
        let _ = eprintln!(rt; "use: table < LISTING");
        return;
    }
    if print_heading(&rt) {
        let mut block = [0u8; 65_536];
        let mut out = [0u8; 65_536];
        print_rows(&rt, &mut block, &mut out);
    }
}
