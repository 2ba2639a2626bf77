// The programs strip and strip144. Each reads an order of its form and a book from standard input, and prints the
// listing of their run. If it cannot read or write, it prints the error on standard error.
//
// No contract can say what a program reads or writes. The definition `strip_text` (listing_write) says what it should
// print, by the form and the input. The contracts of strip_order and listing_write cover what is read, and each text
// that is printed here. The laws of listing_write (proofs/Whole.antt) say that these texts, in this order, make up
// the whole.

#![tactic(auto)]

mod telling;

ghost use Rattle.std.specs.Prelude.{◌≡◌, ◌≤◌, length};
ghost use Rattle.run_checks.specs.Start.{start_checks};
ghost use Rattle.listing_write.specs.Course.{OnCourse};

use base::Refusal;
use listing_write::Course;
use listing_write::inner::{portion, start};
use listing_write::lines::{put_header, put_lone_refusal, put_outcome, put_state};
use run::Outcome;
use state::{Setting, State};
use std::rt::Env;
use strip_order::{Form, Order};
use telling::{tell_unread, tell_unwritten, tell_use};

// The longest order, the longest book, and one byte more: enough to detect a book that is too long.
const LONGEST_INPUT: usize = strip_order::LONGEST_ORDER + book::LONGEST_BOOK + 1;

// Whether the whole text was written; if not, prints the reason on standard error.
fn print(rt: &(impl Print + Eprint), form: Form, part: &[u8]) -> bool {
    match rt.write_all(part) {
        Ok(()) => true,
        Err(e) => {
            tell_unwritten(rt, form, e);
            false
        }
    }
}

fn print_lone_refusal(rt: &(impl Print + Eprint), form: Form, refusal: Refusal) {
    let mut line = [0u8; 128];
    let n = put_lone_refusal(&mut line, 0, refusal.number());
    print(rt, form, &line[..n]);
}

fn print_outcome(rt: &(impl Print + Eprint), form: Form, outcome: Outcome, steps: u64) {
    let mut line = [0u8; 128];
    let n = put_outcome(&mut line, 0, outcome, steps);
    print(rt, form, &line[..n]);
}

// Writes portion after portion, each as large as the buffer.
fn print_course(
    rt: &(impl Print + Eprint),
    form: Form,
    book: &[u8],
    setting: Setting,
    h: u32,
    from: Course,
    out: &mut [u8],
)
    requires on_course { OnCourse book.now setting h from }
    requires in_bounds { 123 ≤ length out.old }
{
    let mut course = from;
    // Only the run itself says which portion is the last, so there is no count to go over.
    loop {
        let p = portion(book, setting, h, course, out);
        let n = p.written;
        if !print(rt, form, &out[..n]) {
            return;
        }
        let outcome = p.outcome;
        course = p.course;
        let Outcome::Going = outcome else {
            print_outcome(rt, form, outcome, course.done);
            return;
        };
    }
}

fn print_listing(
    rt: &(impl Print + Eprint),
    form: Form,
    book: &[u8],
    setting: Setting,
    from: State,
    h: u32,
    target: u64,
)
    requires { start_checks book.now setting from h target ≡ Ok tt }
{
    let mut buffer = [0u8; 65_536];
    let out: &mut [u8] = &mut buffer;
    let header = put_header(out, 0, h);
    let n = put_state(out, header, from);
    if print(rt, form, &out[..n]) {
        print_course(rt, form, book, setting, h, start(from, h, target), out);
    }
}

fn print_order(rt: &(impl Print + Eprint), form: Form, book: &[u8], order: Order) {
    let setting = order.setting;
    let from = gravity_stored::launch(book, setting, order.injection);
    match run_checks::start_checks(book, setting, from, order.h, order.target) {
        Ok(()) => print_listing(rt, form, book, setting, from, order.h, order.target),
        Err(refusal) => print_lone_refusal(rt, form, refusal),
    }
}

fn print_strip(rt: &(impl Print + Eprint), form: Form, input: &[u8]) {
    match strip_order::read_order(form, input) {
        Ok(order) => {
            let from = strip_order::order_length(form);
            print_order(rt, form, &input[from..], order);
        }
        Err(refusal) => print_lone_refusal(rt, form, refusal),
    }
}

// The whole program for orders of this form.
pub fn strip(rt: &(impl Env + Input + Print + Eprint), form: Form) {
    if console::has_argument(rt, 1) {
        tell_use(rt, form);
        return;
    }
    let mut input = [0u8; LONGEST_INPUT];
    match console::read_full(&mut rt.reader(), &mut input) {
        Ok(n) => print_strip(rt, form, &input[..n]),
        Err(e) => tell_unread(rt, form, e),
    }
}
