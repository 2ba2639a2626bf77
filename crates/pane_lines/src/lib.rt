// The live pane's answer to a line.

#![tactic(auto)]

pub mod inner;

ghost use Rattle.std.specs.Prelude.{◌≡◌, ◌+◌, ◌≤◌};
ghost use Rattle.base.specs.Refusals.{refusal_of};
ghost use Rattle.pane_live.specs.Pane.{take, feed};
ghost use Rattle.line_values.specs.Values.{number, state_from};
ghost use Rattle.pane_lines.specs.Answers.{run_from, told_taken, told_refused, told_frame, told_clear, told_unreadable, run_line, answer_to};

use base::Refusal;
use line_form::form::{Numbers, reads};
use line_values::inner::{guesses_from, narrowed, state_from};
use pane_live::{FrameAnswer, Pane, TakeAnswer};
use run::{Outcome, RunAnswer};
use state::Vector;

// A refusal is held as in the answers of the pane.
#[derive(Clone, Copy)]
pub enum Answer<R = Refusal> {
    Taken(TakeAnswer<R>),
    Frame(FrameAnswer<Vector, R>),
    Cleared,
    Unreadable,
}

// The pane after a line, and the answer to it.
#[derive(Clone, Copy)]
pub struct Told {
    pub pane: Pane,
    pub answer: Answer,
}

// The answer of a run, from a field on: steps, which the pane does not read, state and guesses.
fn run_from(v: &Numbers, outcome: Outcome, i: usize) -> RunAnswer
    requires { i + 17 ≤ 30 }
    ensures { result ≡ run_from v.now outcome i }
{
    RunAnswer {
        outcome,
        steps: narrowed(v[i]),
        state: state_from(v, i + 1),
        guesses: guesses_from(v, i + 12),
    }
}

fn told_taken(pane: Pane, answer: TakeAnswer) -> Told
    ensures { result ≡ told_taken pane answer }
{
    Told {
        pane: pane_live::after(pane, answer),
        answer: Answer::Taken(answer),
    }
}

fn take_line(pane: Pane, v: &Numbers) -> Told
    ensures { result ≡ told_taken pane (take pane (state_from v.now 0)) }
{
    told_taken(pane, pane_live::take(pane, state_from(v, 0)))
}

fn feed_line(pane: Pane, v: &Numbers, outcome: Outcome, i: usize) -> Told
    requires { i + 17 ≤ 30 }
    ensures { result ≡ told_taken pane (feed pane (run_from v.now outcome i)) }
{
    told_taken(pane, pane_live::feed(pane, run_from(v, outcome, i)))
}

fn frame_line(pane: Pane, moment: u64) -> Told
    ensures { result ≡ told_frame pane moment }
{
    Told {
        pane,
        answer: Answer::Frame(pane_live::frame(pane, moment)),
    }
}

fn clear_line() -> Told
    ensures { result ≡ told_clear }
{
    Told {
        pane: pane_live::clear(),
        answer: Answer::Cleared,
    }
}

fn unreadable_line(pane: Pane) -> Told
    ensures { result ≡ told_unreadable pane }
{
    Told {
        pane,
        answer: Answer::Unreadable,
    }
}

// The answer of a refused run has its number before the steps. A number of no refusal changes the pane no more.
fn refused_line(pane: Pane, v: &Numbers) -> Told
    ensures { result ≡ told_refused pane v.now (refusal_of (number v.now 0)) }
{
    match Refusal::from_number(v[0]) {
        Some(refusal) => feed_line(pane, v, Outcome::Refused(refusal), 1),
        None => told_taken(pane, TakeAnswer::Unchanged),
    }
}

// feed with the answer of a run as ask's fly gives it. Any other line is not a call and leaves the pane unchanged.
fn run_line(pane: Pane, line: &[u8]) -> Told
    ensures { result ≡ run_line pane line.now }
{
    let mut v = [0u64; 30];
    if reads(line, b"feed ARRIVED", b"DDDFFFFFFFFFDDDDD", &mut v) {
        return feed_line(pane, &v, Outcome::Arrived, 0);
    }
    if reads(line, b"feed GOING", b"DDDFFFFFFFFFDDDDD", &mut v) {
        return feed_line(pane, &v, Outcome::Going, 0);
    }
    if reads(line, b"feed REFUSED", b"DDDDPPPPPPPPPDDDDD", &mut v) {
        return refused_line(pane, &v);
    }
    unreadable_line(pane)
}

// The pane after a line and the answer to it: take, frame, clear or feed.
pub fn answer_to(pane: Pane, line: &[u8]) -> Told
    ensures { result ≡ answer_to pane line.now }
{
    let mut v = [0u64; 30];
    if reads(line, b"take", b"DDFFFFFFFFF", &mut v) {
        return take_line(pane, &v);
    }
    if reads(line, b"frame", b"D", &mut v) {
        return frame_line(pane, v[0]);
    }
    if reads(line, b"clear", b"", &mut v) {
        return clear_line();
    }
    run_line(pane, line)
}
