// (02, R-14) The live pane: it keeps the last two reached states, and answers each frame with current, late or empty.

#![tactic(auto)]

pub mod inner;

ghost use Rattle.std.specs.Prelude.{◌≡◌, ◌≤◌};
ghost use Rattle.pane_live.specs.Pane.{follows, taken_after, take, feed_by, feed, after, clear, between, figure, shown, frame_between, frame_at};

use base::Refusal;
use inner::{along_cubic, to_float};
use run::{Outcome, RunAnswer};
use state::{State, Vector, position_of};

// None, one, or the older and the newer of two states.
#[derive(Clone, Copy)]
pub enum Pane {
    Blank,
    One(State),
    Two(State, State),
}

// A refusal is held as in the answer of a run.
#[derive(Clone, Copy)]
pub enum TakeAnswer<R = Refusal> {
    Taken(Pane),
    Unchanged,
    Refused(R),
}

// What is shown, how late in milliseconds, nothing, or a refusal. Shown is a position, or more (pane_motion).
#[derive(Clone, Copy)]
pub enum FrameAnswer<T, R = Refusal> {
    Current(T),
    Late(u64),
    Empty,
    Refused(R),
}

fn is_next(newer: State, s: State) -> bool
    ensures { result ≡ follows newer s }
{
    if s.centre == newer.centre {
        return newer.moment < s.moment;
    }
    false
}

fn taken_after(newer: State, s: State) -> TakeAnswer
    ensures { result ≡ taken_after newer s }
{
    if is_next(newer, s) {
        let both = Pane::Two(newer, s);
        return TakeAnswer::Taken(both);
    }
    TakeAnswer::Refused(Refusal::NotNext)
}

// A new state, if its centre agrees and its moment is later.
pub fn take(pane: Pane, state: State) -> TakeAnswer
    ensures { result ≡ take pane state }
{
    match pane {
        Pane::Blank => {
            let one = Pane::One(state);
            TakeAnswer::Taken(one)
        }
        Pane::One(a) => taken_after(a, state),
        Pane::Two(a, b) => taken_after(b, state),
    }
}

fn feed_by<R: Copy>(outcome: Outcome<R>, pane: Pane, state: State) -> TakeAnswer
    ensures { result ≡ feed_by outcome pane state }
{
    match outcome {
        Outcome::Arrived => take(pane, state),
        Outcome::Going => take(pane, state),
        Outcome::Refused(k) => TakeAnswer::Unchanged,
    }
}

// Takes the answer of a run: a refused one changes nothing.
pub fn feed<R: Copy>(pane: Pane, answer: RunAnswer<R>) -> TakeAnswer
    ensures { result ≡ feed pane answer }
{
    let outcome = answer.outcome;
    feed_by(outcome, pane, answer.state)
}

// The pane after a call with this answer.
pub fn after<R: Copy>(pane: Pane, answer: TakeAnswer<R>) -> Pane
    ensures { result ≡ after pane answer }
{
    match answer {
        TakeAnswer::Taken(next) => next,
        TakeAnswer::Unchanged => pane,
        TakeAnswer::Refused(k) => pane,
    }
}

pub fn clear() -> Pane
    ensures { result ≡ clear }
{
    Pane::Blank
}

fn place_between(a: State, b: State, gone: u64, span: u64) -> Vector
    ensures { result ≡ between a b gone span }
{
    let long = to_float(span);
    let d = long / 1000.0;
    let s = to_float(gone) / long;
    Vector {
        x: along_cubic(d, s, a.x, a.vx, b.x, b.vx),
        y: along_cubic(d, s, a.y, a.vy, b.y, b.vy),
        z: along_cubic(d, s, a.z, a.vz, b.z, b.vz),
    }
}

fn figure_of(a: State, b: State, t: u64) -> Vector
    requires { (a.moment ≤ t) × (t ≤ b.moment) }
    ensures { result ≡ figure a b t }
{
    if t == a.moment {
        return position_of(a);
    }
    if t == b.moment {
        return position_of(b);
    }
    place_between(a, b, t - a.moment, b.moment - a.moment)
}

fn show(p: Vector) -> FrameAnswer<Vector>
    ensures { result ≡ shown p }
{
    if state::vector_is_finite(p) {
        return FrameAnswer::Current(p);
    }
    FrameAnswer::Refused(Refusal::NotFinite)
}

fn frame_between(a: State, b: State, t: u64) -> FrameAnswer<Vector>
    ensures { result ≡ frame_between a b t }
{
    if b.moment < t {
        return FrameAnswer::Late(t - b.moment);
    }
    if t < a.moment {
        return FrameAnswer::Empty;
    }
    show(figure_of(a, b, t))
}

// What the pane shows at a moment.
pub fn frame(pane: Pane, moment: u64) -> FrameAnswer<Vector>
    ensures { result ≡ frame_at pane moment }
{
    match pane {
        Pane::Blank => FrameAnswer::Empty,
        Pane::One(a) => FrameAnswer::Empty,
        Pane::Two(a, b) => frame_between(a, b, moment),
    }
}
