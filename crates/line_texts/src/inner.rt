// The text of an answer, written at a place of a buffer with room for it.

ghost use Rattle.std.specs.Prelude.{◌+◌, ◌≤◌};
ghost use Rattle.line_form.specs.Spelled.{spaced, line_text, Puts};
ghost use Rattle.line_texts.specs.Text.{or_refused, root_items, sine_items, number_items, date_items, fixed_items, launched_items, figure_items, conic_items, position_items, acceleration_items, coordinate_items, state_items, guess_items, outcome_items, run_items, flown_items, answer_items};

use base::Reason;
use book::Motion;
use calendar::Calendar;
use conic::{CentredConic, Conic};
use earth_fixed::EarthFixed;
use gravity::Guesses;
use line_form::put::{Out, end_line, put_floats, put_numbers, put_refused};
use line_types::Answer;
use run::{Outcome, RunAnswer};
use sine::SineCosine;
use state::{Injection, State, Vector};
use text_write::inner::put_bytes;

// One function for each kind of value, and none with a closure that lays it out: the closure would need a clause of its
// own, and that is no shorter.
fn put_root<R: Reason>(out: &mut Out, at: usize, answer: Result<f64, R>) -> usize
    requires { at + 512 ≤ 65_536 }
    ensures { Puts out.old at (spaced (or_refused R.told root_items answer)) out.new 1 512 result }
{
    match answer {
        Ok(y) => put_floats(out, at, &[y]),
        Err(refusal) => put_refused(out, at, refusal.told()),
    }
}

fn put_sine<R: Reason>(out: &mut Out, at: usize, answer: Result<SineCosine, R>) -> usize
    requires { at + 512 ≤ 65_536 }
    ensures { Puts out.old at (spaced (or_refused R.told sine_items answer)) out.new 1 512 result }
{
    match answer {
        Ok(of) => put_floats(out, at, &[of.sine, of.cosine]),
        Err(refusal) => put_refused(out, at, refusal.told()),
    }
}

// An hour, or a day.
fn put_number<R: Reason>(out: &mut Out, at: usize, answer: Result<u64, R>) -> usize
    requires { at + 512 ≤ 65_536 }
    ensures { Puts out.old at (spaced (or_refused R.told number_items answer)) out.new 1 512 result }
{
    match answer {
        Ok(number) => put_numbers(out, at, &[number]),
        Err(refusal) => put_refused(out, at, refusal.told()),
    }
}

fn put_date<R: Reason>(out: &mut Out, at: usize, answer: Result<Calendar, R>) -> usize
    requires { at + 512 ≤ 65_536 }
    ensures { Puts out.old at (spaced (or_refused R.told date_items answer)) out.new 1 512 result }
{
    match answer {
        Ok(date) => put_numbers(out, at, &[date.year, date.month, date.day]),
        Err(refusal) => put_refused(out, at, refusal.told()),
    }
}

fn put_fixed<R: Reason>(out: &mut Out, at: usize, answer: Result<EarthFixed, R>) -> usize
    requires { at + 512 ≤ 65_536 }
    ensures { Puts out.old at (spaced (or_refused R.told fixed_items answer)) out.new 1 512 result }
{
    match answer {
        Ok(f) => put_floats(out, at, &[f.x, f.y, f.z, f.vx, f.vy, f.vz]),
        Err(refusal) => put_refused(out, at, refusal.told()),
    }
}

fn put_launched<R: Reason>(out: &mut Out, from: usize, answer: Result<Injection, R>) -> usize
    requires { from + 512 ≤ 65_536 }
    ensures { Puts out.old from (spaced (or_refused R.told launched_items answer)) out.new 1 512 result }
{
    match answer {
        Ok(s) => {
            let at = put_numbers(out, from, &[s.moment]);
            put_floats(out, at, &[s.x, s.y, s.z, s.vx, s.vy, s.vz])
        }
        Err(refusal) => put_refused(out, from, refusal.told()),
    }
}

// The kind, the centre and the five figures of a conic.
fn put_figures(out: &mut Out, from: usize, centre: u64, conic: Conic) -> usize
    requires { from + 512 ≤ 65_536 }
    ensures { Puts out.old from (spaced (figure_items centre conic)) out.new 1 512 result }
{
    match conic {
        Conic::Ellipse { a, e, p, q, far } => {
            let mut at = put_bytes(out, from, b"ELLIPSE ");
            at = put_numbers(out, at, &[centre]);
            put_floats(out, at, &[a, e, p, q, far])
        }
        Conic::Hyperbola { a, e, p, q, v } => {
            let mut at = put_bytes(out, from, b"HYPERBOLA ");
            at = put_numbers(out, at, &[centre]);
            put_floats(out, at, &[a, e, p, q, v])
        }
    }
}

fn put_conic<R: Reason>(out: &mut Out, at: usize, answer: Result<CentredConic, R>) -> usize
    requires { at + 512 ≤ 65_536 }
    ensures { Puts out.old at (spaced (or_refused R.told conic_items answer)) out.new 1 512 result }
{
    match answer {
        Ok(centred) => {
            let conic = centred.conic;
            put_figures(out, at, centred.centre, conic)
        }
        Err(refusal) => put_refused(out, at, refusal.told()),
    }
}

fn put_position<R: Reason>(out: &mut Out, at: usize, answer: Result<Motion, R>) -> usize
    requires { at + 512 ≤ 65_536 }
    ensures { Puts out.old at (spaced (or_refused R.told position_items answer)) out.new 1 512 result }
{
    match answer {
        Ok(motion) => {
            let p = motion.place;
            let w = motion.velocity;
            put_floats(out, at, &[p.x, p.y, p.z, w.x, w.y, w.z])
        }
        Err(refusal) => put_refused(out, at, refusal.told()),
    }
}

fn put_acceleration<R: Reason>(out: &mut Out, at: usize, answer: Result<Vector, R>) -> usize
    requires { at + 512 ≤ 65_536 }
    ensures { Puts out.old at (spaced (or_refused R.told acceleration_items answer)) out.new 1 512 result }
{
    match answer {
        Ok(a) => put_floats(out, at, &[a.x, a.y, a.z]),
        Err(refusal) => put_refused(out, at, refusal.told()),
    }
}

fn put_coordinates(out: &mut Out, at: usize, s: State) -> usize
    requires { at + 102 ≤ 65_536 }
    ensures { Puts out.old at (spaced (coordinate_items s)) out.new 6 102 result }
{
    put_floats(out, at, &[s.x, s.y, s.z, s.vx, s.vy, s.vz])
}

fn put_state(out: &mut Out, from: usize, s: State) -> usize
    requires { from + 195 ≤ 65_536 }
    ensures { Puts out.old from (spaced (state_items s)) out.new 11 195 result }
{
    let mut at = put_numbers(out, from, &[s.moment, s.centre]);
    at = put_coordinates(out, at, s);
    put_floats(out, at, &[s.ax, s.ay, s.az])
}

fn put_state_answer<R: Reason>(out: &mut Out, at: usize, answer: Result<State, R>) -> usize
    requires { at + 512 ≤ 65_536 }
    ensures { Puts out.old at (spaced (or_refused R.told state_items answer)) out.new 1 512 result }
{
    match answer {
        Ok(s) => put_state(out, at, s),
        Err(refusal) => put_refused(out, at, refusal.told()),
    }
}

fn put_guesses(out: &mut Out, at: usize, g: Guesses) -> usize
    requires { at + 105 ≤ 65_536 }
    ensures { Puts out.old at (spaced (guess_items g)) out.new 5 105 result }
{
    put_numbers(out, at, &[g.moon, g.sun, g.venus, g.mars, g.jupiter])
}

fn put_outcome<R: Reason>(out: &mut Out, at: usize, outcome: Outcome<R>) -> usize
    requires { at + 29 ≤ 65_536 }
    ensures { Puts out.old at (spaced (outcome_items R.told outcome)) out.new 1 29 result }
{
    match outcome {
        Outcome::Arrived => put_bytes(out, at, b"ARRIVED "),
        Outcome::Going => put_bytes(out, at, b"GOING "),
        Outcome::Refused(refusal) => put_refused(out, at, refusal.told()),
    }
}

fn put_run<R: Reason>(out: &mut Out, from: usize, answer: RunAnswer<R>) -> usize
    requires { from + 512 ≤ 65_536 }
    ensures { Puts out.old from (spaced (run_items R.told answer)) out.new 1 512 result }
{
    let s = answer.state;
    let outcome = answer.outcome;
    let mut at = put_outcome(out, from, outcome);
    at = put_numbers(out, at, &[answer.steps as u64, s.moment]);
    at = put_coordinates(out, at, s);
    put_guesses(out, at, answer.guesses)
}

// The same with the whole state.
fn put_flown<R: Reason>(out: &mut Out, from: usize, answer: RunAnswer<R>) -> usize
    requires { from + 512 ≤ 65_536 }
    ensures { Puts out.old from (spaced (flown_items R.told answer)) out.new 1 512 result }
{
    let outcome = answer.outcome;
    let mut at = put_outcome(out, from, outcome);
    at = put_numbers(out, at, &[answer.steps as u64]);
    at = put_state(out, at, answer.state);
    put_guesses(out, at, answer.guesses)
}

fn put_items<R: Reason>(out: &mut Out, at: usize, answer: Answer<R>) -> usize
    requires { at + 512 ≤ 65_536 }
    ensures { Puts out.old at (spaced (answer_items R.told answer)) out.new 1 512 result }
{
    match answer {
        Answer::Root(a) => put_root(out, at, a),
        Answer::SineCosine(a) => put_sine(out, at, a),
        Answer::Hour(a) => put_number(out, at, a),
        Answer::Date(a) => put_date(out, at, a),
        Answer::Day(a) => put_number(out, at, a),
        Answer::Fixed(a) => put_fixed(out, at, a),
        Answer::Launched(a) => put_launched(out, at, a),
        Answer::Conic(a) => put_conic(out, at, a),
        Answer::Position(a) => put_position(out, at, a),
        Answer::Acceleration(a) => put_acceleration(out, at, a),
        Answer::Injected(a) => put_state_answer(out, at, a),
        Answer::Moved(a) => put_state_answer(out, at, a),
        Answer::Run(a) => put_run(out, at, a),
        Answer::Flown(a) => put_flown(out, at, a),
        Answer::Unreadable => put_bytes(out, at, b"UNREADABLE "),
    }
}

// The line of an answer, and the place behind it.
pub fn put_line<R: Reason>(out: &mut Out, at: usize, answer: Answer<R>) -> usize
    requires { at + 512 ≤ 65_536 }
    ensures { Puts out.old at (line_text (answer_items R.told answer)) out.new 1 512 result }
{
    let end = put_items(out, at, answer);
    end_line(out, end);
    end
}
