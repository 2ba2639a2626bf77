// (02, R-14) The live pane in the caller's memory. Reads a pane there, writes one, and says what it shows at a moment.
// Also the answer of a run, from the caller's numbers.

#![tactic(auto)]

ghost use Rattle.std.specs.Prelude.{◌≡◌};
ghost use Rattle.c_answer.specs.Handed.{handed};
ghost use Rattle.pane_live.specs.Pane.{frame_at};
ghost use Rattle.c_pane.specs.Lent.{kept_in, older_of, newer_of, pane_of, numbers_in, places_in, outcome_of, flown, fed_with, left_by};

use base::{Reason, Refusal};
use gravity::Guesses;
use pane_live::{FrameAnswer, Pane, TakeAnswer};
use run::{Outcome, RunAnswer};
use state::{State, Vector};

const GOING: u64 = 100;

const UNCHANGED: u64 = 101;

fn older_of(numbers: &[u64; 5], places: &[f64; 18]) -> State
    ensures { result ≡ older_of numbers.now places.now }
{
    State {
        moment: numbers[1],
        centre: numbers[2],
        x: places[0],
        y: places[1],
        z: places[2],
        vx: places[3],
        vy: places[4],
        vz: places[5],
        ax: places[6],
        ay: places[7],
        az: places[8],
    }
}

fn newer_of(numbers: &[u64; 5], places: &[f64; 18]) -> State
    ensures { result ≡ newer_of numbers.now places.now }
{
    State {
        moment: numbers[3],
        centre: numbers[4],
        x: places[9],
        y: places[10],
        z: places[11],
        vx: places[12],
        vy: places[13],
        vz: places[14],
        ax: places[15],
        ay: places[16],
        az: places[17],
    }
}

pub fn pane_of(n: &[u64; 5], c: &[f64; 18]) -> Pane
    ensures { result ≡ pane_of n.now c.now }
{
    let held = n[0];
    if held == 2 {
        return Pane::Two(older_of(n, c), newer_of(n, c));
    }
    if held == 1 {
        return Pane::One(older_of(n, c));
    }
    Pane::Blank
}

pub fn numbers_in(pane: Pane) -> [u64; 5]
    ensures { result ≡ numbers_in pane }
{
    match pane {
        Pane::Blank => [0, 0, 0, 0, 0],
        Pane::One(a) => [1, a.moment, a.centre, 0, 0],
        Pane::Two(a, b) => [2, a.moment, a.centre, b.moment, b.centre],
    }
}

pub fn places_in(pane: Pane) -> [f64; 18]
    ensures { result ≡ places_in pane }
{
    match pane {
        Pane::Blank => [0.0; 18],
        Pane::One(a) => {
            [
                a.x, a.y, a.z, a.vx, a.vy, a.vz, a.ax, a.ay, a.az, 0.0, 0.0, 0.0, 0.0, 0.0, 0.0,
                0.0, 0.0, 0.0,
            ]
        }
        Pane::Two(a, b) => {
            [
                a.x, a.y, a.z, a.vx, a.vy, a.vz, a.ax, a.ay, a.az, b.x, b.y, b.z, b.vx, b.vy, b.vz,
                b.ax, b.ay, b.az,
            ]
        }
    }
}

// If a state is not taken, the memory stays unchanged.
pub fn keep<R: Reason>(answer: TakeAnswer<R>, pane: &mut [u64; 5], places: &mut [f64; 18]) -> u64
    ensures { handed result (kept_in pane.new places.new) ≡ left_by R.told (kept_in pane.old places.old) answer }
{
    match answer {
        TakeAnswer::Taken(next) => {
            *pane = numbers_in(next);
            *places = places_in(next);
            0
        }
        TakeAnswer::Unchanged => UNCHANGED,
        TakeAnswer::Refused(refusal) => refusal.told(),
    }
}

// What a run says by the number that it returned, if that is one of its numbers.
fn outcome_of(returned: u64) -> Option<Outcome>
    ensures { result ≡ outcome_of returned }
{
    match returned {
        0 => Some(Outcome::Arrived),
        GOING => Some(Outcome::Going),
        _ => Refusal::from_number(returned).map(Outcome::Refused),
    }
}

// The pane does not read steps and guesses.
fn flown(outcome: Outcome, state: State) -> RunAnswer
    ensures { result ≡ flown outcome state }
{
    RunAnswer {
        outcome,
        steps: 0,
        state,
        guesses: Guesses {
            moon: 0,
            sun: 0,
            venus: 0,
            mars: 0,
            jupiter: 0,
        },
    }
}

// What a pane says to the number that a run returned and the state that it reached. Any other number leaves it unchanged.
pub fn feed(pane: Pane, returned: u64, state: State) -> TakeAnswer
    ensures { result ≡ fed_with pane returned state }
{
    match outcome_of(returned) {
        Some(outcome) => pane_live::feed(pane, flown(outcome, state)),
        None => TakeAnswer::Unchanged,
    }
}

// What a pane in memory shows at a moment. The memory is read in place: copying it takes longer than a late frame.
pub fn shown_at(n: &[u64; 5], c: &[f64; 18], moment: u64) -> FrameAnswer<Vector>
    ensures { result ≡ frame_at (pane_of n.now c.now) moment }
{
    if n[0] == 2 {
        let newest = n[3];
        if newest < moment {
            return FrameAnswer::Late(moment - newest);
        }
        return pane_live::frame(Pane::Two(older_of(n, c), newer_of(n, c)), moment);
    }
    FrameAnswer::Empty
}
