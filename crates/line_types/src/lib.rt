// The answers of ask, one case for each kind. `line_answers` finds the answer to a line, `line_texts` writes it, with
// whatever R stands for a refusal.

#![tactic(auto)]

use base::Refusal;
use book::Motion;
use calendar::Calendar;
use conic::CentredConic;
use earth_fixed::EarthFixed;
use run::RunAnswer;
use sine::SineCosine;
use state::{Injection, State, Vector};

#[derive(Clone, Copy)]
pub enum Answer<R = Refusal> {
    Root(Result<f64, R>),
    SineCosine(Result<SineCosine, R>),
    Hour(Result<u64, R>),
    Date(Result<Calendar, R>),
    Day(Result<u64, R>),
    Fixed(Result<EarthFixed, R>),
    Launched(Result<Injection, R>),
    Conic(Result<CentredConic, R>),
    Position(Result<Motion, R>),
    Acceleration(Result<Vector, R>),
    Injected(Result<State, R>),
    Moved(Result<State, R>),
    Run(RunAnswer<R>),
    Flown(RunAnswer<R>),
    Unreadable,
}
