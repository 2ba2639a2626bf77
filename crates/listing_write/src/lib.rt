// The listing that the programs strip and strip144 print: its lines, and the lines of a run in portions.

#![tactic(auto)]

pub mod inner;
pub mod lines;

use gravity::Guesses;
use run::Outcome;
use state::State;

// A place of a run: the state, the guesses, the steps left to the target and the steps done.
#[derive(Clone, Copy)]
pub struct Course {
    pub state: State,
    pub entries: Guesses,
    pub left: u64,
    pub done: u64,
}

// The outcome of a portion, where it ended, and how many bytes it wrote.
#[derive(Clone, Copy)]
pub struct Portion {
    pub outcome: Outcome,
    pub course: Course,
    pub written: usize,
}
