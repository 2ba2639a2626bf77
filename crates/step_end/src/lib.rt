// The end of a step.

#![tactic(auto)]

pub mod inner;

use gravity::Guesses;
use state::State;

// A step done: the new state, and the entries of the bodies at its moment.
#[derive(Clone, Copy)]
pub struct Stepped {
    pub state: State,
    pub entries: Guesses,
}
