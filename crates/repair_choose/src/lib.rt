// The forward pass through the entries in order: overlap, then room.

#![tactic(auto)]

pub mod inner;
mod settle;

// How many entries are kept, the last one of them if there is one, and the length of the book that holds them.
#[derive(Clone, Copy)]
pub struct Kept {
    pub count: usize,
    pub last: usize,
    pub length: usize,
}
