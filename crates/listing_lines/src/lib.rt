// The line of a state that lies whole in a block, read at once.

#![tactic(auto)]

pub mod inner;

// A number, and the place after its digits.
#[derive(Clone, Copy)]
pub struct Numbered {
    pub t: u64,
    pub end: usize,
}

// The line of a state: its moment, the bits of its six components and the place of its line feed.
#[derive(Clone, Copy)]
pub struct WholeLine {
    pub moment: u64,
    pub x: u64,
    pub y: u64,
    pub z: u64,
    pub vx: u64,
    pub vy: u64,
    pub vz: u64,
    pub end: usize,
}
