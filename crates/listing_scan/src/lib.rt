// A line of a listing, byte by byte. It is never kept: each byte updates a small value, so a line of any length needs no
// memory.

#![tactic(auto)]

mod letters;
pub mod scanning;

// A state as its line has it: its moment, and the bits of its six components.
#[derive(Clone, Copy)]
pub struct Row {
    pub moment: u64,
    pub x: u64,
    pub y: u64,
    pub z: u64,
    pub vx: u64,
    pub vy: u64,
    pub vz: u64,
}

// The kind of a line.
#[derive(Clone, Copy)]
pub enum Line {
    Header,
    State(Row),
    Outcome,
    Lone,
    Bad,
}

// The words before numbers. `Steps` is for the number after a refusal, which has no word.
#[derive(Clone, Copy)]
pub enum Word {
    Strip,
    Arrived,
    Refused,
    Steps,
}

// What is known of a line after some of its bytes.
#[derive(Clone, Copy)]
pub enum Scan {
    // no byte yet
    Start,
    // that many letters of a word, or all of it
    Letters(Word, usize),
    // a digit of the number after a word; whether more may follow
    Digits(Word, bool),
    // digits of a moment
    Moment(u64),
    // inside a component: components after it, digits after the next, the bits so far, and the row before it
    Component(u64, u64, u64, Row),
    // after the moment or a component: components to come
    Behind(u64, Row),
    Bad,
}
