// The pull of one body, and sums of pulls.

#![tactic(auto)]

pub mod pulls;

use root_known::Rooted;
use state::Vector;

// A sum of pulls, and whether every length so far could be divided by.
#[derive(Clone, Copy)]
pub struct Pull {
    pub x: f64,
    pub y: f64,
    pub z: f64,
    pub sound: bool,
}

// Two pulls, and three more roots that were worked out beside theirs.
#[derive(Clone, Copy)]
pub struct FarPulls {
    pub first: Pull,
    pub second: Pull,
    pub roots: [f64; 3],
}

// Three pulls, and three more roots that were worked out beside theirs.
#[derive(Clone, Copy)]
pub struct ThreeFarPulls {
    pub first: Pull,
    pub second: Pull,
    pub third: Pull,
    pub roots: [f64; 3],
}

// Three pulls, and the numbers whose roots they took.
#[derive(Clone, Copy)]
pub struct ThreePulls {
    pub first: Pull,
    pub second: Pull,
    pub third: Pull,
    pub known: [Rooted; 3],
}

// A sum of three pulls, and the numbers whose roots it took.
#[derive(Clone, Copy)]
pub struct NearSum {
    pub sum: Pull,
    pub known: [Rooted; 3],
}

// The roots that the pulls on a craft ask for: of the centre and the first two bodies, and of the three bodies after
// them.
#[derive(Clone, Copy)]
pub struct CraftRoots {
    pub near: [f64; 3],
    pub later: [f64; 3],
}

// A body other than the centre: its position seen from the centre, and its pull on the centre.
#[derive(Clone, Copy)]
pub struct Other {
    pub m: f64,
    pub place: Vector,
    pub pull: Pull,
}
