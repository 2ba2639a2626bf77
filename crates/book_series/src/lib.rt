// The Chebyshev series of an entry of a book: the position of its body, and its velocity.

#![tactic(auto)]

mod coefficients;
pub mod inner;

#[derive(Clone, Copy)]
pub struct Place {
    pub x: f64,
    pub y: f64,
    pub z: f64,
}

// The positions of two bodies at one moment.
#[derive(Clone, Copy)]
pub struct TwoPlaces {
    pub first: Place,
    pub second: Place,
}

#[derive(Clone, Copy)]
pub struct Velocity {
    pub x: f64,
    pub y: f64,
    pub z: f64,
}
