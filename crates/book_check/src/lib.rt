// The bytes of an ephemeris book, and whether its entries pass. `book` has the public call; these are its inner functions.

#![tactic(auto)]

pub mod inner;
