// The whole number nearest a square root, found digit by digit.

#![tactic(auto)]

pub mod inner;

// 2^52, the weight of the first of 53 digits.
pub const LEADING: u64 = 0x10_0000_0000_0000;

// The state of the search for one root.
#[derive(Clone, Copy)]
pub struct Lane {
    pub v: u64,
    pub t: u64,
}
