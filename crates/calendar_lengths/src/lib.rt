// The lengths of the years and months from 1950 to 2049.

#![tactic(auto)]

pub mod inner;

pub const FIRST_YEAR: u64 = 1950;
