// A moment as a time stamp: 1950-01-01T00:00:00.000.

#![tactic(auto)]

pub mod inner;
