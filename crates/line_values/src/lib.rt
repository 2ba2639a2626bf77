// The meaning of the numbers in the line of a call.

#![tactic(auto)]

pub mod inner;
