// The orientation of the Earth at a moment, and its rate.

#![tactic(auto)]

pub mod inner;
