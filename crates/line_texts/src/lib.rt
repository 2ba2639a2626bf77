// The text that ask writes for a line. Its callers know that there is room.

#![tactic(auto)]

pub mod inner;
