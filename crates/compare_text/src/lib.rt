// The lines of the report on two listings. The writers put a text at a place of a caller's buffer and return the
// place after it. They are inner functions: the caller knows that there is room.

#![tactic(auto)]

pub mod inner;
