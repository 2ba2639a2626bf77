// Shared by the programs that answer line by line: the fields of a line, and rows of numbers in an answer. These are
// inner functions: the callers know that there is room.

#![tactic(auto)]

pub mod form;
pub mod put;
