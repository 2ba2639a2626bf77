// Writes the book of the kept entries into the caller's output. Every byte of an entry and a block is that of the
// input, except for the offset.

#![tactic(auto)]

mod blocks;
mod bytes;
mod contents;
pub mod inner;
