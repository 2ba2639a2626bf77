// The lookup of the entry of a book that covers a moment.

#![tactic(auto)]

pub mod inner;
mod search;
