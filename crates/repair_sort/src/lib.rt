// The entries of a damaged book: which are looked at, the first reason for dropping one, and the order of the rest.

#![tactic(auto)]

pub mod inner;
mod order;
mod reasons;

// As many as the longest book can have in its contents.
pub const MOST_ENTRIES: usize = 2559;

// Fates: the fate of a kept entry is its new number, which is below MOST_ENTRIES.
pub const FIELDS: u16 = 3_001;

pub const BLOCK: u16 = 3_002;

pub const COEFFICIENT: u16 = 3_003;

pub const OVERLAP: u16 = 3_004;

pub const ROOM: u16 = 3_005;
