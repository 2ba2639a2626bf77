// Little-endian numbers in a book or an order. These are inner functions: the caller knows that the bytes are there.

#![tactic(auto)]

pub mod inner;
