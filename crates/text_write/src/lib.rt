// Numbers as text: writing them into a caller's buffer (`inner`), and reading them from bytes.

#![tactic(auto)]

pub mod inner;

pub use text_read::{Bits, Field, bits_of, float_of_bits, read_decimal, read_hex16};
