// No code: this crate has the laws of a repaired book, about the definitions of `repair_book`.

#![tactic(auto)]
