// No code: this crate has document 01's table of proved cases, about the definitions of the crates below.

#![tactic(auto)]
