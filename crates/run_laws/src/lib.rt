// No code: this crate has demand 3 and the laws around it, about the definitions of the crates below.

#![tactic(auto)]
