// No code: this crate has the laws of the calls for C and Rust, about the definitions and contracts of
// `belfry_almanac` and `belfry_earth`.

#![tactic(auto)]
