// No code: this crate has the one rounding of an hour angle into one circle, and its laws.

#![tactic(auto)]
