// No code: for public functions below the public calls, these laws say that any two results are equal.

#![tactic(auto)]
