// No code: this crate has the laws of the report on two listings, about the definitions of `listing_write`,
// `listing_read` and `compare_report`.

#![tactic(auto)]
