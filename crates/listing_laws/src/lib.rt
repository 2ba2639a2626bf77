// No code: this crate has the law that a line of a listing is read as a kind if and only if it has that kind, about the
// definitions of `listing_scan`.

#![tactic(auto)]
