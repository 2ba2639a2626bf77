// No code: this crate has the laws of a table, about the definitions of `listing_read`, `table_rows` and
// `table_blocks`.

#![tactic(auto)]
