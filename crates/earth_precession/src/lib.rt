// The table that takes 1950.0 coordinates to the mean equator of date (02, R-2; document 000, ROTEQ).

#![tactic(auto)]

pub mod inner;
