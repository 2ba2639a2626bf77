// (02, R-7) The two last terms of the acceleration: the oblate Earth, and sunlight.

#![tactic(auto)]

pub mod inner;
