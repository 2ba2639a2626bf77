// One step, for the crates above.

pub use step::inner::step_under;
