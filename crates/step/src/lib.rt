// One step of the classical fourth-order Runge-Kutta rule.

#![tactic(auto)]

pub mod inner;

pub use step_end::Stepped;
