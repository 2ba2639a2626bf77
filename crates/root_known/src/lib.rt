// Numbers kept together with their roots, so that a root is computed once.

#![tactic(auto)]

pub mod inner;

#[derive(Clone, Copy)]
pub struct Rooted {
    pub n: f64,
    pub root: f64,
}
