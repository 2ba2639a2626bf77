// Document 01's rule for the hour angle, as one fraction rounded down once.

#![tactic(auto)]

pub mod inner;

// An unfinished division: the quotient is too large by `over`, and the rest may contain the divisor up to twice.
#[derive(Clone, Copy)]
struct Estimate {
    quotient: u64,
    over: u64,
    rest: u64,
}
