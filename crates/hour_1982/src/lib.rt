// The rule of 1982 for the hour angle, as one fraction rounded down once.

#![tactic(auto)]

pub mod inner;

// whole + first/73,050 + second/73,050²
#[derive(Clone, Copy)]
struct Spans {
    whole: u64,
    first: u64,
    second: u64,
}

// The same with a third digit.
#[derive(Clone, Copy)]
struct DaySpans {
    whole: u64,
    first: u64,
    second: u64,
    third: u64,
}
