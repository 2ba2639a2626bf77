// Where two listings differ: which listing has the next state, and the order of the parts of the report.

#![tactic(auto)]

pub mod same;

ghost use Rattle.std.specs.Prelude.{◌≡◌, Some, None};
ghost use Rattle.compare_report.specs.Report.{part_after};
ghost use Rattle.compare_report.specs.Turns.{takes, side_of};

use listing_scan::Row;

#[derive(Clone, Copy)]
pub enum Component {
    X,
    Y,
    Z,
    VX,
    VY,
    VZ,
}

// Which listing has the next state in moment order: the first, the second, both, or neither.
#[derive(Clone, Copy)]
pub struct Side {
    pub first: bool,
    pub second: bool,
}

// The parts of a report, in their order. After the end it is over.
#[derive(Clone, Copy)]
pub enum Part {
    Header,
    States,
    Outcome,
    End,
    Over,
}

// The next part of the report.
pub fn next_part(part: Part) -> Part
    ensures { result ≡ part_after part }
{
    match part {
        Part::Header => Part::States,
        Part::States => Part::Outcome,
        Part::Outcome => Part::End,
        Part::End => Part::Over,
        Part::Over => Part::Over,
    }
}

fn next_of(first: bool, second: bool) -> Side
    ensures { result ≡ takes first second }
{
    Side { first, second }
}

fn side_of_rows(r: Row, s: Row) -> Side
    ensures { result ≡ side_of (Some r) (Some s) }
{
    if r.moment < s.moment {
        return next_of(true, false);
    }
    if s.moment < r.moment {
        return next_of(false, true);
    }
    next_of(true, true)
}

fn side_with(r: Row, second: Option<Row>) -> Side
    ensures { result ≡ side_of (Some r) second }
{
    match second {
        Some(s) => side_of_rows(r, s),
        None => next_of(true, false),
    }
}

fn side_without(second: Option<Row>) -> Side
    ensures { result ≡ side_of None second }
{
    match second {
        Some(_) => next_of(false, true),
        None => next_of(false, false),
    }
}

pub fn side_of(first: Option<Row>, second: Option<Row>) -> Side
    ensures { result ≡ side_of first second }
{
    match first {
        Some(row) => side_with(row, second),
        None => side_without(second),
    }
}
