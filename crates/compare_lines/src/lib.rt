// The header and outcome lines of two listings, compared whole and printed if they differ. Lines may have any length:
// one block of each is read at a time.

#![tactic(auto)]

pub mod inner;

ghost use Rattle.std.specs.Prelude.{◌≡◌};
ghost use Rattle.compare_lines.specs.Stages.{line_of, wants_first, wants_second, place_of};

use compare_report::Part;
use listing_read::Verdict;

// A line of a listing: where it starts. A header that is not there counts as -.
#[derive(Clone, Copy)]
pub struct Line {
    pub from: u64,
    pub there: bool,
}

// The stage of the report on two lines: that many bytes are the same in both, that many bytes of the first or the
// second are printed, or it is done.
#[derive(Clone, Copy)]
pub enum Stage {
    Comparing(u64),
    First(u64),
    Second(u64),
    Over,
}

// The result for two blocks of lines: both lines end and are the same, they differ, or that many bytes are the same
// and more follow.
#[derive(Clone, Copy)]
pub enum Likeness {
    Same,
    Differ,
    SoFar(usize),
}

// The stage after some blocks, and how many bytes of them are printed.
#[derive(Clone, Copy)]
pub struct Turn {
    pub stage: Stage,
    pub written: usize,
}

// The line that a part of the report is about, by the verdict on its listing.
pub fn line_of(part: Part, v: Verdict) -> Line
    ensures { result ≡ line_of part v }
{
    match part {
        Part::Header => Line {
            from: 0,
            there: 0 < v.rows,
        },
        Part::States => outcome_line(v),
        Part::Outcome => outcome_line(v),
        Part::End => outcome_line(v),
        Part::Over => outcome_line(v),
    }
}

fn outcome_line(v: Verdict) -> Line
    ensures { result ≡ line_of Part.Outcome v }
{
    Line {
        from: v.outcome,
        there: true,
    }
}

// Whether the next turn reads a block of the first line, or of the second, and from which byte of the line on.
pub fn wants_first(stage: Stage) -> bool
    ensures { result ≡ wants_first stage }
{
    match stage {
        Stage::Comparing(_) => true,
        Stage::First(_) => true,
        Stage::Second(_) => false,
        Stage::Over => false,
    }
}

pub fn wants_second(stage: Stage) -> bool
    ensures { result ≡ wants_second stage }
{
    match stage {
        Stage::Comparing(_) => true,
        Stage::First(_) => false,
        Stage::Second(_) => true,
        Stage::Over => false,
    }
}

pub fn place_of(stage: Stage) -> u64
    ensures { result ≡ place_of stage }
{
    match stage {
        Stage::Comparing(d) => d,
        Stage::First(d) => d,
        Stage::Second(d) => d,
        Stage::Over => 0,
    }
}
