// The figures of a conic, from numbers and in the caller's memory.

#![tactic(auto)]

ghost use Rattle.std.specs.Prelude.{◌≡◌};
ghost use Rattle.conic.specs.Conic.{conic_answer};
ghost use Rattle.c_answer.specs.Handed.{handed, answered};
ghost use Rattle.c_state.specs.Groups.{unkept_of};
ghost use Rattle.c_conic.specs.Figures.{kind_of, figures_of, both_in, of_conic};

use c_state::unkept_of;
use conic::Conic;

fn kind_of(conic: Conic) -> u64
    ensures { result ≡ kind_of conic }
{
    match conic {
        Conic::Ellipse { a, e, p, q, far } => 1,
        Conic::Hyperbola { a, e, p, q, v } => 2,
    }
}

fn figures_of(conic: Conic) -> [f64; 5]
    ensures { result ≡ figures_of conic }
{
    match conic {
        Conic::Ellipse { a, e, p, q, far } => [a, e, p, q, far],
        Conic::Hyperbola { a, e, p, q, v } => [a, e, p, q, v],
    }
}

pub fn orbit(
    m: f64,
    moment: u64,
    centre: u64,
    coordinates: &[f64; 6],
    names: &mut [u64; 2],
    figures: &mut [f64; 5],
) -> u64
    ensures { handed result (both_in names.new figures.new) ≡ answered (both_in names.old figures.old)
        (of_conic (conic_answer m (unkept_of moment centre coordinates.now))) }
{
    match conic::conic_figures(m, unkept_of(moment, centre, *coordinates)) {
        Ok(c) => {
            let conic = c.conic;
            *names = [c.centre, kind_of(conic)];
            *figures = figures_of(conic);
            0
        }
        Err(refusal) => refusal.number(),
    }
}
