// The bodies looked up at a moment, seen from the Earth.

#![tactic(auto)]

pub mod inner;

ghost use Rattle.std.specs.Prelude.{◌≡◌};
ghost use Rattle.base.specs.Choice.{if◌then◌otherwise◌};
ghost use Rattle.gravity_bodies.specs.Looked.{blank, all_found, place_in, besides};

use base::Refusal;
use state::Vector;

// One body looked up at a moment: whether it was refused, and its position seen from the Earth. A refusal is held as
// an R, which may be any number.
#[derive(Clone, Copy)]
pub struct Sight<R = Refusal> {
    pub checked: Result<(), R>,
    pub entry: usize,
    pub m: f64,
    pub place: Vector,
}

// The Moon and the Sun, looked up together.
#[derive(Clone, Copy)]
pub struct TwoSights {
    pub first: Sight,
    pub second: Sight,
}

#[derive(Clone, Copy)]
pub struct Found<R = Refusal> {
    pub moon: Sight<R>,
    pub sun: Sight<R>,
    pub venus: Sight<R>,
    pub mars: Sight<R>,
    pub jupiter: Sight<R>,
}

// (02, R-6) The five bodies other than the centre, in rising number.
#[derive(Clone, Copy)]
pub struct Besides<R = Refusal> {
    pub first: Sight<R>,
    pub second: Sight<R>,
    pub third: Sight<R>,
    pub fourth: Sight<R>,
    pub fifth: Sight<R>,
}

// A body about which nothing is known; and the Earth, whose position is zero.
pub fn blank_sight<R: Copy>(m: f64, checked: Result<(), R>) -> Sight<R>
    ensures { result ≡ blank m checked }
{
    let place = Vector {
        x: 0.0,
        y: 0.0,
        z: 0.0,
    };
    Sight {
        checked,
        entry: 0,
        m,
        place,
    }
}

// The refusal of the first body that is refused.
#[tactic(auto, unfolding(crate::specs::Looked::all_found, crate::specs::Looked::all_checked))]
pub fn all_found<R: Copy>(bodies: Found<R>) -> Result<(), R>
    ensures { result ≡ all_found bodies }
{
    bodies.moon.checked?;
    bodies.sun.checked?;
    bodies.venus.checked?;
    bodies.mars.checked?;
    bodies.jupiter.checked
}

// The position of the centre, seen from the Earth.
pub fn centre_place<R: Copy>(centre: u64, bodies: Found<R>) -> Vector
    ensures { result ≡ place_in bodies centre }
{
    let moon = bodies.moon;
    let sun = bodies.sun;
    let venus = bodies.venus;
    let mars = bodies.mars;
    let jupiter = bodies.jupiter;
    match centre {
        2 => moon.place,
        3 => sun.place,
        4 => venus.place,
        5 => mars.place,
        6 => jupiter.place,
        _ => Vector {
            x: 0.0,
            y: 0.0,
            z: 0.0,
        },
    }
}

fn either<R: Copy>(a: bool, x: Sight<R>, y: Sight<R>) -> Sight<R>
    ensures { result ≡ (if a then x otherwise y) }
{
    if a { x } else { y }
}

// The bodies other than the centre, in rising number.
pub fn beside<R: Copy>(centre: u64, earth: Sight<R>, bodies: Found<R>) -> Besides<R>
    ensures { result ≡ besides centre earth bodies }
{
    let moon = bodies.moon;
    let sun = bodies.sun;
    let venus = bodies.venus;
    let mars = bodies.mars;
    let jupiter = bodies.jupiter;
    let first = either(centre <= 1, moon, earth);
    let second = either(centre <= 2, sun, moon);
    let third = either(centre <= 3, venus, sun);
    let fourth = either(centre <= 4, mars, venus);
    let fifth = either(centre <= 5, jupiter, mars);
    Besides {
        first,
        second,
        third,
        fourth,
        fifth,
    }
}
