// The bodies at a moment about a centre, and the acceleration that they give. These functions require a book that
// passes: the crates above check the book first.

ghost use Rattle.std.specs.Prelude.{true, ◌≡◌};
ghost use Rattle.state.specs.State.{centre_allowed};
ghost use Rattle.book.specs.Passes.{passes};
ghost use Rattle.book.specs.Calm.{Ready};
ghost use Rattle.gravity.specs.Acceleration.{acceleration_at};
ghost use Rattle.gravity_bodies.specs.Looked.{found_in};
ghost use Rattle.gravity.specs.Sight.{
  other_by,
  other_of,
  others_of,
  any_used,
  RootsFor,
  RootsAt,
  entries_of,
  sights,
  settled_for,
  acceleration_for,
};

use crate::{Guesses, LastSeen, Others, OthersSeen, Seen, Sights};
use base::{Reason, Refusal};
use gravity_bodies::inner::{found, found_two};
use gravity_bodies::{Besides, Found, all_found, beside, blank_sight, centre_place};
pub use gravity_pull::pulls::difference;
use gravity_pull::pulls::{
    far_pulls, less_by, near_sum, near_sum_by, six_roots_at, three_far_pulls,
};
use gravity_pull::{CraftRoots, Other, Pull};
use gravity_terms::inner::{oblate_sum, sunlit_sum};
use state::{Setting, Vector};

fn found_in(book: &[u8], setting: Setting, moment: u64, guesses: Guesses, calm: bool) -> Found
    requires { Ready book.now calm }
    ensures { result ≡ found_in book.now setting moment }
{
    let shines = state::sun_shines(setting);
    let two = found_two(
        book,
        setting.moon,
        setting.sun,
        shines,
        moment,
        guesses.moon,
        guesses.sun,
        calm,
    );
    let moon = two.first;
    let sun = two.second;
    let venus = found(book, 4, setting.venus, false, moment, guesses.venus, calm);
    let mars = found(book, 5, setting.mars, false, moment, guesses.mars, calm);
    let jupiter = found(
        book,
        6,
        setting.jupiter,
        false,
        moment,
        guesses.jupiter,
        calm,
    );
    Found {
        moon,
        sun,
        venus,
        mars,
        jupiter,
    }
}

// A body with its pull on the centre, if it is used.
fn other_by(place: Vector, m: f64, by: Pull) -> Other
    ensures { result ≡ other_by place m by }
{
    if 0.0 < m {
        return Other { m, place, pull: by };
    }
    let pull = Pull {
        x: 0.0,
        y: 0.0,
        z: 0.0,
        sound: true,
    };
    Other { m, place, pull }
}

// Whether one of three bodies is used.
fn any_used(a: f64, b: f64, c: f64) -> bool
    ensures { result ≡ any_used a b c }
{
    if 0.0 < a {
        return true;
    }
    if 0.0 < b {
        return true;
    }
    0.0 < c
}

// The last three bodies beside the centre. If one of them is used, all their roots are computed side by side.
fn last_seen(c: Vector, bodies: Besides, p: Vector) -> LastSeen
    ensures third_value { (result.third ≡ other_of c bodies.third) × (result.fourth ≡ other_of c bodies.fourth) × (result.fifth ≡ other_of c bodies.fifth) }
    ensures roots_for { RootsFor p result.third result.fourth result.fifth result.roots }
{
    let d = bodies.third;
    let e = bodies.fourth;
    let f = bodies.fifth;
    let d_place = difference(d.place, c);
    let e_place = difference(e.place, c);
    let f_place = difference(f.place, c);
    if any_used(d.m, e.m, f.m) {
        let pulls = three_far_pulls(p, d_place, d.m, e_place, e.m, f_place, f.m);
        let by_d = pulls.first;
        let by_e = pulls.second;
        let by_f = pulls.third;
        let roots = pulls.roots;
        let third = other_by(d_place, d.m, by_d);
        let fourth = other_by(e_place, e.m, by_e);
        let fifth = other_by(f_place, f.m, by_f);
        return LastSeen {
            third,
            fourth,
            fifth,
            roots,
        };
    }
    let none = Pull {
        x: 0.0,
        y: 0.0,
        z: 0.0,
        sound: true,
    };
    let roots = [0.0; 3];
    let third = other_by(d_place, d.m, none);
    let fourth = other_by(e_place, e.m, none);
    let fifth = other_by(f_place, f.m, none);
    LastSeen {
        third,
        fourth,
        fifth,
        roots,
    }
}

// The pulls of the bodies on the centre are computed here, once for the moment. The first two bodies are almost always
// used, so theirs are computed side by side, and with them the roots for a first position p.
fn seen_from(c: Vector, bodies: Besides, p: Vector) -> OthersSeen
    ensures { (result.others ≡ others_of c bodies) × RootsAt p result.others result.roots }
{
    let a = bodies.first;
    let b = bodies.second;
    let a_place = difference(a.place, c);
    let b_place = difference(b.place, c);
    let pulls = far_pulls(p, a_place, a.m, b_place, b.m);
    let by_a = pulls.first;
    let by_b = pulls.second;
    let near = pulls.roots;
    let first = other_by(a_place, a.m, by_a);
    let second = other_by(b_place, b.m, by_b);
    let last = last_seen(c, bodies, p);
    let third = last.third;
    let fourth = last.fourth;
    let fifth = last.fifth;
    let later = last.roots;
    let others = Others {
        first,
        second,
        third,
        fourth,
        fifth,
    };
    let roots = CraftRoots { near, later };
    OthersSeen { others, roots }
}

fn entries_of(bodies: Found) -> Guesses
    ensures { result ≡ entries_of bodies }
{
    let moon = bodies.moon;
    let sun = bodies.sun;
    let venus = bodies.venus;
    let mars = bodies.mars;
    let jupiter = bodies.jupiter;
    Guesses {
        moon: moon.entry as u64,
        sun: sun.entry as u64,
        venus: venus.entry as u64,
        mars: mars.entry as u64,
        jupiter: jupiter.entry as u64,
    }
}

// The bodies at a moment, and the roots that a first position p there asks for.
pub fn seen_at(
    book: &[u8],
    setting: Setting,
    centre: u64,
    moment: u64,
    guesses: Guesses,
    calm: bool,
    p: Vector,
) -> Seen
    requires { Ready book.now calm }
    ensures { (result.bodies ≡ sights book.now setting centre moment) × RootsAt p result.bodies.others result.roots }
{
    let bodies = found_in(book, setting, moment, guesses, calm);
    let earth = blank_sight(setting.earth, Ok(()));
    let c = centre_place(centre, bodies);
    let seen = seen_from(c, beside(centre, earth, bodies), p);
    let others = seen.others;
    let roots = seen.roots;
    let sun = bodies.sun;
    let kept = Sights {
        checked: all_found(bodies),
        entries: entries_of(bodies),
        own: state::coefficient_of(setting, centre),
        home: difference(earth.place, c),
        sun: difference(sun.place, c),
        others,
    };
    Seen {
        bodies: kept,
        roots,
    }
}

fn settle<R: Reason>(sum: Pull) -> Result<Vector, R>
    ensures { result ≡ settled_for R.held sum }
{
    let a = Vector {
        x: sum.x,
        y: sum.y,
        z: sum.z,
    };
    if sum.sound {
        if state::vector_is_finite(a) {
            return Ok(a);
        }
    }
    Err(R::held(Refusal::NotFinite))
}

// The acceleration at p, if the roots for that position are known.
#[tactic(auto, unfolding(crate::specs::Sight::acceleration_for))]
pub fn acceleration_by<R: Reason>(
    bodies: Sights<R>,
    setting: Setting,
    p: Vector,
    roots: CraftRoots,
) -> Result<Vector, R>
    requires { RootsAt p bodies.others roots }
    ensures { result ≡ acceleration_for R.held bodies setting p }
{
    bodies.checked?;
    let others = bodies.others;
    let first = others.first;
    let second = others.second;
    let third = others.third;
    let fourth = others.fourth;
    let fifth = others.fifth;
    let later = roots.later;
    let near = near_sum_by(p, bodies.own, first, second, roots.near);
    let sum = near.sum;
    let known = near.known;
    let with_third = less_by(p, sum, third, later[0]);
    let with_fourth = less_by(p, with_third, fourth, later[1]);
    let all = less_by(p, with_fourth, fifth, later[2]);
    let with_earth = oblate_sum(setting, bodies.home, p, all, &known);
    settle(sunlit_sum(setting, bodies.sun, p, with_earth, &known))
}

// The same without known roots. All roots are computed side by side: three, or six if one of the last three bodies is
// used.
#[tactic(auto, unfolding(crate::specs::Sight::acceleration_for))]
pub fn acceleration_under<R: Reason>(
    bodies: Sights<R>,
    setting: Setting,
    p: Vector,
) -> Result<Vector, R>
    ensures { result ≡ acceleration_for R.held bodies setting p }
{
    bodies.checked?; // before any root is computed
    let others = bodies.others;
    let first = others.first;
    let second = others.second;
    let third = others.third;
    let fourth = others.fourth;
    let fifth = others.fifth;
    if any_used(third.m, fourth.m, fifth.m) {
        let roots = six_roots_at(
            p,
            first.place,
            second.place,
            third.place,
            fourth.place,
            fifth.place,
        );
        return acceleration_by(bodies, setting, p, roots);
    }
    let near = near_sum(p, bodies.own, first, second);
    let sum = near.sum;
    let known = near.known;
    let with_earth = oblate_sum(setting, bodies.home, p, sum, &known);
    settle(sunlit_sum(setting, bodies.sun, p, with_earth, &known))
}

// The rule itself. The book is known to pass, and the centre is known to be a used body.
pub fn rule(
    book: &[u8],
    setting: Setting,
    centre: u64,
    moment: u64,
    position: Vector,
) -> Result<Vector, Refusal>
    requires { (passes book.now ≡ true) × (centre_allowed setting centre ≡ true) }
    ensures { result ≡ acceleration_at book.now setting centre moment position }
{
    let g = Guesses {
        moon: 0,
        sun: 0,
        venus: 0,
        mars: 0,
        jupiter: 0,
    };
    let seen = seen_at(book, setting, centre, moment, g, false, position);
    let bodies = seen.bodies;
    let roots = seen.roots;
    acceleration_by(bodies, setting, position, roots)
}
