// The pull of one body, and sums of pulls.

ghost use Rattle.std.specs.Prelude.{◌≡◌, ◌&&◌, not, [], ◌∷◌};
ghost use Rattle.std.specs.Float.Ieee.{eq};
ghost use Rattle.base.specs.Floats.{zero64};
ghost use Rattle.state.specs.State.{n};
ghost use Rattle.root.specs.Root.{roots_of};
ghost use Rattle.root_known.specs.Known.{AreRoots};
ghost use Rattle.gravity_pull.specs.Pull.{divisible, minus};
ghost use Rattle.gravity_pull.specs.Sum.{
  pull_by,
  pull_of,
  near_roots,
  far_pulls_of,
  three_far_pulls_of,
  six_roots_at,
  pulls_of,
  opposite,
  taken_off,
  less_near,
  RootFor,
  less_by,
  near_sum,
};

use crate::{CraftRoots, FarPulls, NearSum, Other, Pull, ThreeFarPulls, ThreePulls};
use root::inner::square_roots;
use root_known::Rooted;
use root_known::inner::{root_among, rooted};
use state::Vector;

fn differs_from_zero(x: f64) -> bool
    ensures { result ≡ not (eq x zero64) }
{
    if x == 0.0 { false } else { true }
}

fn divides(n: f64, r3: f64) -> bool
    ensures { result ≡ divisible n r3 }
{
    base::is_finite(n) && base::is_finite(r3) && differs_from_zero(r3)
}

// The pull of a body of coefficient m that lies v away, whose n and root are known.
fn pull_by(v: Vector, m: f64, n: f64, root: f64) -> Pull
    ensures { result ≡ pull_by v m n root }
{
    let r3 = n * root;
    Pull {
        x: m * v.x / r3,
        y: m * v.y / r3,
        z: m * v.z / r3,
        sound: divides(n, r3),
    }
}

// The pull of a body that lies v away, if some roots are known already.
pub fn pull_known(v: Vector, m: f64, known: &[Rooted]) -> Pull
    requires { AreRoots known.now }
    ensures { result ≡ pull_of v m }
{
    let n = state::square(v);
    pull_by(v, m, n, root_among(n, known))
}

// Three pulls at once: their roots are computed side by side, which takes little longer than one.
fn three_pulls(u: Vector, a: f64, v: Vector, b: f64, w: Vector, c: f64) -> ThreePulls
    ensures { result ≡ pulls_of u a v b w c }
{
    let known = rooted([state::square(u), state::square(v), state::square(w)]);
    let first = pull_by(u, a, known[0].n, known[0].root);
    let second = pull_by(v, b, known[1].n, known[1].root);
    let third = pull_by(w, c, known[2].n, known[2].root);
    ThreePulls {
        first,
        second,
        third,
        known,
    }
}

// The same three pulls, where their roots are known. One function behind both, given the numbers with their roots, was
// tried here and for `near_sum`: an acceleration took 4 to 20 % longer.
fn three_pulls_by(
    u: Vector,
    a: f64,
    v: Vector,
    b: f64,
    w: Vector,
    c: f64,
    roots: [f64; 3],
) -> ThreePulls
    requires { roots ≡ roots_of (n u ∷ n v ∷ n w ∷ []) }
    ensures { result ≡ pulls_of u a v b w c }
{
    let n_u = state::square(u);
    let n_v = state::square(v);
    let n_w = state::square(w);
    let first = pull_by(u, a, n_u, roots[0]);
    let second = pull_by(v, b, n_v, roots[1]);
    let third = pull_by(w, c, n_w, roots[2]);
    let known = [
        Rooted {
            n: n_u,
            root: roots[0],
        },
        Rooted {
            n: n_v,
            root: roots[1],
        },
        Rooted {
            n: n_w,
            root: roots[2],
        },
    ];
    ThreePulls {
        first,
        second,
        third,
        known,
    }
}

fn turned_round(p: Pull) -> Pull
    ensures { result ≡ opposite p }
{
    Pull {
        x: -p.x,
        y: -p.y,
        z: -p.z,
        sound: p.sound,
    }
}

pub fn difference(u: Vector, v: Vector) -> Vector
    ensures { result ≡ minus u v }
{
    Vector {
        x: u.x - v.x,
        y: u.y - v.y,
        z: u.z - v.z,
    }
}

// The pulls on the centre of two bodies, which stand at u and at v, and the roots that `near_sum` asks for at p: five roots are worked
// out side by side.
pub fn far_pulls(p: Vector, u: Vector, a: f64, v: Vector, b: f64) -> FarPulls
    ensures { result ≡ far_pulls_of p u a v b }
{
    let n_u = state::square(u);
    let n_v = state::square(v);
    let five = square_roots([
        n_u,
        n_v,
        state::square(p),
        state::square(difference(p, u)),
        state::square(difference(p, v)),
    ]);
    let first = pull_by(u, a, n_u, five[0]);
    let second = pull_by(v, b, n_v, five[1]);
    let roots = [five[2], five[3], five[4]];
    FarPulls {
        first,
        second,
        roots,
    }
}

// The same for the three bodies after them, at u, v and w: six roots are worked out side by side.
pub fn three_far_pulls(
    p: Vector,
    u: Vector,
    a: f64,
    v: Vector,
    b: f64,
    w: Vector,
    c: f64,
) -> ThreeFarPulls
    ensures { result ≡ three_far_pulls_of p u a v b w c }
{
    let n_u = state::square(u);
    let n_v = state::square(v);
    let n_w = state::square(w);
    let six = square_roots([
        n_u,
        n_v,
        n_w,
        state::square(difference(p, u)),
        state::square(difference(p, v)),
        state::square(difference(p, w)),
    ]);
    let first = pull_by(u, a, n_u, six[0]);
    let second = pull_by(v, b, n_v, six[1]);
    let third = pull_by(w, c, n_w, six[2]);
    let roots = [six[3], six[4], six[5]];
    ThreeFarPulls {
        first,
        second,
        third,
        roots,
    }
}

// All roots that the pulls on a craft at p ask for: of the centre, and of five bodies.
pub fn six_roots_at(p: Vector, u: Vector, v: Vector, w: Vector, x: Vector, y: Vector) -> CraftRoots
    ensures { result ≡ six_roots_at p u v w x y }
{
    let six = square_roots([
        state::square(p),
        state::square(difference(p, u)),
        state::square(difference(p, v)),
        state::square(difference(p, w)),
        state::square(difference(p, x)),
        state::square(difference(p, y)),
    ]);
    CraftRoots {
        near: [six[0], six[1], six[2]],
        later: [six[3], six[4], six[5]],
    }
}

fn take_off(sum: Pull, near: Pull, far: Pull) -> Pull
    ensures { result ≡ taken_off sum near far }
{
    Pull {
        x: sum.x - (near.x + far.x),
        y: sum.y - (near.y + far.y),
        z: sum.z - (near.z + far.z),
        sound: sum.sound & near.sound & far.sound,
    }
}

// Subtracts the pulls of a body from the sum. Its pull on the craft is known.
fn less_near(sum: Pull, b: Other, near: Pull) -> Pull
    ensures { result ≡ less_near sum b near }
{
    if 0.0 < b.m {
        let far = b.pull;
        return take_off(sum, near, far);
    }
    sum
}

// Subtracts the pulls of a body from the sum: on the craft at p, and on the centre. If the body is used, its root is
// known.
pub fn less_by(p: Vector, sum: Pull, b: Other, root: f64) -> Pull
    requires { RootFor p b root }
    ensures { result ≡ less_by p sum b }
{
    if 0.0 < b.m {
        let place = b.place;
        let far = b.pull;
        let v = difference(p, place);
        return take_off(sum, pull_by(v, b.m, state::square(v), root), far);
    }
    sum
}

// Minus the pull of the centre, minus those of the first two other bodies: the three that are almost always used.
// Also returns their roots.
pub fn near_sum(p: Vector, own: f64, first: Other, second: Other) -> NearSum
    ensures { result ≡ near_sum p own first second }
{
    let first_place = first.place;
    let second_place = second.place;
    let from_first = difference(p, first_place);
    let from_second = difference(p, second_place);
    let near = three_pulls(p, own, from_first, first.m, from_second, second.m);
    let by_centre = near.first;
    let by_first = near.second;
    let by_second = near.third;
    let known = near.known;
    let sum = less_near(
        less_near(turned_round(by_centre), first, by_first),
        second,
        by_second,
    );
    NearSum { sum, known }
}

// The same sum, where its three roots are known.
pub fn near_sum_by(p: Vector, own: f64, first: Other, second: Other, roots: [f64; 3]) -> NearSum
    requires { roots ≡ near_roots p first.place second.place }
    ensures { result ≡ near_sum p own first second }
{
    let first_place = first.place;
    let second_place = second.place;
    let from_first = difference(p, first_place);
    let from_second = difference(p, second_place);
    let near = three_pulls_by(p, own, from_first, first.m, from_second, second.m, roots);
    let by_centre = near.first;
    let by_first = near.second;
    let by_second = near.third;
    let known = near.known;
    let sum = less_near(
        less_near(turned_round(by_centre), first, by_first),
        second,
        by_second,
    );
    NearSum { sum, known }
}
