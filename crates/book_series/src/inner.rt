// The Chebyshev series of an entry and its slopes, X, Y and Z side by side.

ghost use Rattle.std.specs.Prelude.{true, ◌≡◌, ◌+◌, ◌*◌, ◌<◌, ◌≤◌, length};
ghost use Rattle.book_check.specs.Contents.{float_of};
ghost use Rattle.book_check.specs.Check.{floats_finite};
ghost use Rattle.book_series.specs.Series.{argument, InSpan, place_by, velocity_by, block_of};
ghost use Rattle.book_series.specs.Axis.{axis_none, axis_turn, axis_speed};
ghost use Rattle.book_series.specs.Sums.{sums_none, sums_turn, sums_place};

use crate::coefficients::Coefficients;
use crate::{Place, TwoPlaces, Velocity};

// One axis of the series: b(k), b(k+1) of its value and d(k), d(k+1) of its slope.
#[derive(Clone, Copy)]
pub struct Axis {
    pub here: f64,
    pub next: f64,
    pub slope: f64,
    pub after: f64,
}

// The running sums of one body: b(k) of each axis, and b(k+1) with a 1 in the name.
#[derive(Clone, Copy)]
pub struct Sums {
    pub x: f64,
    pub x1: f64,
    pub y: f64,
    pub y1: f64,
    pub z: f64,
    pub z1: f64,
}

// For a moment that the entry covers: 2(t - s) - L is below 2^42 in size, so each cast is exact.
pub fn argument_at(start: u64, span: u64, moment: u64) -> f64
    requires { InSpan start span moment }
    ensures { result ≡ argument start span moment }
{
    let length = span as i64;
    let numerator = 2 * ((moment - start) as i64) - length;
    (numerator as f64) / (length as f64)
}

// The sums before the first coefficient.
fn no_sums() -> Sums
    ensures { result ≡ sums_none }
{
    Sums {
        x: 0.0,
        x1: 0.0,
        y: 0.0,
        y1: 0.0,
        z: 0.0,
        z1: 0.0,
    }
}

// The sums with coefficient k of each axis. `twice` is 2w.
fn turn_of(s: Sums, c: &Coefficients<'_>, k: usize, twice: f64) -> Sums
    requires { k < c.now.n }
    ensures { result ≡ sums_turn twice (float_of c.now.book.now c.now.offset) c.now.n k s }
{
    Sums {
        x: (twice * s.x - s.x1) + c.at(k),
        x1: s.x,
        y: (twice * s.y - s.y1) + c.at(c.n + k),
        y1: s.y,
        z: (twice * s.z - s.z1) + c.at(2 * c.n + k),
        z1: s.z,
    }
}

// The position, from the sums down to coefficient 1.
fn place_of(s: Sums, c: &Coefficients<'_>, w: f64) -> Place
    ensures { result ≡ sums_place w (float_of c.now.book.now c.now.offset) c.now.n s }
{
    Place {
        x: (w * s.x - s.x1) + c.at(0),
        y: (w * s.y - s.y1) + c.at(c.n),
        z: (w * s.z - s.z1) + c.at(2 * c.n),
    }
}

// Requires n finite floats for each of X, Y and Z in the block at offset.
pub fn series_at(book: &[u8], offset: usize, n: usize, w: f64) -> Place
    requires le_n { (1 ≤ n) × (n ≤ 16) × (offset + 24 * n ≤ length book.now) }
    requires n_value { floats_finite book.now offset (3 * n) ≡ true }
    ensures { result ≡ place_by (block_of (float_of book.now offset) n) w }
{
    let c = Coefficients { book, offset, n };
    let twice = 2.0 * w;
    let mut s = no_sums();
    for k in (1..n).rev() {
        s = turn_of(s, &c, k, twice);
    }
    place_of(s, &c, w)
}

// The series of two blocks, each as `series_at` computes it. One turn waits for the turn before it. In the loop that
// they share, each series runs while the other waits.
pub fn two_series_at(
    book: &[u8],
    offset: usize,
    n: usize,
    w: f64,
    offset2: usize,
    n2: usize,
    w2: f64,
) -> TwoPlaces
    requires le_n { (1 ≤ n) × (n ≤ 16) × (offset + 24 * n ≤ length book.now) }
    requires n_value { floats_finite book.now offset (3 * n) ≡ true }
    requires le_n2 { (1 ≤ n2) × (n2 ≤ 16) × (offset2 + 24 * n2 ≤ length book.now) }
    requires n2_value { floats_finite book.now offset2 (3 * n2) ≡ true }
    ensures first_value { result.first ≡ place_by (block_of (float_of book.now offset) n) w }
    ensures second_value { result.second ≡ place_by (block_of (float_of book.now offset2) n2) w2 }
{
    let c = Coefficients { book, offset, n };
    let c2 = Coefficients {
        book,
        offset: offset2,
        n: n2,
    };
    let twice = 2.0 * w;
    let twice2 = 2.0 * w2;
    let mut a = no_sums();
    let mut b = no_sums();
    let shared = n.min(n2);
    for k in (shared..n).rev() {
        a = turn_of(a, &c, k, twice);
    }
    for j in (shared..n2).rev() {
        b = turn_of(b, &c2, j, twice2);
    }
    for k in (1..shared).rev() {
        a = turn_of(a, &c, k, twice);
        b = turn_of(b, &c2, k, twice2);
    }
    let first = place_of(a, &c, w);
    let second = place_of(b, &c2, w2);
    TwoPlaces { first, second }
}

// No coefficient yet.
fn no_turn() -> Axis
    ensures { result ≡ axis_none }
{
    Axis {
        here: 0.0,
        next: 0.0,
        slope: 0.0,
        after: 0.0,
    }
}

fn one_turn(a: Axis, w: f64, c: f64) -> Axis
    ensures { result ≡ axis_turn w c a }
{
    let twice = 2.0 * w;
    Axis {
        here: (twice * a.here - a.next) + c,
        next: a.here,
        slope: (2.0 * a.here + twice * a.slope) - a.after,
        after: a.slope,
    }
}

fn speed_of(a: Axis, w: f64, span: f64) -> f64
    ensures { result ≡ axis_speed w span a }
{
    ((a.here + w * a.slope) - a.after) * 2000.0 / span
}

// The slopes of the same block. b is computed with d, because d needs it. `series_at` returns the values themselves.
pub fn slopes_at(book: &[u8], offset: usize, n: usize, w: f64, span: f64) -> Velocity
    requires le_n { (1 ≤ n) × (n ≤ 16) × (offset + 24 * n ≤ length book.now) }
    requires n_value { floats_finite book.now offset (3 * n) ≡ true }
    ensures { result ≡ velocity_by (block_of (float_of book.now offset) n) w span }
{
    let c = Coefficients { book, offset, n };
    let mut x = no_turn();
    let mut y = no_turn();
    let mut z = no_turn();
    for k in (1..n).rev() {
        x = one_turn(x, w, c.at(k));
        y = one_turn(y, w, c.at(n + k));
        z = one_turn(z, w, c.at(2 * n + k));
    }
    Velocity {
        x: speed_of(x, w, span),
        y: speed_of(y, w, span),
        z: speed_of(z, w, span),
    }
}
