// Roots for the crates above. The caller knows that the float is finite and not negative, or refuses the NaN itself.
// If `root` refuses a float, these inner functions answer as IEEE 754 does. A number below zero or a NaN gives a NaN,
// and +infinity gives itself.

ghost use Rattle.std.specs.Prelude.{◌≡◌};
ghost use Rattle.root.specs.Root.{root_of, roots_of};

use crate::parts;
use root_digits::inner::nearest_roots;
use root_split::{Parts, opened};

pub fn square_root(x: f64) -> f64
    ensures { result ≡ root_of x }
{
    square_roots([x])[0]
}

// Roots side by side: three in little more time than one.
pub fn square_roots<const N: usize>(xs: [f64; N]) -> [f64; N]
    ensures { result ≡ roots_of xs.entry }
{
    let mut parts = [Parts { m: 0, half: 0 }; N];
    let mut digits = [0; N];
    for (k, &x) in xs.iter().enumerate() {
        let p = opened(x);
        parts[k] = p;
        digits[k] = p.m;
    }
    let wholes = nearest_roots(digits);
    let mut roots = xs;
    for (k, root) in roots.iter_mut().enumerate() {
        *root = parts::closed(xs[k], parts[k], wholes[k]);
    }
    roots
}
