// Roots for the crates above. The caller knows that the floats are finite and not negative, or refuses the NaN
// itself.

ghost use Rattle.std.specs.Prelude.{◌≡◌, true};
ghost use Rattle.root.specs.Root.{root_of};
ghost use Rattle.root_known.specs.Known.{same_above, rooted_of_all, AreRoots};

use crate::Rooted;
use root::inner::{square_root, square_roots};

// Roots side by side, each kept with its number.
pub fn rooted<const N: usize>(ns: [f64; N]) -> [Rooted; N]
    ensures { result ≡ rooted_of_all ns.entry }
{
    let roots = square_roots(ns);
    let mut known = [Rooted { n: 0.0, root: 0.0 }; N];
    for (k, r) in known.iter_mut().enumerate() {
        *r = Rooted {
            n: ns[k],
            root: roots[k],
        };
    }
    known
}

// Whether two floats are the same float above zero. Zeros are left out: 0.0 equals -0.0, but each is its own root.
fn same_above_zero(a: f64, b: f64) -> bool
    ensures { (result ≡ same_above a b) × (result ≡ true → a ≡ b) }
{
    if 0.0 < a {
        if a == b {
            return true;
        }
    }
    false
}

// The root of n: taken from the known ones if n is among them, else computed.
pub fn root_among(n: f64, known: &[Rooted]) -> f64
    requires { AreRoots known.now }
    ensures { result ≡ root_of n }
{
    for r in known {
        if same_above_zero(n, r.n) {
            return r.root;
        }
    }
    square_root(n)
}
