// Puts the root together from the parts of a float and the root of its digits.

ghost use Rattle.std.specs.Prelude.{◌≡◌, ◌*◌, ◌^◌};
ghost use Rattle.root_digits.specs.Nearest.{nearest_root};
ghost use Rattle.root_split.specs.Parts.{Opened};
ghost use Rattle.root.specs.Root.{root_of};

use root_split::Parts;

// The root of x, if q is the root of its digits. A zero and a NaN are their own roots.
pub fn closed(x: f64, p: Parts, q: u64) -> f64
    requires { Opened x p.m p.half × (q ≡ nearest_root (p.m * 2 ^ 52)) }
    ensures { result ≡ root_of x }
{
    let top = f64::from_bits(0x7ff0_0000_0000_0000);
    if x < 0.0 {
        // infinity less infinity is a NaN
        return top - top;
    }
    if 0.0 < x {
        if x < top {
            return f64::from_bits((p.half << 52) + q);
        }
        return top;
    }
    x
}
