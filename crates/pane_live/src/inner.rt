// One component of the cubic between two states, for a frame with its velocity. This is no public call.

ghost use Rattle.std.specs.Prelude.{◌≡◌};
ghost use Rattle.pane_live.specs.Pane.{cubic};
ghost use Rattle.base.specs.Floats.{whole};

pub fn along_cubic(d: f64, s: f64, p0: f64, v0: f64, p1: f64, v1: f64) -> f64
    ensures { result ≡ cubic d s p0 v0 p1 v1 }
{
    let m0 = d * v0;
    let m1 = d * v1;
    let e = p1 - p0;
    let c2 = (3.0 * e - 2.0 * m0) - m1;
    let c3 = (m0 + m1) - 2.0 * e;
    p0 + s * (m0 + s * (c2 + s * c3))
}

// A whole number as the float nearest to it. Up to 2^53 it is one itself, which is one instruction.
pub fn to_float(n: u64) -> f64
    ensures { result ≡ whole n }
{
    if n <= 0x20_0000_0000_0000 {
        return n as f64;
    }
    std::num::nearest_u64_to_f64(n)
}
