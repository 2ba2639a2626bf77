// Float steps: the distance between two floats, counted in floats.

#![tactic(auto)]

ghost use Rattle.std.specs.Prelude.{◌≡◌};
ghost use Rattle.compare_steps.specs.Steps.{place, steps};

fn place_of(bits: u64) -> u64
    ensures { result ≡ place bits }
{
    if bits < 0x8000_0000_0000_0000 {
        return 0x8000_0000_0000_0000 + bits;
    }
    0xffff_ffff_ffff_ffff - bits
}

// The float steps from the float of one bit pattern to that of another.
pub fn steps_between(a: u64, b: u64) -> u64
    ensures { result ≡ steps a b }
{
    let p = place_of(a);
    let q = place_of(b);
    if p < q {
        return q - p;
    }
    p - q
}
