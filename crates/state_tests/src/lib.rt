// Tests of single numbers: equal bits of two floats, an allowed coefficient, the number of a body, and whether a body
// is looked up.

#![tactic(auto)]

ghost use Rattle.std.specs.Prelude.{◌≡◌};
ghost use Rattle.state_tests.specs.Allowed.{same_bits, coefficient_allowed, earth_allowed, is_body, looked_up};

pub fn bits_agree(x: f64, y: f64) -> bool
    ensures { result ≡ same_bits x y }
{
    if base::is_finite(x) {
        if base::is_finite(y) {
            return f64::to_bits(x) == f64::to_bits(y);
        }
    }
    false
}

// Whether a body other than the Earth may have the coefficient m.
pub fn coefficient_is_allowed(m: f64) -> bool
    ensures { result ≡ coefficient_allowed m }
{
    if m < 0.0 {
        return false;
    }
    base::is_finite(m)
}

pub fn earth_is_allowed(m: f64) -> bool
    ensures { result ≡ earth_allowed m }
{
    if 0.0 < m {
        return base::is_finite(m);
    }
    false
}

// Whether there is a body of that number.
pub fn is_body(number: u64) -> bool
    ensures { result ≡ is_body number }
{
    if number < 1 {
        return false;
    }
    number <= 6
}

// (02, R-7) Whether a body is looked up: it pulls, or K is above 0 and it is the Sun.
pub fn is_looked_up(coefficient: f64, lit: bool) -> bool
    ensures { result ≡ looked_up coefficient lit }
{
    if 0.0 < coefficient {
        return true;
    }
    lit
}
