// The square root of a float, by additions, shifts and comparisons of whole numbers.

#![tactic(auto)]

pub mod inner;
mod parts;

ghost use Rattle.std.specs.Prelude.{◌≡◌};
ghost use Rattle.root.specs.Root.{root_answer};

use base::Refusal;

// The root of a finite float that is not negative, or refusal 11.
pub fn root(x: f64) -> Result<f64, Refusal>
    ensures { result ≡ root_answer x }
{
    if base::is_finite(x) {
        if x < 0.0 {
            return Err(Refusal::Root);
        }
        return Ok(inner::square_root(x));
    }
    Err(Refusal::Root)
}
