// Sine and cosine of an angle in parts of 10^-10 degree, by octants and two polynomials.

#![tactic(auto)]

pub mod inner;

ghost use Rattle.std.specs.Prelude.{◌≡◌};
ghost use Rattle.sine.specs.Sine.{sine_cosine_answer};

use base::{CIRCLE, Refusal};

#[derive(Clone, Copy)]
pub struct SineCosine {
    pub sine: f64,
    pub cosine: f64,
}

pub fn sine_cosine(parts: u64) -> Result<SineCosine, Refusal>
    ensures { result ≡ sine_cosine_answer parts }
{
    if parts < CIRCLE {
        return Ok(inner::of_parts(parts));
    }
    Err(Refusal::Angle)
}
