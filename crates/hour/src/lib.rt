// The hour angle of a moment, in parts of 10^-10 degree, by document 01's rule or by that of 1982.

#![tactic(auto)]

ghost use Rattle.std.specs.Prelude.{◌≡◌, ◌<◌, ◌≤◌};
ghost use Rattle.base.specs.Limits.{day_length, last_day};
ghost use Rattle.hour.specs.Hour.{hour_answer, sidereal_angle, sidereal_answer};

use base::Refusal;

// Rule 0 is document 01's, rule 1 that of 1982.
pub const LAST_RULE: u64 = 1;

// The rule is 0 or 1.
fn angle_by(rule: u64, d: u64, t: u64) -> u64
    requires { (rule ≤ 1) × ((d ≤ last_day) × (t < day_length)) }
    ensures { result ≡ sidereal_angle rule d t }
{
    if rule == 0 {
        return hour_old::inner::angle(d, t);
    }
    hour_1982::inner::angle_1982(d, t)
}

pub fn sidereal(rule: u64, moment: u64, dut: u32) -> Result<u64, Refusal>
    ensures { result ≡ sidereal_answer rule moment dut }
{
    if base::LONGEST_DUT < dut {
        return Err(Refusal::Setting);
    }
    if LAST_RULE < rule {
        return Err(Refusal::Setting);
    }
    if base::END_OF_TIME <= moment {
        return Err(Refusal::Moment);
    }
    let lag = dut as u64;
    if lag <= moment {
        let ut = moment - lag;
        return Ok(angle_by(rule, ut / base::DAY_LENGTH, ut % base::DAY_LENGTH));
    }
    Err(Refusal::Moment)
}

pub fn hour_angle(moment: u64, dut: u32) -> Result<u64, Refusal>
    ensures { result ≡ hour_answer moment dut }
{
    sidereal(0, moment, dut)
}
