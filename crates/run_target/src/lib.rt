// The way from a moment to a target in steps of one length.

#![tactic(auto)]

ghost use Rattle.std.specs.Prelude.{◌≡◌, ◌&&◌};
ghost use Rattle.base.specs.Choice.{◌≤?◌};
ghost use Rattle.run_target.specs.Target.{step_allowed, within_steps, target_checks};

use base::{Refusal, require};

const LONGEST_STEP: u32 = 86_400_000;

fn step_is_allowed(h: u32) -> bool
    ensures { result ≡ step_allowed h }
{
    if h < 2 {
        return false;
    }
    if LONGEST_STEP < h {
        return false;
    }
    h % 2 == 0
}

// No number of steps of length 0 reaches a target.
fn is_within_steps(moment: u64, h: u32, target: u64) -> bool
    ensures { result ≡ ((1 ≤? h) && within_steps moment h target) }
{
    if h < 1 {
        return false;
    }
    if target < moment {
        return false;
    }
    (target - moment) % (h as u64) == 0
}

// The checks of step length and target, 2 and 5.
#[tactic(auto, using(crate::proofs::Order::last_two), unfolding(crate::specs::Target::target_checks))]
pub fn target_checks(moment: u64, h: u32, target: u64) -> Result<(), Refusal>
    ensures { result ≡ target_checks moment h target }
{
    require(step_is_allowed(h), Refusal::Step)?;
    require(is_within_steps(moment, h, target), Refusal::Target)
}
