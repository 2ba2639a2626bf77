// One step, stage by stage, for a book that is known to pass. Not a public call: the crates above call it after the
// checks of a run.

ghost use Rattle.std.specs.Prelude.{◌≡◌, ◌+◌, ◌/◌};
ghost use Rattle.book.specs.Calm.{Ready};
ghost use Rattle.state.specs.State.{acceleration};
ghost use Rattle.gravity.specs.Acceleration.{acceleration_at};
ghost use Rattle.gravity.specs.Sight.{sights};
ghost use Rattle.step_end.specs.Kept.{kept};
ghost use Rattle.step.specs.Step.{keeping, step};
ghost use Rattle.step.specs.Stages.{stage2, stage3, stage4};
ghost use Rattle.step.specs.Entries.{entries_after, MayStep};

use base::Refusal;
use gravity::inner::{acceleration_by, acceleration_under, seen_at};
use gravity::{Guesses, Sights};
use state::{Setting, State, Vector};
use step_end::Stepped;
use step_end::inner::finish;
use step_sums::{half_of, seconds, toward};

fn fourth_stage(
    book: &[u8],
    setting: Setting,
    s: State,
    h: u32,
    g: Guesses,
    calm: bool,
    a2: Vector,
    a3: Vector,
) -> Result<Stepped, Refusal>
    requires { (Ready book.now calm) × (MayStep setting s) }
    ensures { result ≡ kept (entries_after book.now setting h s) (stage4 (acceleration_at book.now setting s.centre)
        (keeping (acceleration_at book.now setting s.centre)) h s (acceleration s) a2 a3) }
{
    let v3 = toward(state::velocity_of(s), half_of(h), a2);
    let p4 = toward(state::position_of(s), seconds(h), v3);
    let seen = seen_at(book, setting, s.centre, s.moment + h as u64, g, calm, p4);
    let bodies = seen.bodies;
    let roots = seen.roots;
    let a4 = acceleration_by(bodies, setting, p4, roots)?;
    finish(setting, s, h, bodies, a2, a3, a4)
}

fn third_stage(
    book: &[u8],
    setting: Setting,
    s: State,
    h: u32,
    g: Guesses,
    calm: bool,
    bodies: Sights,
    a2: Vector,
) -> Result<Stepped, Refusal>
    requires ready { (Ready book.now calm) × (MayStep setting s) }
    requires bodies_value { bodies ≡ sights book.now setting s.centre (s.moment + h / 2) }
    ensures { result ≡ kept (entries_after book.now setting h s) (stage3 (acceleration_at book.now setting s.centre)
        (keeping (acceleration_at book.now setting s.centre)) h s (acceleration s) a2) }
{
    let half = half_of(h);
    let v2 = toward(state::velocity_of(s), half, state::acceleration_of(s));
    let p3 = toward(state::position_of(s), half, v2);
    let a3 = acceleration_under(bodies, setting, p3)?;
    fourth_stage(book, setting, s, h, g, calm, a2, a3)
}

// The acceleration of the first stage is the stored one. The two middle stages are at the same moment, so its bodies
// are looked up once.
fn second_stage(
    book: &[u8],
    setting: Setting,
    s: State,
    h: u32,
    g: Guesses,
    calm: bool,
) -> Result<Stepped, Refusal>
    requires { (Ready book.now calm) × (MayStep setting s) }
    ensures { result ≡ kept (entries_after book.now setting h s) (stage2 (acceleration_at book.now setting s.centre)
        (keeping (acceleration_at book.now setting s.centre)) h s (acceleration s)) }
{
    let p2 = toward(state::position_of(s), half_of(h), state::velocity_of(s));
    let seen = seen_at(
        book,
        setting,
        s.centre,
        s.moment + (h / 2) as u64,
        g,
        calm,
        p2,
    );
    let bodies = seen.bodies;
    let roots = seen.roots;
    let a2 = acceleration_by(bodies, setting, p2, roots)?;
    third_stage(book, setting, s, h, g, calm, bodies, a2)
}

// One step from s. `calm` may be true only for a book in which no velocity can overflow.
#[tactic(auto, unfolding(crate::specs::Step::step))]
pub fn step_under(
    book: &[u8],
    setting: Setting,
    s: State,
    h: u32,
    g: Guesses,
    calm: bool,
) -> Result<Stepped, Refusal>
    requires { (Ready book.now calm) × (MayStep setting s) }
    ensures { result ≡ kept (entries_after book.now setting h s) (step book.now setting h s) }
{
    second_stage(book, setting, s, h, g, calm)
}
