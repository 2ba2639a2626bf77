// The acceleration and the injection, from numbers and in the caller's memory.

#![tactic(auto)]

ghost use Rattle.std.specs.Prelude.{◌≡◌};
ghost use Rattle.gravity.specs.Acceleration.{acceleration_answer};
ghost use Rattle.gravity_stored.specs.Injection.{injection_answer};
ghost use Rattle.c_answer.specs.Handed.{handed, answered};
ghost use Rattle.c_state.specs.Groups.{setting_of, vector_of, injection_of, vector_in, whole_in};
ghost use Rattle.c_gravity.specs.Answers.{of_acceleration, of_injection};

use c_answer::hand_out;
use c_state::{injection_of, setting_of, vector_in, vector_of, whole_in};

pub fn pull(
    book: &[u8],
    coefficients: &[f64; 6],
    extras: &[f64; 3],
    dut: u32,
    rule: u64,
    moment: u64,
    centre: u64,
    position: &[f64; 3],
    acceleration: &mut [f64; 3],
) -> u64
    ensures { handed result acceleration.new ≡ answered acceleration.old
        (of_acceleration (acceleration_answer book.now (setting_of coefficients.now extras.now dut rule) centre moment
        (vector_of position.now))) }
{
    let setting = setting_of(*coefficients, *extras, dut, rule);
    let answer = gravity::acceleration(book, setting, centre, moment, vector_of(*position));
    hand_out(answer.map(vector_in), acceleration)
}

// The state with the acceleration that the rule gives it.
pub fn inject(
    book: &[u8],
    coefficients: &[f64; 6],
    extras: &[f64; 3],
    dut: u32,
    rule: u64,
    moment: u64,
    centre: u64,
    coordinates: &[f64; 6],
    state: &mut [f64; 9],
) -> u64
    ensures { handed result state.new ≡ answered state.old
        (of_injection (injection_answer book.now (setting_of coefficients.now extras.now dut rule)
        (injection_of moment centre coordinates.now))) }
{
    let setting = setting_of(*coefficients, *extras, dut, rule);
    let answer = gravity_stored::inject(book, setting, injection_of(moment, centre, *coordinates));
    hand_out(answer.map(whole_in), state)
}
