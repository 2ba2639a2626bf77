// What each call for C and Rust does at its end: it returns a number, and writes the caller's memory if it is accepted.

#![tactic(auto)]

ghost use Rattle.std.specs.Prelude.{◌≡◌};
ghost use Rattle.c_answer.specs.Handed.{handed, answered};

use base::Refusal;

// Returns 0 and writes the value, or returns the number of the refusal and writes nothing.
pub fn hand_out<T: Copy>(answer: Result<T, Refusal>, memory: &mut T) -> u64
    ensures { handed result memory.new ≡ answered memory.old answer }
{
    match answer {
        Ok(value) => {
            *memory = value;
            0
        }
        Err(refusal) => refusal.number(),
    }
}
