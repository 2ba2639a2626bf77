// Whether a second book is fuller than a first one, for C and Rust. Returns 0 if the second holds every entry of the
// first and 104 if not. Returns 1 if one of the two does not pass.

#![tactic(auto)]

ghost use Rattle.std.specs.Prelude.{◌≡◌};
ghost use Rattle.book_holds.specs.Answer.{holds_answer};
ghost use Rattle.c_answer.specs.Handed.{handed};
ghost use Rattle.belfry_book.specs.Lent.{of_holds};

#[unsafe(no_mangle)]
pub extern "C" fn belfry_book_holds(first: &[u8], second: &[u8], missing: &mut u64) -> u64
    ensures { handed result missing.new ≡ of_holds missing.old
        (holds_answer first.now second.now) }
{
    match book_holds::book_holds(first, second) {
        Ok(None) => 0,
        Ok(Some(i)) => {
            *missing = i as u64;
            104
        }
        Err(refusal) => refusal.number(),
    }
}
