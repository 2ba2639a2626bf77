// The static library of belfry_centre: each export has the clauses of the call that it passes on.
//
// The calls of document 02 for C and Rust that take the whole setting and a state about any centre. They take numbers
// and the caller's memory. Each returns 0 if the input is accepted, else the refusal number. A run that is still
// going returns 100.

#![tactic(auto)]

ghost use Rattle.std.specs.Prelude.{◌≡◌};
ghost use Rattle.gravity.specs.Acceleration.{acceleration_answer};
ghost use Rattle.gravity_stored.specs.Injection.{injection_answer};
ghost use Rattle.run.specs.Run.{run_answer};
ghost use Rattle.centre.specs.Move.{move_answer};
ghost use Rattle.earth_fixed.specs.Fixed.{fixed_answer};
ghost use Rattle.conic.specs.Conic.{conic_answer};
ghost use Rattle.c_answer.specs.Handed.{handed, answered};
ghost use Rattle.c_run.specs.Lent.{setting_of, vector_of, injection_of, state_of, unkept_of, guesses_of};
ghost use Rattle.c_conic.specs.Figures.{both_in, of_conic};
ghost use Rattle.c_run.specs.Answers.{of_acceleration, of_injection, of_move, run_memory, of_flight};
ghost use Rattle.c_earth.specs.Earth.{of_fixed};

#[unsafe(no_mangle)]
pub extern "C" fn belfry_pull(
    book: &[u8],
    coefficients: &[f64; 6],
    extras: &[f64; 3],
    dut: u32,
    rule: u64,
    moment: u64,
    centre: u64,
    position: &[f64; 3],
    acceleration: &mut [f64; 3],
) -> u64
    ensures { handed result acceleration.new ≡ answered acceleration.old
        (of_acceleration (acceleration_answer book.now (setting_of coefficients.now extras.now dut rule) centre moment
        (vector_of position.now))) }
{
    belfry_centre::belfry_pull(
        book,
        coefficients,
        extras,
        dut,
        rule,
        moment,
        centre,
        position,
        acceleration,
    )
}

// (02, R-8) The state with the acceleration that the rule gives it.
#[unsafe(no_mangle)]
pub extern "C" fn belfry_inject(
    book: &[u8],
    coefficients: &[f64; 6],
    extras: &[f64; 3],
    dut: u32,
    rule: u64,
    moment: u64,
    centre: u64,
    coordinates: &[f64; 6],
    state: &mut [f64; 9],
) -> u64
    ensures { handed result state.new ≡ answered state.old
        (of_injection (injection_answer book.now (setting_of coefficients.now extras.now dut rule)
        (injection_of moment centre coordinates.now))) }
{
    belfry_centre::belfry_inject(
        book,
        coefficients,
        extras,
        dut,
        rule,
        moment,
        centre,
        coordinates,
        state,
    )
}

// Input and output are separate arrays: the next call reads what this one wrote. The centre is the one given.
#[unsafe(no_mangle)]
pub extern "C" fn belfry_fly(
    book: &[u8],
    coefficients: &[f64; 6],
    extras: &[f64; 3],
    dut: u32,
    rule: u64,
    moment: u64,
    centre: u64,
    coordinates: &[f64; 9],
    h: u32,
    target: u64,
    budget: u32,
    guesses: &[u64; 5],
    reached: &mut u64,
    there: &mut [f64; 9],
    entries: &mut [u64; 5],
    steps: &mut u32,
) -> u64
    ensures { run_memory result reached.new there.new entries.new steps.new ≡ of_flight
        (run_answer book.now (setting_of coefficients.now extras.now dut rule)
        (state_of moment centre coordinates.now) h target budget (guesses_of guesses.now)) }
{
    belfry_centre::belfry_fly(
        book,
        coefficients,
        extras,
        dut,
        rule,
        moment,
        centre,
        coordinates,
        h,
        target,
        budget,
        guesses,
        reached,
        there,
        entries,
        steps,
    )
}

#[unsafe(no_mangle)]
pub extern "C" fn belfry_move(
    book: &[u8],
    coefficients: &[f64; 6],
    extras: &[f64; 3],
    dut: u32,
    rule: u64,
    moment: u64,
    centre: u64,
    coordinates: &[f64; 9],
    new: u64,
    moved: &mut [f64; 9],
) -> u64
    ensures { handed result moved.new ≡ answered moved.old
        (of_move (move_answer book.now (setting_of coefficients.now extras.now dut rule)
        (state_of moment centre coordinates.now) new)) }
{
    belfry_centre::belfry_move(
        book,
        coefficients,
        extras,
        dut,
        rule,
        moment,
        centre,
        coordinates,
        new,
        moved,
    )
}

// Earth-fixed coordinates by a rule of the hour angle.
#[unsafe(no_mangle)]
pub extern "C" fn belfry_turn(
    rule: u64,
    dut: u32,
    moment: u64,
    centre: u64,
    coordinates: &[f64; 6],
    turned: &mut [f64; 6],
) -> u64
    ensures { handed result turned.new ≡ answered turned.old
        (of_fixed (fixed_answer rule dut (unkept_of moment centre coordinates.now))) }
{
    belfry_centre::belfry_turn(rule, dut, moment, centre, coordinates, turned)
}

#[unsafe(no_mangle)]
pub extern "C" fn belfry_orbit(
    m: f64,
    moment: u64,
    centre: u64,
    coordinates: &[f64; 6],
    names: &mut [u64; 2],
    figures: &mut [f64; 5],
) -> u64
    ensures { handed result (both_in names.new figures.new) ≡ answered (both_in names.old figures.old)
        (of_conic (conic_answer m (unkept_of moment centre coordinates.now))) }
{
    belfry_centre::belfry_orbit(m, moment, centre, coordinates, names, figures)
}
