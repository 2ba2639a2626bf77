// The calls of document 01 about a state and its motion, for C and Rust. They take numbers and the caller's memory.
// An old call means an old order: centre 1, J, A and K zero, rule 0 and the acceleration that the rule gives.
// `belfry_centre` has the calls with all of these. Each returns 0 if the input is accepted, else the refusal number.
// A run that is still going returns 100.

#![tactic(auto)]

ghost use Rattle.std.specs.Prelude.{◌≡◌};
ghost use Rattle.gravity.specs.Acceleration.{acceleration_answer};
ghost use Rattle.gravity_stored.specs.Injection.{launched};
ghost use Rattle.run.specs.Run.{run_answer, single_step_answer};
ghost use Rattle.earth_fixed.specs.Fixed.{fixed_answer};
ghost use Rattle.launch.specs.Sphere.{sphere_answer};
ghost use Rattle.conic.specs.Conic.{conic_answer};
ghost use Rattle.c_answer.specs.Handed.{handed, answered};
ghost use Rattle.c_run.specs.Lent.{setting_of, no_extras, vector_of, injection_of, unkept_of, guesses_of, start_in};
ghost use Rattle.c_earth.specs.Earth.{sphere_of, of_fixed, of_sphere};
ghost use Rattle.c_conic.specs.Figures.{both_in, of_conic};
ghost use Rattle.c_run.specs.Answers.{of_acceleration, run_memory, of_run};

use c_answer::hand_out;
use c_state::start_in;

#[unsafe(no_mangle)]
pub extern "C" fn belfry_acceleration(
    book: &[u8],
    coefficients: &[f64; 6],
    dut: u32,
    moment: u64,
    position: &[f64; 3],
    acceleration: &mut [f64; 3],
) -> u64
    ensures { handed result acceleration.new ≡ answered acceleration.old
        (of_acceleration (acceleration_answer book.now (setting_of coefficients.now no_extras dut 0) 1 moment
        (vector_of position.now))) }
{
    let none = [0.0, 0.0, 0.0];
    c_run::calls::pull(
        book,
        coefficients,
        &none,
        dut,
        0,
        moment,
        1,
        position,
        acceleration,
    )
}

// Input and output are separate arrays: the next call reads what this one wrote.
#[unsafe(no_mangle)]
pub extern "C" fn belfry_run(
    book: &[u8],
    coefficients: &[f64; 6],
    dut: u32,
    moment: u64,
    coordinates: &[f64; 6],
    h: u32,
    target: u64,
    budget: u32,
    guesses: &[u64; 5],
    reached: &mut u64,
    there: &mut [f64; 6],
    entries: &mut [u64; 5],
    steps: &mut u32,
) -> u64
    ensures { run_memory result reached.new there.new entries.new steps.new ≡ of_run
        (run_answer book.now (setting_of coefficients.now no_extras dut 0)
        (launched book.now (setting_of coefficients.now no_extras dut 0)
        (injection_of moment 1 coordinates.now)) h target budget (guesses_of guesses.now)) }
{
    let none = [0.0, 0.0, 0.0];
    let setting = c_run::setting_of(*coefficients, none, dut, 0);
    let injection = c_run::injection_of(moment, 1, *coordinates);
    let state = gravity_stored::launch(book, setting, injection);
    let given = c_run::guesses_of(*guesses);
    let answer = run::run(book, setting, state, h, target, budget, given);
    c_run::hand_back(answer, reached, there, entries, steps)
}

#[unsafe(no_mangle)]
pub extern "C" fn belfry_single_step(
    book: &[u8],
    coefficients: &[f64; 6],
    dut: u32,
    moment: u64,
    coordinates: &[f64; 6],
    h: u32,
    guesses: &[u64; 5],
    reached: &mut u64,
    there: &mut [f64; 6],
    entries: &mut [u64; 5],
    steps: &mut u32,
) -> u64
    ensures { run_memory result reached.new there.new entries.new steps.new ≡ of_run
        (single_step_answer book.now (setting_of coefficients.now no_extras dut 0)
        (launched book.now (setting_of coefficients.now no_extras dut 0)
        (injection_of moment 1 coordinates.now)) h (guesses_of guesses.now)) }
{
    let none = [0.0, 0.0, 0.0];
    let setting = c_run::setting_of(*coefficients, none, dut, 0);
    let injection = c_run::injection_of(moment, 1, *coordinates);
    let state = gravity_stored::launch(book, setting, injection);
    let given = c_run::guesses_of(*guesses);
    let answer = run::single_step(book, setting, state, h, given);
    c_run::hand_back(answer, reached, there, entries, steps)
}

#[unsafe(no_mangle)]
pub extern "C" fn belfry_earth_fixed(
    moment: u64,
    coordinates: &[f64; 6],
    dut: u32,
    turned: &mut [f64; 6],
) -> u64
    ensures { handed result turned.new ≡ answered turned.old
        (of_fixed (fixed_answer 0 dut (unkept_of moment 1 coordinates.now))) }
{
    c_earth::turned(0, dut, moment, 1, coordinates, turned)
}

#[unsafe(no_mangle)]
pub extern "C" fn belfry_from_sphere(
    rule: u64,
    moment: u64,
    dut: u32,
    sizes: &[f64; 2],
    angles: &[u64; 4],
    coordinates: &mut [f64; 6],
) -> u64
    ensures { handed result coordinates.new ≡ answered coordinates.old
        (of_sphere (sphere_answer (sphere_of sizes.now angles.now) rule moment dut)) }
{
    let answer = launch::from_sphere(c_earth::sphere_of(*sizes, *angles), rule, moment, dut);
    hand_out(answer.map(start_in), coordinates)
}

#[unsafe(no_mangle)]
pub extern "C" fn belfry_conic(
    m: f64,
    moment: u64,
    coordinates: &[f64; 6],
    names: &mut [u64; 2],
    figures: &mut [f64; 5],
) -> u64
    ensures { handed result (both_in names.new figures.new) ≡ answered (both_in names.old figures.old)
        (of_conic (conic_answer m (unkept_of moment 1 coordinates.now))) }
{
    c_conic::orbit(m, moment, 1, coordinates, names, figures)
}
