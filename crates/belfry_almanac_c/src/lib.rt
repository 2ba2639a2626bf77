// The static library of belfry_almanac: each export has the clauses of the call that it passes on.
//
// The calls of document 01 that take no state, for C and Rust: calendar, hour angle, root, sine and cosine, the check
// of a book and the position of a body. They take numbers and the caller's memory. Each returns 0 if the input is
// accepted, else the refusal number.

#![tactic(auto)]

ghost use Rattle.std.specs.Prelude.{◌≡◌};
ghost use Rattle.base.specs.Choice.{if◌then◌otherwise◌};
ghost use Rattle.calendar.specs.Answers.{date_answer, day_answer, julian_answer};
ghost use Rattle.hour.specs.Hour.{hour_answer, sidereal_answer};
ghost use Rattle.root.specs.Root.{root_answer};
ghost use Rattle.sine.specs.Sine.{sine_cosine_answer};
ghost use Rattle.book.specs.Passes.{passes};
ghost use Rattle.book.specs.Position.{position_answer};
ghost use Rattle.c_answer.specs.Handed.{handed, answered};
ghost use Rattle.belfry_almanac.specs.Answers.{of_date, of_sine_cosine, of_position};

#[unsafe(no_mangle)]
pub extern "C" fn belfry_date(day: u64, date: &mut [u64; 3]) -> u64
    ensures { handed result date.new ≡ answered date.old
        (of_date (date_answer day)) }
{
    belfry_almanac::belfry_date(day, date)
}

#[unsafe(no_mangle)]
pub extern "C" fn belfry_day(year: u64, month: u64, day: u64, count: &mut u64) -> u64
    ensures { handed result count.new ≡ answered count.old
        (day_answer year month day) }
{
    belfry_almanac::belfry_day(year, month, day, count)
}

#[unsafe(no_mangle)]
pub extern "C" fn belfry_twice_julian_date(day: u64, twice: &mut u64) -> u64
    ensures { handed result twice.new ≡ answered twice.old
        (julian_answer day) }
{
    belfry_almanac::belfry_twice_julian_date(day, twice)
}

#[unsafe(no_mangle)]
pub extern "C" fn belfry_hour_angle(moment: u64, dut: u32, parts: &mut u64) -> u64
    ensures { handed result parts.new ≡ answered parts.old
        (hour_answer moment dut) }
{
    belfry_almanac::belfry_hour_angle(moment, dut, parts)
}

#[unsafe(no_mangle)]
pub extern "C" fn belfry_sidereal(rule: u64, moment: u64, dut: u32, parts: &mut u64) -> u64
    ensures { handed result parts.new ≡ answered parts.old
        (sidereal_answer rule moment dut) }
{
    belfry_almanac::belfry_sidereal(rule, moment, dut, parts)
}

#[unsafe(no_mangle)]
pub extern "C" fn belfry_root(x: f64, value: &mut f64) -> u64
    ensures { handed result value.new ≡ answered value.old
        (root_answer x) }
{
    belfry_almanac::belfry_root(x, value)
}

#[unsafe(no_mangle)]
pub extern "C" fn belfry_sine_cosine(parts: u64, both: &mut [f64; 2]) -> u64
    ensures { handed result both.new ≡ answered both.old
        (of_sine_cosine (sine_cosine_answer parts)) }
{
    belfry_almanac::belfry_sine_cosine(parts, both)
}

#[unsafe(no_mangle)]
pub extern "C" fn belfry_book_passes(book: &[u8]) -> u64
    ensures { result ≡ (if passes book.now then 0 otherwise 1) }
{
    belfry_almanac::belfry_book_passes(book)
}

#[unsafe(no_mangle)]
pub extern "C" fn belfry_position(book: &[u8], body: u64, moment: u64, motion: &mut [f64; 6]) -> u64
    ensures { handed result motion.new ≡ answered motion.old
        (of_position (position_answer book.now body moment)) }
{
    belfry_almanac::belfry_position(book, body, moment, motion)
}
