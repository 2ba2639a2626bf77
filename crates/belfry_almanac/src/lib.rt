// The calls of document 01 that take no state, for C and Rust: calendar, hour angle, root, sine and cosine, the check
// of a book and the position of a body. They take numbers and the caller's memory. Each returns 0 if the input is
// accepted, else the refusal number.

#![tactic(auto)]

ghost use Rattle.std.specs.Prelude.{◌≡◌};
ghost use Rattle.base.specs.Choice.{if◌then◌otherwise◌};
ghost use Rattle.calendar.specs.Answers.{date_answer, day_answer, julian_answer};
ghost use Rattle.hour.specs.Hour.{hour_answer, sidereal_answer};
ghost use Rattle.root.specs.Root.{root_answer};
ghost use Rattle.sine.specs.Sine.{sine_cosine_answer};
ghost use Rattle.book.specs.Passes.{passes};
ghost use Rattle.book.specs.Position.{position_answer};
ghost use Rattle.c_answer.specs.Handed.{handed, answered};
ghost use Rattle.belfry_almanac.specs.Lent.{date_in, sine_cosine_in, motion_in};
ghost use Rattle.belfry_almanac.specs.Answers.{of_date, of_sine_cosine, of_position};

use book::Motion;
use c_answer::hand_out;
use calendar::Calendar;
use sine::SineCosine;

fn date_in(d: Calendar) -> [u64; 3]
    ensures { result ≡ date_in d }
{
    [d.year, d.month, d.day]
}

fn sine_cosine_in(of: SineCosine) -> [f64; 2]
    ensures { result ≡ sine_cosine_in of }
{
    [of.sine, of.cosine]
}

fn motion_in(m: Motion) -> [f64; 6]
    ensures { result ≡ motion_in m }
{
    let place = m.place;
    let speed = m.velocity;
    [place.x, place.y, place.z, speed.x, speed.y, speed.z]
}

#[unsafe(no_mangle)]
pub extern "C" fn belfry_date(day: u64, date: &mut [u64; 3]) -> u64
    ensures { handed result date.new ≡ answered date.old
        (of_date (date_answer day)) }
{
    hand_out(Calendar::from_day(day).map(date_in), date)
}

#[unsafe(no_mangle)]
pub extern "C" fn belfry_day(year: u64, month: u64, day: u64, count: &mut u64) -> u64
    ensures { handed result count.new ≡ answered count.old
        (day_answer year month day) }
{
    hand_out(Calendar::from_date(year, month, day), count)
}

#[unsafe(no_mangle)]
pub extern "C" fn belfry_twice_julian_date(day: u64, twice: &mut u64) -> u64
    ensures { handed result twice.new ≡ answered twice.old
        (julian_answer day) }
{
    hand_out(Calendar::twice_julian_date(day), twice)
}

#[unsafe(no_mangle)]
pub extern "C" fn belfry_hour_angle(moment: u64, dut: u32, parts: &mut u64) -> u64
    ensures { handed result parts.new ≡ answered parts.old
        (hour_answer moment dut) }
{
    hand_out(hour::hour_angle(moment, dut), parts)
}

#[unsafe(no_mangle)]
pub extern "C" fn belfry_sidereal(rule: u64, moment: u64, dut: u32, parts: &mut u64) -> u64
    ensures { handed result parts.new ≡ answered parts.old
        (sidereal_answer rule moment dut) }
{
    hand_out(hour::sidereal(rule, moment, dut), parts)
}

#[unsafe(no_mangle)]
pub extern "C" fn belfry_root(x: f64, value: &mut f64) -> u64
    ensures { handed result value.new ≡ answered value.old
        (root_answer x) }
{
    hand_out(root::root(x), value)
}

#[unsafe(no_mangle)]
pub extern "C" fn belfry_sine_cosine(parts: u64, both: &mut [f64; 2]) -> u64
    ensures { handed result both.new ≡ answered both.old
        (of_sine_cosine (sine_cosine_answer parts)) }
{
    hand_out(sine::sine_cosine(parts).map(sine_cosine_in), both)
}

#[unsafe(no_mangle)]
pub extern "C" fn belfry_book_passes(book: &[u8]) -> u64
    ensures { result ≡ (if passes book.now then 0 otherwise 1) }
{
    if book::book_passes(book) { 0 } else { 1 }
}

#[unsafe(no_mangle)]
pub extern "C" fn belfry_position(book: &[u8], body: u64, moment: u64, motion: &mut [f64; 6]) -> u64
    ensures { handed result motion.new ≡ answered motion.old
        (of_position (position_answer book.now body moment)) }
{
    hand_out(book::position(book, body, moment).map(motion_in), motion)
}
