// Dates of the Gregorian calendar from 1950 to 2049, and their days counted from 1950 January 1.

#![tactic(auto)]

ghost use Rattle.std.specs.Prelude.{◌≡◌, ◌+◌, ◌<◌, ◌≤◌};
ghost use Rattle.calendar.specs.Gregorian.{ymd, is_leap, year_length, days_before_year, is_date, date_of};
ghost use Rattle.calendar.specs.Answers.{date_answer, day_answer, julian_answer};

use base::Refusal;
use calendar_lengths::inner::{days_before_month, days_before_year, is_leap, month_length};

// A date.
#[derive(Clone, Copy)]
pub struct Calendar {
    pub year: u64,
    pub month: u64,
    pub day: u64,
}

// The date that many days after the start of a year.
fn date_in_year(year: u64, elapsed: u64) -> Calendar
    requires { (1950 ≤ year) × ((year ≤ 2049) × (elapsed < year_length (is_leap year))) }
    ensures { result ≡ date_of (days_before_year year + elapsed) }
{
    let leap = is_leap(year);
    let mut rest = elapsed;
    for month in 1..12 {
        let length = month_length(leap, month);
        if rest < length {
            return Calendar {
                year,
                month,
                day: rest + 1,
            };
        }
        rest -= length;
    }
    Calendar {
        year,
        month: 12,
        day: rest + 1,
    }
}

fn is_date(year: u64, month: u64, day: u64) -> bool
    ensures { result ≡ is_date (ymd year month day) }
{
    (Calendar::FIRST_YEAR..=Calendar::LAST_YEAR).contains(&year)
        && (1..=12).contains(&month)
        && 1 <= day
        && day <= month_length(is_leap(year), month)
}

impl Calendar {
    // Days are counted from 1950 January 1.
    pub const FIRST_DAY: u64 = 0;

    pub const LAST_DAY: u64 = 36_524;

    pub const FIRST_YEAR: u64 = calendar_lengths::FIRST_YEAR;

    pub const LAST_YEAR: u64 = 2049;

    pub fn from_day(day: u64) -> Result<Calendar, Refusal>
        ensures { result ≡ date_answer day }
    {
        if Calendar::LAST_DAY < day {
            return Err(Refusal::Date);
        }
        let elapsed = day - Calendar::FIRST_DAY;
        // Four years have 1461 days.
        let year = Calendar::FIRST_YEAR + (4 * elapsed + 2) / 1461;
        Ok(date_in_year(year, elapsed - days_before_year(year)))
    }

    pub fn from_date(year: u64, month: u64, day: u64) -> Result<u64, Refusal>
        ensures { result ≡ day_answer year month day }
    {
        if is_date(year, month, day) {
            let before = days_before_year(year) + days_before_month(is_leap(year), month);
            return Ok(Calendar::FIRST_DAY + before + (day - 1));
        }
        Err(Refusal::Date)
    }

    // Twice the Julian date: at 0h it ends in a half, and twice it is a whole number.
    pub fn twice_julian_date(day: u64) -> Result<u64, Refusal>
        ensures { result ≡ julian_answer day }
    {
        if day <= Calendar::LAST_DAY {
            return Ok(4_866_565 + 2 * day);
        }
        Err(Refusal::Date)
    }
}
