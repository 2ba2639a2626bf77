// For years and months that are known to be in range: which years are leap, and how many days come before a year or a
// month.

ghost use Rattle.std.specs.Prelude.{◌≡◌, ◌≤◌};
ghost use Rattle.calendar_lengths.specs.Lengths.{is_leap, month_length, days_before_month, days_before_year};

use crate::FIRST_YEAR;

const COMMON_YEAR: [u64; 12] = [31, 28, 31, 30, 31, 30, 31, 31, 30, 31, 30, 31];

const LEAP_YEAR: [u64; 12] = [31, 29, 31, 30, 31, 30, 31, 31, 30, 31, 30, 31];

// Within 1950 to 2049 every fourth year is leap: 2000 is the only year that 100 divides.
pub fn is_leap(year: u64) -> bool
    requires { (1950 ≤ year) × (year ≤ 2049) }
    ensures { result ≡ is_leap year }
{
    year % 4 == 0
}

pub fn days_before_year(year: u64) -> u64
    requires { (1950 ≤ year) × (year ≤ 2049) }
    ensures { result ≡ days_before_year year }
{
    let years = year - FIRST_YEAR;
    365 * years + (years + 1) / 4
}

pub fn month_length(leap: bool, month: u64) -> u64
    requires { (1 ≤ month) × (month ≤ 12) }
    ensures { result ≡ month_length leap month }
{
    let i = (month - 1) as usize;
    if leap { LEAP_YEAR[i] } else { COMMON_YEAR[i] }
}

pub fn days_before_month(leap: bool, month: u64) -> u64
    requires { (1 ≤ month) × (month ≤ 12) }
    ensures { result ≡ days_before_month leap month }
{
    let mut days = 0;
    for m in 1..month {
        days += month_length(leap, m);
    }
    days
}
