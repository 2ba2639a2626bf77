// Stamps for a buffer with room for them. The writers put a text at a place of the buffer and return the place after
// it.

ghost use Rattle.std.specs.Prelude.{◌+◌, ◌≤◌, ◌<◌, ◌∷◌, [], ◌++◌, length};
ghost use Rattle.base.specs.Limits.{end_of_time};
ghost use Rattle.text_write.specs.Numerals.{digits};
ghost use Rattle.text_write.specs.Written.{Wrote};
ghost use Rattle.text_time.specs.Stamp.{date_text, time_text, stamp_text};

use calendar::Calendar;
use text_decimal::inner::{put_three, put_two};

// A sign, and two digits.
fn put_behind(out: &mut [u8], at: usize, sign: u8, n: u64) -> usize
    requires { at + 3 ≤ length out.old }
    ensures { Wrote out.old at ((sign ∷ []) ++ digits 10 2 n) out.new result }
{
    out[at] = sign;
    put_two(out, at + 1, n)
}

fn put_date(out: &mut [u8], at: usize, date: Calendar) -> usize
    requires { at + 10 ≤ length out.old }
    ensures { Wrote out.old at (date_text date) out.new result }
{
    let rest = put_two(out, at, date.year / 100);
    let month = put_two(out, rest, date.year);
    let day = put_behind(out, month, b'-', date.month);
    put_behind(out, day, b'-', date.day)
}

fn put_time(out: &mut [u8], at: usize, t: u64) -> usize
    requires { at + 12 ≤ length out.old }
    ensures { Wrote out.old at (time_text t) out.new result }
{
    let minute = put_two(out, at, t / 3_600_000);
    let second = put_behind(out, minute, b':', t / 60_000 % 60);
    let part = put_behind(out, second, b':', t / 1_000 % 60);
    out[part] = b'.';
    put_three(out, part + 1, t % 1_000)
}

// The stamp of a moment in range: 23 bytes.
pub fn put_stamp(out: &mut [u8], at: usize, moment: u64) -> usize
    requires moment_lt_end_of_time { moment < end_of_time }
    requires at_in_bounds { at + 23 ≤ length out.old }
    ensures { Wrote out.old at (stamp_text moment) out.new result }
{
    let answer = Calendar::from_day(moment / base::DAY_LENGTH);
    match answer {
        Ok(date) => {
            let time = put_date(out, at, date);
            out[time] = b'T';
            put_time(out, time + 1, moment % base::DAY_LENGTH)
        }
        Err(_) => at,
    }
}
