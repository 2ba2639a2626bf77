// Prints document 01's figures for the calendar, the hour angle, the root and sine and cosine, as the library
// computes them. It reads published square roots from standard input, and prints the library's own next to each.

#![tactic(auto)]

use base::Refusal;
use calendar::Calendar;
use std::io;
use text_write::{Bits, Field};

const DAY: u64 = 86_400_000;

fn say(rt: &impl Print, word: &str) -> io::Result<()> {
    rt.print(word)
}

fn say_number(rt: &impl Print, n: u64) -> io::Result<()> {
    print!(rt; " {n}")
}

fn say_refused(rt: &impl Print, refusal: Refusal) -> io::Result<()> {
    say(rt, " REFUSED")?;
    say_number(rt, refusal.number())
}

fn say_bits(rt: &impl Print, bits: u64) -> io::Result<()> {
    print!(rt; "{bits:016x}")
}

fn say_float(rt: &impl Print, x: f64) -> io::Result<()> {
    say(rt, " ")?;
    let b = text_write::bits_of(x);
    match b {
        Bits::Pattern(bits) => say_bits(rt, bits),
        Bits::NaN => say(rt, "nan"),
    }
}

fn date(rt: &impl Print, day: u64) -> io::Result<()> {
    print!(rt; "date {day}")?;
    let answer = Calendar::from_day(day);
    match answer {
        Ok(d) => {
            say_number(rt, d.year)?;
            say_number(rt, d.month)?;
            say_number(rt, d.day)?;
        }
        Err(refusal) => say_refused(rt, refusal)?,
    }
    say(rt, "\n")
}

fn day(rt: &impl Print, year: u64, month: u64, of_month: u64) -> io::Result<()> {
    print!(rt; "day {year} {month} {of_month}")?;
    let answer = Calendar::from_date(year, month, of_month);
    match answer {
        Ok(n) => say_number(rt, n)?,
        Err(refusal) => say_refused(rt, refusal)?,
    }
    say(rt, "\n")
}

fn julian(rt: &impl Print, day: u64) -> io::Result<()> {
    print!(rt; "julian {day}")?;
    let answer = Calendar::twice_julian_date(day);
    match answer {
        Ok(n) => say_number(rt, n)?,
        Err(refusal) => say_refused(rt, refusal)?,
    }
    say(rt, "\n")
}

fn hour_of(rt: &impl Print, moment: u64, dut: u32) -> io::Result<()> {
    print!(rt; "hour {moment} {dut}")?;
    let answer = hour::hour_angle(moment, dut);
    match answer {
        Ok(parts) => say_number(rt, parts)?,
        Err(refusal) => say_refused(rt, refusal)?,
    }
    say(rt, "\n")
}

fn angle(rt: &impl Print, parts: u64) -> io::Result<()> {
    print!(rt; "sincos {parts}")?;
    let answer = sine::sine_cosine(parts);
    match answer {
        Ok(both) => {
            say_float(rt, both.sine)?;
            say_float(rt, both.cosine)?;
        }
        Err(refusal) => say_refused(rt, refusal)?,
    }
    say(rt, "\n")
}

fn root_of(rt: &impl Print, bits: u64) -> io::Result<()> {
    let answer = root::root(text_write::float_of_bits(bits));
    match answer {
        Ok(y) => say_float(rt, y),
        Err(refusal) => say_refused(rt, refusal),
    }
}

// A line of bit patterns: the argument, the library's result, and the published one.
fn published(rt: &impl Print, line: &[u8]) -> io::Result<()> {
    let Some(Field { value: x, next: at }) = text_write::read_hex16(line, 0) else {
        return Ok(());
    };
    if at < line.len() {
        let Some(Field { value: y, .. }) = text_write::read_hex16(line, at + 1) else {
            return Ok(());
        };
        say(rt, "root ")?;
        say_bits(rt, x)?;
        root_of(rt, x)?;
        say(rt, " ")?;
        say_bits(rt, y)?;
        say(rt, "\n")?;
    }
    Ok(())
}

fn roots(rt: &impl Print, all: &[u8]) -> io::Result<()> {
    for line in all.split(|b| *b == b'\n') {
        published(rt, line)?;
    }
    Ok(())
}

fn documented(rt: &impl Print) -> io::Result<()> {
    date(rt, 0)?;
    date(rt, 2_922)?;
    date(rt, 18_321)?;
    date(rt, 36_524)?;
    date(rt, 36_525)?;
    day(rt, 1958, 1, 1)?;
    day(rt, 2000, 2, 29)?;
    day(rt, 2049, 12, 31)?;
    day(rt, 2001, 2, 29)?;
    julian(rt, 0)?;
    hour_of(rt, 0, 0)?;
    hour_of(rt, DAY, 0)?;
    hour_of(rt, 86_399_999, 0)?;
    hour_of(rt, 4_322 * DAY + 82_951_000, 0)?;
    hour_of(rt, 0, 100_001)?;
    hour_of(rt, 0, 1)?;
    angle(rt, 0)?;
    angle(rt, 900_000_000_000)?;
    angle(rt, 1_800_000_000_000)?;
    angle(rt, 3_600_000_000_000)
}

fn main(rt: HostRuntime) -> io::Result<()> {
    documented(&rt)?;
    let mut lines = [0u8; 65_536];
    let n = console::read_full(&mut rt.reader(), &mut lines)?;
    roots(&rt, &lines[..n])
}
