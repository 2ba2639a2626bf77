// The line of a state that lies whole in a block: inner functions of the reader of listings.

ghost use Rattle.std.specs.Prelude.{◌≡◌, true, ◌+◌, ◌-◌, ◌*◌, ◌≤◌, ◌<◌, length, drop};
ghost use Rattle.listing_lines.specs.Digits.{hex_value};
ghost use Rattle.listing_lines.specs.Whole.{Values, spelled_from, finite_only, component_at, goes_on, moment_on, six_at, after_moment, from_byte, state_line_at};

use crate::{Numbered, WholeLine};

// A tenth of the end of time: a moment of this or more cannot take another digit.
const TENTH: u64 = 315_576_000_000;

fn wide(x: u8) -> u64
    ensures { result ≡ x }
{
    x as u64
}

// The value of a byte as a digit.
fn value_of(b: u8, values: &[u8; 256]) -> u64
    requires { Values values.now }
    ensures { result ≡ hex_value b }
{
    wide(values[b as usize])
}

// Sixteen digits from a place on. `values` has the value of each byte as a digit.
fn sixteen(block: &[u8], at: usize, values: &[u8; 256]) -> Option<u64>
    requires at_in_bounds { at + 16 ≤ length block.now }
    requires values { Values values.now }
    ensures { result ≡ spelled_from block.now 16 at 0 }
{
    let mut bits: u64 = 0;
    for &b in &block[at..at + 16] {
        let d = value_of(b, values);
        if 16 <= d {
            return None;
        }
        bits = bits % 0x1000_0000_0000_0000 * 16 + d;
    }
    Some(bits)
}

fn finite_only(spelled: Option<u64>) -> Option<u64>
    ensures { result ≡ finite_only spelled }
{
    let bits = spelled?;
    if bits % 0x8000_0000_0000_0000 < 0x7ff0_0000_0000_0000 {
        return Some(bits);
    }
    None
}

// A space and a component after it, which must be finite.
fn component(block: &[u8], at: usize, values: &[u8; 256]) -> Option<u64>
    requires at_in_bounds { at + 17 ≤ length block.now }
    requires values { Values values.now }
    ensures { result ≡ component_at block.now at }
{
    if block[at] == 32 {
        return finite_only(sixteen(block, at + 1, values));
    }
    None
}

// Whether a byte is one more digit of a moment.
fn goes_on(t: u64, b: u8) -> bool
    ensures { result ≡ goes_on t b }
{
    if b < 48 {
        return false;
    }
    if 57 < b {
        return false;
    }
    if t == 0 {
        return false;
    }
    t < TENTH
}

fn with_digit(t: u64, b: u8) -> u64
    requires { goes_on t b ≡ true }
    ensures { result ≡ 10 * t + (b - 48) }
{
    10 * t + ((b - 48) as u64)
}

// The digits of a moment from a place on, after some that spell `first`.
fn moment_from(block: &[u8], at: usize, first: u64) -> Numbered
    ensures { result ≡ moment_on (drop at block.now) first at }
{
    let mut t = first;
    let end = at.max(block.len());
    for i in at..end {
        let b = block[i];
        if goes_on(t, b) {
            t = with_digit(t, b);
        } else {
            return Numbered { t, end: i };
        }
    }
    Numbered { t, end }
}

// Six components from a place on.
#[tactic(auto, unfolding(crate::specs::Whole::six_at))]
fn six_by(block: &[u8], at: usize, moment: u64, values: &[u8; 256]) -> Option<WholeLine>
    requires at_in_bounds { at + 102 ≤ length block.now }
    requires values { Values values.now }
    ensures { result ≡ six_at block.now at moment }
{
    let x = component(block, at, values)?;
    let y = component(block, at + 17, values)?;
    let z = component(block, at + 34, values)?;
    let vx = component(block, at + 51, values)?;
    let vy = component(block, at + 68, values)?;
    let vz = component(block, at + 85, values)?;
    Some(WholeLine {
        moment,
        x,
        y,
        z,
        vx,
        vy,
        vz,
        end: at + 102,
    })
}

// The same, with a table of the value of each byte as a digit: 16 for a byte that is not a digit.
fn six(block: &[u8], at: usize, moment: u64) -> Option<WholeLine>
    requires { at + 102 ≤ length block.now }
    ensures { result ≡ six_at block.now at moment }
{
    let values =
        *b"\x10\x10\x10\x10\x10\x10\x10\x10\x10\x10\x10\x10\x10\x10\x10\x10\x10\x10\x10\x10\x10\x10\x10\x10\x10\x10\x10\x10\x10\x10\x10\x10\x10\x10\x10\x10\x10\x10\x10\x10\x10\x10\x10\x10\x10\x10\x10\x10\x00\x01\x02\x03\x04\x05\x06\x07\x08\x09\x10\x10\x10\x10\x10\x10\x10\x10\x10\x10\x10\x10\x10\x10\x10\x10\x10\x10\x10\x10\x10\x10\x10\x10\x10\x10\x10\x10\x10\x10\x10\x10\x10\x10\x10\x10\x10\x10\x10\x0a\x0b\x0c\x0d\x0e\x0f\x10\x10\x10\x10\x10\x10\x10\x10\x10\x10\x10\x10\x10\x10\x10\x10\x10\x10\x10\x10\x10\x10\x10\x10\x10\x10\x10\x10\x10\x10\x10\x10\x10\x10\x10\x10\x10\x10\x10\x10\x10\x10\x10\x10\x10\x10\x10\x10\x10\x10\x10\x10\x10\x10\x10\x10\x10\x10\x10\x10\x10\x10\x10\x10\x10\x10\x10\x10\x10\x10\x10\x10\x10\x10\x10\x10\x10\x10\x10\x10\x10\x10\x10\x10\x10\x10\x10\x10\x10\x10\x10\x10\x10\x10\x10\x10\x10\x10\x10\x10\x10\x10\x10\x10\x10\x10\x10\x10\x10\x10\x10\x10\x10\x10\x10\x10\x10\x10\x10\x10\x10\x10\x10\x10\x10\x10\x10\x10\x10\x10\x10\x10\x10\x10\x10\x10\x10\x10\x10\x10\x10\x10\x10\x10\x10\x10\x10\x10\x10\x10\x10\x10\x10";
    six_by(block, at, moment, &values)
}

fn after_moment(block: &[u8], m: Numbered) -> Option<WholeLine>
    ensures { result ≡ after_moment block.now m }
{
    if block.len() < 103 {
        return None;
    }
    if block.len() - 103 < m.end {
        return None;
    }
    if block[m.end + 102] == 10 {
        return six(block, m.end, m.t);
    }
    None
}

fn from_byte(block: &[u8], at: usize, b: u8) -> Option<WholeLine>
    requires { at < length block.now }
    ensures { result ≡ from_byte block.now at b }
{
    if b < 48 {
        return None;
    }
    if b <= 57 {
        return after_moment(block, moment_from(block, at + 1, (b - 48) as u64));
    }
    None
}

// The line that begins at a place, if it is that of a state and lies whole in the block with its line feed.
pub fn state_line(block: &[u8], at: usize) -> Option<WholeLine>
    ensures { result ≡ state_line_at block.now at }
{
    if at < block.len() {
        return from_byte(block, at, block[at]);
    }
    None
}
