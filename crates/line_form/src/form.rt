// The numbers of a call: a line is a name and fields, each after one space.

ghost use Rattle.std.specs.Prelude.{◌≤◌, ◌≡◌, length, take};
ghost use Rattle.line_form.specs.Call.{below32, cap, above_zero, below_zero, read_signed, read_printed, field_at, fields_from, starts_with, call_of, or_unreadable};

use text_write::Field;

// As many as the longest call has. A float is kept as its bits.
pub type Numbers = [u64; 30];

#[tactic(auto, using(crate::proofs::Reading::named))]
fn starts_with(line: &[u8], name: &[u8]) -> bool
    ensures { result ≡ starts_with line.now name.now }
{
    line.starts_with(name)
}

fn small(field: Option<Field>) -> Option<Field>
    ensures { result ≡ below32 field }
{
    let field = field?;
    if field.value < 4_294_967_296 {
        return Some(field);
    }
    None
}

// No angle is this large.
fn capped(number: u64) -> u64
    ensures { (result ≡ cap number) × (result ≤ 0x4000_0000_0000_0000) }
{
    if number < 0x4000_0000_0000_0000 {
        return number;
    }
    0x4000_0000_0000_0000
}

fn above_zero(field: Option<Field>) -> Option<Field>
    ensures { result ≡ above_zero field }
{
    let Field { value, next } = field?;
    Some(Field {
        value: capped(value),
        next,
    })
}

fn below_zero(field: Option<Field>) -> Option<Field>
    ensures { result ≡ below_zero field }
{
    let Field { value, next } = field?;
    if value == 0 {
        return Some(Field { value, next });
    }
    Some(Field {
        value: 0xffff_ffff_ffff_ffff - capped(value) + 1,
        next,
    })
}

fn read_signed(line: &[u8], at: usize) -> Option<Field>
    ensures { result ≡ read_signed line.now at }
{
    if line.len() <= at {
        return None;
    }
    if line[at] == b'-' {
        return below_zero(text_write::read_decimal(line, at + 1));
    }
    above_zero(text_write::read_decimal(line, at))
}

// A float as it is printed: sixteen digits, or `nan`.
fn read_printed(line: &[u8], at: usize) -> Option<Field>
    ensures { result ≡ read_printed line.now at }
{
    if line.len() < at {
        return text_write::read_hex16(line, at);
    }
    if starts_with(&line[at..], b"nan") {
        return Some(Field {
            value: 0x7ff8_0000_0000_0000,
            next: at + 3,
        });
    }
    text_write::read_hex16(line, at)
}

// The field after a space. Kinds: D a decimal, N one that may have a minus sign, S one of 32 bits, F a float, P a
// float as it is printed.
fn field_at(kind: u8, line: &[u8], at: usize) -> Option<Field>
    ensures { result ≡ field_at kind line.now at }
{
    if line.len() <= at {
        return None;
    }
    if line[at] != b' ' {
        return None;
    }
    match kind {
        b'F' => text_write::read_hex16(line, at + 1),
        b'S' => small(text_write::read_decimal(line, at + 1)),
        b'N' => read_signed(line, at + 1),
        b'P' => read_printed(line, at + 1),
        _ => text_write::read_decimal(line, at + 1),
    }
}

#[tactic(auto, using(crate::proofs::Reading::read_none, crate::proofs::Reading::read_more, crate::proofs::Reading::read_bad))]
fn fields_from(line: &[u8], from: usize, kinds: &[u8], numbers: &mut [u64]) -> bool
    requires { length kinds.now ≤ length numbers.old }
    ensures { or_unreadable result (take (length kinds.now) numbers.new) ≡ fields_from line.now kinds.now from }
{
    let mut at = from;
    for (i, &kind) in kinds.iter().enumerate() {
        let Some(field) = field_at(kind, line, at) else {
            return false;
        };
        numbers[i] = field.value;
        at = field.next;
    }
    at == line.len()
}

// Whether the line is a call of that name with fields of these kinds. If so, reads their numbers.
pub fn reads(line: &[u8], name: &[u8], kinds: &[u8], numbers: &mut Numbers) -> bool
    requires { length kinds.now ≤ 30 }
    ensures { or_unreadable result (take (length kinds.now) numbers.new) ≡ call_of line.now name.now kinds.now }
{
    if starts_with(line, name) {
        return fields_from(line, name.len(), kinds, numbers);
    }
    false
}
