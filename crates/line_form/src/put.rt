// Rows of numbers in an answer, each number with a space after it.

ghost use Rattle.std.specs.Prelude.{◌+◌, ◌-◌, ◌*◌, ◌≤◌, length, set, ◌≡◌, [], ◌∷◌};
ghost use Rattle.line_form.specs.Spelled.{word, whole, real, spaced, wholes, reals, refused_items, Puts};

// Answers that are not written out yet. Each has at most 512 bytes.
pub type Out = [u8; 65536];

fn put_number(out: &mut Out, from: usize, number: u64) -> usize
    requires { from + 21 ≤ 65_536 }
    ensures { Puts out.old from (spaced (whole number ∷ [])) out.new 1 21 result }
{
    let at = text_write::inner::put_decimal(out, from, number);
    out[at] = b' ';
    at + 1
}

fn put_float(out: &mut Out, from: usize, x: f64) -> usize
    requires { from + 17 ≤ 65_536 }
    ensures { Puts out.old from (spaced (real x ∷ [])) out.new 1 17 result }
{
    let at = text_write::inner::put_float(out, from, x);
    out[at] = b' ';
    at + 1
}

pub fn put_numbers(out: &mut Out, from: usize, row: &[u64]) -> usize
    requires { from + 21 * length row.now ≤ 65_536 }
    ensures { Puts out.old from (spaced (wholes row.now)) out.new (length row.now) (21 * length row.now) result }
{
    let mut at = from;
    for &n in row {
        at = put_number(out, at, n);
    }
    at
}

pub fn put_floats(out: &mut Out, from: usize, row: &[f64]) -> usize
    requires { from + 17 * length row.now ≤ 65_536 }
    ensures { Puts out.old from (spaced (reals row.now)) out.new (length row.now) (17 * length row.now) result }
{
    let mut at = from;
    for &x in row {
        at = put_float(out, at, x);
    }
    at
}

pub fn put_refused(out: &mut Out, from: usize, number: u64) -> usize
    requires { from + 29 ≤ 65_536 }
    ensures { Puts out.old from (spaced (refused_items number)) out.new 1 29 result }
{
    let at = text_write::inner::put_bytes(out, from, b"REFUSED ");
    put_number(out, at, number)
}

// The last space of an answer becomes the line feed.
pub fn end_line(out: &mut [u8], end: usize)
    requires { (1 ≤ end) × (end ≤ length out.old) }
    ensures { out.new ≡ set out.old (end - 1) 10 }
{
    out[end - 1] = b'\n';
}
