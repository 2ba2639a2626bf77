// Bytes at a place of the output.

ghost use Rattle.std.specs.Prelude.{◌≡◌, ◌+◌, ◌≤◌, length};
ghost use Rattle.repair_write.specs.Anew.{part, le32, with_text};

pub fn put_u32(out: &mut [u8], at: usize, n: u32)
    requires { at + 4 ≤ length out.old }
    ensures { out.new ≡ with_text out.old at (le32 n) }
{
    out[at..at + 4].copy_from_slice(&n.to_le_bytes());
}

// A byte at a time: with the slices' own copy the archive for C would need memmove from outside.
pub fn copy(input: &[u8], from: usize, out: &mut [u8], at: usize, n: usize)
    requires { (from + n ≤ length input.now) × (at + n ≤ length out.old) }
    ensures { out.new ≡ with_text out.old at (part input.now from n) }
{
    for k in 0..n {
        out[at + k] = input[from + k];
    }
}
