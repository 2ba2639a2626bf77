// Lines compared whole.

ghost use Rattle.std.specs.Prelude.{◌≡◌, length};
ghost use Rattle.compare_report.specs.Report.{until_feed, same};

// How many bytes come before the first line feed; all bytes if there is none.
pub fn line_length(block: &[u8]) -> usize
    ensures { result ≡ length (until_feed block.now) }
{
    block.iter().position(|b| *b == 10).unwrap_or(block.len())
}

pub fn same_bytes(a: &[u8], b: &[u8]) -> bool
    ensures { result ≡ same a.now b.now }
{
    a == b
}
