// Reads a line up to its line feed: at once if it is that of a state and lies whole in the block, else byte by byte.

ghost use Rattle.std.specs.Prelude.{◌≡◌};
ghost use Rattle.listing_read.specs.Reached.{to_feed, row_in};

use crate::Reached;
use listing_lines::WholeLine;
use listing_lines::inner::state_line;
use listing_scan::scanning::{has_begun, take_byte};
use listing_scan::{Row, Scan};

fn row_in(line: WholeLine) -> Row
    ensures { result ≡ row_in line }
{
    Row {
        moment: line.moment,
        x: line.x,
        y: line.y,
        z: line.z,
        vx: line.vx,
        vy: line.vy,
        vz: line.vz,
    }
}

fn byte_by_byte(block: &[u8], at: usize, scan: Scan) -> Reached
    ensures { result ≡ to_feed block.now at scan }
{
    let mut s = scan;
    let end = at.max(block.len());
    for i in at..end {
        let b = block[i];
        if b == 10 {
            return Reached { scan: s, at: i };
        }
        s = take_byte(s, b);
    }
    Reached { scan: s, at: end }
}

// The scan up to the next line feed, or to the end of the block.
pub fn to_feed(block: &[u8], at: usize, scan: Scan) -> Reached
    ensures { result ≡ to_feed block.now at scan }
{
    if has_begun(scan) {
        return byte_by_byte(block, at, scan);
    }
    if let Some(line) = state_line(block, at) {
        return Reached {
            scan: Scan::Behind(0, row_in(line)),
            at: line.end,
        };
    }
    byte_by_byte(block, at, scan)
}
