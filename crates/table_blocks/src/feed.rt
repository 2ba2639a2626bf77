// The reading, advanced to the next line feed.

ghost use Rattle.std.specs.Prelude.{◌≡◌};
ghost use Rattle.table_blocks.specs.Onward.{line_ahead, ahead_of};

use crate::{Ahead, Standing};
use listing_read::Place;
use listing_read::feed::to_feed;
use listing_scan::Scan;

fn line_ahead(block: &[u8], at: usize, place: Place, scan: Scan, line: u64) -> Ahead
    ensures { result ≡ line_ahead block.now at place scan line }
{
    let reached = to_feed(block, at, scan);
    let behind = reached.scan;
    Ahead {
        standing: Standing::Going(place, behind, line),
        at: reached.at,
    }
}

// After a refusal nothing more is read.
pub fn to_line_end(block: &[u8], at: usize, standing: Standing) -> Ahead
    ensures { result ≡ ahead_of block.now at standing }
{
    match standing {
        Standing::Going(place, scan, line) => line_ahead(block, at, place, scan, line),
        Standing::Refused(refused) => Ahead {
            standing: Standing::Refused(refused),
            at,
        },
    }
}
