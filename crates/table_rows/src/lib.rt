// A state of a listing as a row of the table.

#![tactic(auto)]

pub mod inner;

ghost use Rattle.std.specs.Prelude.{◌≡◌};
ghost use Rattle.table_rows.specs.Text.{any_large, has_large};

use listing_scan::Row;
use text_decimal::is_large;

fn any_large(a: u64, b: u64, c: u64) -> bool
    ensures { result ≡ any_large a b c }
{
    if is_large(a) {
        return true;
    }
    if is_large(b) {
        return true;
    }
    is_large(c)
}

// Whether a component has "a magnitude of 10^12 or more".
pub fn has_large(row: Row) -> bool
    ensures { result ≡ has_large row }
{
    if any_large(row.x, row.y, row.z) {
        return true;
    }
    any_large(row.vx, row.vy, row.vz)
}
