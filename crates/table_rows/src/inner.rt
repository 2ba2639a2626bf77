// Rows for a buffer with room for them. The writers put a text at a place of the buffer and return the place after
// it.

ghost use Rattle.std.specs.Prelude.{◌≡◌, false, ◌+◌, ◌≤◌, ◌<◌, length};
ghost use Rattle.base.specs.Limits.{end_of_time};
ghost use Rattle.text_write.specs.Written.{Wrote};
ghost use Rattle.table_rows.specs.Text.{heading, field, fields, row_text, large, any_large, has_large};

use listing_scan::Row;
use text_decimal::Places;
use text_decimal::inner::put_numeral;
use text_time::inner::put_stamp;
use text_write::inner::put_bytes;

// The first row: 21 bytes.
pub fn put_heading(out: &mut [u8], at: usize) -> usize
    requires { at + 21 ≤ length out.old }
    ensures { Wrote out.old at heading out.new result }
{
    put_bytes(out, at, b"time,x,y,z,vx,vy,vz\r\n")
}

// 22 bytes at most.
fn put_field(out: &mut [u8], at: usize, bits: u64, places: Places) -> usize
    requires bits_value { large bits ≡ false }
    requires at_in_bounds { at + 22 ≤ length out.old }
    ensures { Wrote out.old at (field places bits) out.new result }
{
    out[at] = b',';
    put_numeral(out, at + 1, bits, places)
}

fn put_fields(out: &mut [u8], at: usize, places: Places, a: u64, b: u64, c: u64) -> usize
    requires c_value { any_large a b c ≡ false }
    requires at_in_bounds { at + 66 ≤ length out.old }
    ensures { Wrote out.old at (fields places a b c) out.new result }
{
    let second = put_field(out, at, a, places);
    let third = put_field(out, second, b, places);
    put_field(out, third, c, places)
}

// The row of a state: 157 bytes at most.
pub fn put_row(out: &mut [u8], at: usize, row: Row) -> usize
    requires moment_lt_end_of_time { row.moment < end_of_time }
    requires row_value { has_large row ≡ false }
    requires at_in_bounds { at + 157 ≤ length out.old }
    ensures { Wrote out.old at (row_text row) out.new result }
{
    let position = put_stamp(out, at, row.moment);
    let velocity = put_fields(out, position, Places::Three, row.x, row.y, row.z);
    let end = put_fields(out, velocity, Places::Six, row.vx, row.vy, row.vz);
    put_bytes(out, end, b"\r\n")
}
