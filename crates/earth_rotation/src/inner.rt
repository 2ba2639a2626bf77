// The table that is applied to 1950.0 coordinates at a moment whose hour angle is `parts`, and the Earth's rate then.
// For the crates above; not public calls.

ghost use Rattle.std.specs.Prelude.{◌≡◌, ◌≤◌};
ghost use Rattle.base.specs.Limits.{last_day};
ghost use Rattle.hour.specs.Hour.{sidereal_answer};
ghost use Rattle.earth_rotation.specs.Rotation.{turn, row_times, times, row_product, product, rate, rotation};

use sine::SineCosine;
use state::Vector;

fn turn_table(of: SineCosine) -> [[f64; 3]; 3]
    ensures { result ≡ turn of }
{
    [
        [of.cosine, of.sine, 0.0],
        [-of.sine, of.cosine, 0.0],
        [0.0, 0.0, 1.0],
    ]
}

fn row_times(row: [f64; 3], v: Vector) -> f64
    ensures { result ≡ row_times row v }
{
    (row[0] * v.x + row[1] * v.y) + row[2] * v.z
}

pub fn table_times(table: [[f64; 3]; 3], v: Vector) -> Vector
    ensures { result ≡ times table v }
{
    Vector {
        x: row_times(table[0], v),
        y: row_times(table[1], v),
        z: row_times(table[2], v),
    }
}

// The row is multiplied by the columns of the right table, each from the top.
fn row_product(row: [f64; 3], right: [[f64; 3]; 3]) -> [f64; 3]
    ensures { result ≡ row_product row right }
{
    let first = Vector {
        x: right[0][0],
        y: right[1][0],
        z: right[2][0],
    };
    let second = Vector {
        x: right[0][1],
        y: right[1][1],
        z: right[2][1],
    };
    let third = Vector {
        x: right[0][2],
        y: right[1][2],
        z: right[2][2],
    };
    [
        row_times(row, first),
        row_times(row, second),
        row_times(row, third),
    ]
}

fn table_product(left: [[f64; 3]; 3], right: [[f64; 3]; 3]) -> [[f64; 3]; 3]
    ensures { result ≡ product left right }
{
    [
        row_product(left[0], right),
        row_product(left[1], right),
        row_product(left[2], right),
    ]
}

// The rate of the Earth on the UT day d, in radians per second.
fn turning_rate(d: u64) -> f64
    requires { d ≤ last_day }
    ensures { result ≡ rate d }
{
    0.00417807417 / (1.0 + 0.000000000000521 * d as f64) * 0.017453292519943295
}

pub fn table_on(rule: u64, moment: u64, dut: u32, parts: u64) -> [[f64; 3]; 3]
    requires { sidereal_answer rule moment dut ≡ Ok parts }
    ensures { result ≡ (rotation rule moment dut).table }
{
    let of = sine::inner::of_parts(parts);
    table_product(turn_table(of), earth_precession::inner::table_at(moment))
}

pub fn rate_on(rule: u64, moment: u64, dut: u32, parts: u64) -> f64
    requires { sidereal_answer rule moment dut ≡ Ok parts }
    ensures { result ≡ (rotation rule moment dut).w }
{
    let ut = moment - dut as u64;
    turning_rate(ut / base::DAY_LENGTH)
}
