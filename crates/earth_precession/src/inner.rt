// Inner functions: the caller knows that the moment is in range.

ghost use Rattle.std.specs.Prelude.{◌≡◌, ◌<◌};
ghost use Rattle.base.specs.Limits.{end_of_time};
ghost use Rattle.earth_precession.specs.Precession.{centuries, horner, precession_by, precession};

// Julian centuries past 1950.0, which lies 6,621,955 whole milliseconds before moment 0.
fn centuries_at(moment: u64) -> f64
    requires { moment < end_of_time }
    ensures { result ≡ centuries moment }
{
    let since = moment + 6_621_955;
    since as f64 / 3_155_760_000_000.0
}

fn cubic(t: f64, c0: f64, c1: f64, c2: f64, c3: f64) -> f64
    ensures { result ≡ horner t c0 c1 c2 c3 }
{
    ((c3 * t + c2) * t + c1) * t + c0
}

fn table_by(t: f64) -> [[f64; 3]; 3]
    ensures { result ≡ precession_by t }
{
    let a11 = cubic(t, 1.0, 0.0, -0.00029697, -0.00000013);
    let a12 = cubic(t, 0.0, -0.02234988, -0.00000676, 0.00000221);
    let a13 = cubic(t, 0.0, -0.00971711, 0.00000207, 0.00000096);
    let a22 = cubic(t, 1.0, 0.0, -0.00024976, -0.00000015);
    let a23 = cubic(t, 0.0, 0.0, -0.00010859, -0.00000003);
    let a33 = cubic(t, 1.0, 0.0, -0.00004721, 0.00000002);
    [[a11, a12, a13], [-a12, a22, a23], [-a13, a23, a33]]
}

pub fn table_at(moment: u64) -> [[f64; 3]; 3]
    requires { moment < end_of_time }
    ensures { result ≡ precession moment }
{
    table_by(centuries_at(moment))
}
