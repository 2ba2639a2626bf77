// (02, R-4) The turns of an injection as launch crews speak it, one function for each.

#![tactic(auto)]

ghost use Rattle.std.specs.Prelude.{◌≡◌};
ghost use Rattle.launch_turns.specs.Turns.{place_on, horizontal, tilt, swing, relative, carried, transposed, returned};

use earth_rotation::inner::table_times;
use sine::SineCosine;
use state::{Injection, Vector};

pub fn place_on(radius: f64, f: SineCosine, t: SineCosine) -> Vector
    ensures { result ≡ place_on radius f t }
{
    let rc = radius * f.cosine;
    Vector {
        x: rc * t.cosine,
        y: rc * t.sine,
        z: radius * f.sine,
    }
}

pub fn horizontal_velocity(speed: f64, g: SineCosine, s: SineCosine) -> Vector
    ensures { result ≡ horizontal speed g s }
{
    let vc = speed * g.cosine;
    Vector {
        x: speed * g.sine,
        y: vc * s.sine,
        z: vc * s.cosine,
    }
}

fn tilt_table(f: SineCosine) -> [[f64; 3]; 3]
    ensures { result ≡ tilt f }
{
    [
        [f.cosine, 0.0, -f.sine],
        [0.0, 1.0, 0.0],
        [f.sine, 0.0, f.cosine],
    ]
}

fn swing_table(t: SineCosine) -> [[f64; 3]; 3]
    ensures { result ≡ swing t }
{
    [
        [t.cosine, -t.sine, 0.0],
        [t.sine, t.cosine, 0.0],
        [0.0, 0.0, 1.0],
    ]
}

pub fn relative_velocity(f: SineCosine, t: SineCosine, u: Vector) -> Vector
    ensures { result ≡ relative f t u }
{
    table_times(swing_table(t), table_times(tilt_table(f), u))
}

fn carried_velocity(w: f64, p: Vector, v: Vector) -> Vector
    ensures { result ≡ carried w p v }
{
    Vector {
        x: v.x - w * p.y,
        y: v.y + w * p.x,
        z: v.z,
    }
}

fn turned_over(table: [[f64; 3]; 3]) -> [[f64; 3]; 3]
    ensures { result ≡ transposed table }
{
    [
        [table[0][0], table[1][0], table[2][0]],
        [table[0][1], table[1][1], table[2][1]],
        [table[0][2], table[1][2], table[2][2]],
    ]
}

pub fn returned_state(moment: u64, table: [[f64; 3]; 3], w: f64, p: Vector, v: Vector) -> Injection
    ensures { result ≡ returned moment (record { table = table; w = w }) p v }
{
    let back = turned_over(table);
    let place = table_times(back, p);
    let velocity = table_times(back, carried_velocity(w, p, v));
    Injection {
        moment,
        centre: 1,
        x: place.x,
        y: place.y,
        z: place.z,
        vx: velocity.x,
        vy: velocity.y,
        vz: velocity.z,
    }
}
