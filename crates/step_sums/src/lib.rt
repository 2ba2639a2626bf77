// The sums of a step: its length in seconds, a point along a slope, and the weighted slopes of four stages.

#![tactic(auto)]

ghost use Rattle.std.specs.Prelude.{◌≡◌};
ghost use Rattle.step_sums.specs.Slopes.{step_h, along, weigh, weighed, half, sixth};

use state::Vector;

pub fn seconds(h: u32) -> f64
    ensures { result ≡ step_h h }
{
    h as f64 / 1000.0
}

pub fn half_of(h: u32) -> f64
    ensures { result ≡ half h }
{
    seconds(h) * 0.5
}

pub fn sixth_of(h: u32) -> f64
    ensures { result ≡ sixth h }
{
    seconds(h) / 6.0
}

pub fn toward(base: Vector, factor: f64, slope: Vector) -> Vector
    ensures { result ≡ along base factor slope }
{
    Vector {
        x: base.x + factor * slope.x,
        y: base.y + factor * slope.y,
        z: base.z + factor * slope.z,
    }
}

fn weigh_one(k1: f64, k2: f64, k3: f64, k4: f64) -> f64
    ensures { result ≡ weigh k1 k2 k3 k4 }
{
    ((k1 + 2.0 * k2) + 2.0 * k3) + k4
}

pub fn weigh_all(k1: Vector, k2: Vector, k3: Vector, k4: Vector) -> Vector
    ensures { result ≡ weighed k1 k2 k3 k4 }
{
    Vector {
        x: weigh_one(k1.x, k2.x, k3.x, k4.x),
        y: weigh_one(k1.y, k2.y, k3.y, k4.y),
        z: weigh_one(k1.z, k2.z, k3.z, k4.z),
    }
}
