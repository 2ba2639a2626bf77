// The Earth-fixed call, and the numbers of an injection as launch crews speak it, in the caller's memory.

#![tactic(auto)]

ghost use Rattle.std.specs.Prelude.{◌≡◌};
ghost use Rattle.earth_fixed.specs.Fixed.{fixed_answer};
ghost use Rattle.c_answer.specs.Handed.{handed, answered};
ghost use Rattle.c_state.specs.Groups.{unkept_of};
ghost use Rattle.c_earth.specs.Earth.{sphere_of, fixed_in, of_fixed};

use c_answer::hand_out;
use c_state::unkept_of;
use earth_fixed::EarthFixed;
use launch::{Sphere, signed_of};

pub fn sphere_of(sizes: [f64; 2], angles: [u64; 4]) -> Sphere
    ensures { result ≡ sphere_of sizes angles }
{
    let latitude = signed_of(angles[0]);
    let path = signed_of(angles[2]);
    Sphere {
        radius: sizes[0],
        latitude,
        longitude: angles[1],
        speed: sizes[1],
        path,
        azimuth: angles[3],
    }
}

fn fixed_in(f: EarthFixed) -> [f64; 6]
    ensures { result ≡ fixed_in f }
{
    [f.x, f.y, f.z, f.vx, f.vy, f.vz]
}

// Earth-fixed coordinates by a rule of the hour angle.
pub fn turned(
    rule: u64,
    dut: u32,
    moment: u64,
    centre: u64,
    coordinates: &[f64; 6],
    turned: &mut [f64; 6],
) -> u64
    ensures { handed result turned.new ≡ answered turned.old
        (of_fixed (fixed_answer rule dut (unkept_of moment centre coordinates.now))) }
{
    let answer = earth_fixed::earth_fixed(rule, dut, unkept_of(moment, centre, *coordinates));
    hand_out(answer.map(fixed_in), turned)
}
