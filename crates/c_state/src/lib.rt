// A setting, a vector, an injection and a state: from the caller's numbers, and as them.

#![tactic(auto)]

ghost use Rattle.std.specs.Prelude.{◌≡◌};
ghost use Rattle.c_state.specs.Groups.{setting_of, vector_of, injection_of, state_of, unkept_of, vector_in, start_in, coordinates_in, whole_in};

use state::{Injection, Setting, State, Vector};

pub fn setting_of(m: [f64; 6], extras: [f64; 3], dut: u32, rule: u64) -> Setting
    ensures { result ≡ setting_of m extras dut rule }
{
    Setting {
        earth: m[0],
        moon: m[1],
        sun: m[2],
        venus: m[3],
        mars: m[4],
        jupiter: m[5],
        dut,
        j: extras[0],
        a: extras[1],
        k: extras[2],
        rule,
    }
}

pub fn vector_of(v: [f64; 3]) -> Vector
    ensures { result ≡ vector_of v }
{
    Vector {
        x: v[0],
        y: v[1],
        z: v[2],
    }
}

pub fn injection_of(moment: u64, centre: u64, c: [f64; 6]) -> Injection
    ensures { result ≡ injection_of moment centre c }
{
    Injection {
        moment,
        centre,
        x: c[0],
        y: c[1],
        z: c[2],
        vx: c[3],
        vy: c[4],
        vz: c[5],
    }
}

pub fn state_of(moment: u64, centre: u64, c: [f64; 9]) -> State
    ensures { result ≡ state_of moment centre c }
{
    State {
        moment,
        centre,
        x: c[0],
        y: c[1],
        z: c[2],
        vx: c[3],
        vy: c[4],
        vz: c[5],
        ax: c[6],
        ay: c[7],
        az: c[8],
    }
}

// For a call that does not read the acceleration.
pub fn unkept_of(moment: u64, centre: u64, c: [f64; 6]) -> State
    ensures { result ≡ unkept_of moment centre c }
{
    State {
        moment,
        centre,
        x: c[0],
        y: c[1],
        z: c[2],
        vx: c[3],
        vy: c[4],
        vz: c[5],
        ax: 0.0,
        ay: 0.0,
        az: 0.0,
    }
}

pub fn vector_in(v: Vector) -> [f64; 3]
    ensures { result ≡ vector_in v }
{
    [v.x, v.y, v.z]
}

pub fn start_in(i: Injection) -> [f64; 6]
    ensures { result ≡ start_in i }
{
    [i.x, i.y, i.z, i.vx, i.vy, i.vz]
}

pub fn coordinates_in(s: State) -> [f64; 6]
    ensures { result ≡ coordinates_in s }
{
    [s.x, s.y, s.z, s.vx, s.vy, s.vz]
}

pub fn whole_in(s: State) -> [f64; 9]
    ensures { result ≡ whole_in s }
{
    [s.x, s.y, s.z, s.vx, s.vy, s.vz, s.ax, s.ay, s.az]
}
