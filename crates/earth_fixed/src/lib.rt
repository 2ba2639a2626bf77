// A state in coordinates that turn with the Earth.

#![tactic(auto)]

ghost use Rattle.std.specs.Prelude.{◌≡◌};
ghost use Rattle.hour.specs.Hour.{sidereal_answer};
ghost use Rattle.earth_fixed.specs.Fixed.{turned, finite_fixed, finite_answer, fixed_answer};

use base::{Refusal, require};
use earth_rotation::inner::{rate_on, table_on, table_times};
use state::{State, Vector};

// Position in km and velocity in km/s, in axes that turn with the Earth.
#[derive(Clone, Copy)]
pub struct EarthFixed {
    pub x: f64,
    pub y: f64,
    pub z: f64,
    pub vx: f64,
    pub vy: f64,
    pub vz: f64,
}

#[tactic(auto, unfolding(crate::specs::Fixed::turned))]
fn turned_state(table: [[f64; 3]; 3], w: f64, state: State) -> EarthFixed
    ensures { result ≡ turned (record { table = table; w = w }) state }
{
    let p = table_times(table, state::position_of(state));
    let v = table_times(table, state::velocity_of(state));
    EarthFixed {
        x: p.x,
        y: p.y,
        z: p.z,
        vx: v.x + w * p.y,
        vy: v.y - w * p.x,
        vz: v.z,
    }
}

fn fixed_is_finite(f: EarthFixed) -> bool
    ensures { result ≡ finite_fixed f }
{
    let position = Vector {
        x: f.x,
        y: f.y,
        z: f.z,
    };
    let velocity = Vector {
        x: f.vx,
        y: f.vy,
        z: f.vz,
    };
    if state::vector_is_finite(position) {
        return state::vector_is_finite(velocity);
    }
    false
}

#[tactic(auto, unfolding(crate::specs::Fixed::finite_answer))]
fn fixed_at(rule: u64, dut: u32, state: State, parts: u64) -> Result<EarthFixed, Refusal>
    requires { sidereal_answer rule state.moment dut ≡ Ok parts }
    ensures { result ≡ finite_answer rule dut state }
{
    require(state::state_is_finite(state), Refusal::NotFinite)?;
    let table = table_on(rule, state.moment, dut, parts);
    let w = rate_on(rule, state.moment, dut, parts);
    let fixed = turned_state(table, w, state);
    require(fixed_is_finite(fixed), Refusal::NotFinite)?;
    Ok(fixed)
}

// (02, R-6) Only a state about the Earth has Earth-fixed coordinates.
#[tactic(auto, unfolding(crate::specs::Fixed::fixed_answer))]
pub fn earth_fixed(rule: u64, dut: u32, state: State) -> Result<EarthFixed, Refusal>
    ensures { result ≡ fixed_answer rule dut state }
{
    require(dut <= base::LONGEST_DUT, Refusal::Setting)?;
    require(rule <= hour::LAST_RULE, Refusal::Setting)?;
    require(state.centre == 1, Refusal::Centre)?;
    let parts = hour::sidereal(rule, state.moment, dut)?;
    fixed_at(rule, dut, state, parts)
}
