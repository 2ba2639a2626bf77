// The orders that the programs strip and strip144 read: document 01's of 120 bytes, and (02, R-7) the same with J, A
// and K after it.

#![tactic(auto)]

mod bytes;

ghost use Rattle.std.specs.Prelude.{◌≡◌, ◌≤◌, length};
ghost use Rattle.strip_order.specs.Order.{order_length, terms_of, setting_of, injection_of, order_of, read_order};

use base::Refusal;
use base_bytes::inner::{u32_at, u64_at};
use bytes::float_at;
use state::{Injection, Setting};

// The form of the order at the start of an input: `Plain` has 120 bytes, `Whole` 144.
#[derive(Clone, Copy)]
pub enum Form {
    Plain,
    Whole,
}

// The setting's last three floats: J and A of the Earth's oblateness, K of the sunlight.
#[derive(Clone, Copy)]
pub struct Terms {
    pub j: f64,
    pub a: f64,
    pub k: f64,
}

#[derive(Clone, Copy)]
pub struct Order {
    pub setting: Setting,
    pub injection: Injection,
    pub h: u32,
    pub target: u64,
}

// No order is longer.
pub const LONGEST_ORDER: usize = 144;

pub fn order_length(form: Form) -> usize
    ensures { result ≡ order_length form }
{
    match form {
        Form::Plain => 120,
        Form::Whole => 144,
    }
}

// A plain order has no terms: they are zero.
fn terms_of(form: Form, order: &[u8]) -> Terms
    requires { order_length form ≤ length order.now }
    ensures { result ≡ terms_of form order.now }
{
    match form {
        Form::Plain => Terms {
            j: 0.0,
            a: 0.0,
            k: 0.0,
        },
        Form::Whole => Terms {
            j: float_at(order, 120),
            a: float_at(order, 128),
            k: float_at(order, 136),
        },
    }
}

fn setting_of(order: &[u8], terms: Terms) -> Setting
    requires { 120 ≤ length order.now }
    ensures { result ≡ setting_of order.now terms }
{
    Setting {
        earth: float_at(order, 0),
        moon: float_at(order, 8),
        sun: float_at(order, 16),
        venus: float_at(order, 24),
        mars: float_at(order, 32),
        jupiter: float_at(order, 40),
        dut: u32_at(order, 108),
        j: terms.j,
        a: terms.a,
        k: terms.k,
        rule: 0,
    }
}

fn injection_of(order: &[u8]) -> Injection
    requires { 120 ≤ length order.now }
    ensures { result ≡ injection_of order.now }
{
    Injection {
        moment: u64_at(order, 48),
        centre: 1,
        x: float_at(order, 56),
        y: float_at(order, 64),
        z: float_at(order, 72),
        vx: float_at(order, 80),
        vy: float_at(order, 88),
        vz: float_at(order, 96),
    }
}

fn order_of(form: Form, order: &[u8]) -> Order
    requires { order_length form ≤ length order.now }
    ensures { result ≡ order_of form order.now }
{
    let terms = terms_of(form, order);
    Order {
        setting: setting_of(order, terms),
        injection: injection_of(order),
        h: u32_at(order, 104),
        target: u64_at(order, 112),
    }
}

// The order at the start of the input.
pub fn read_order(form: Form, input: &[u8]) -> Result<Order, Refusal>
    ensures { result ≡ read_order form input.now }
{
    if input.len() < order_length(form) {
        return Err(Refusal::Book);
    }
    Ok(order_of(form, input))
}
