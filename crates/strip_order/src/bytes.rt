// A float of an order: any bit pattern is allowed, unlike in a book.

ghost use Rattle.std.specs.Prelude.{◌≡◌, ◌+◌, ◌≤◌, length};
ghost use Rattle.base_bytes.specs.Bytes.{float_at};

use base_bytes::inner::u64_at;

pub fn float_at(order: &[u8], at: usize) -> f64
    requires { at + 8 ≤ length order.now }
    ensures { result ≡ float_at order.now at }
{
    text_read::float_of_bits(u64_at(order, at))
}
