// The coefficients of an entry: n finite floats for each of X, Y and Z, in a book from an offset on.

ghost use Rattle.std.specs.Prelude.{true, ◌≡◌, ◌+◌, ◌*◌, ◌<◌, ◌≤◌, length};
ghost use Rattle.book_check.specs.Contents.{float_of};
ghost use Rattle.book_check.specs.Check.{floats_finite};

use base_bytes::inner::float_at;

#[derive(Clone, Copy)]
pub struct Coefficients<'a> {
    pub book: &'a [u8],
    pub offset: usize,
    pub n: usize,
    pub ghost inside: { (1 ≤ n) × (n ≤ 16) × (offset + 24 * n ≤ length book.now) },
    pub ghost finites: { floats_finite book.now offset (3 * n) ≡ true },
}

impl Coefficients<'_> {
    // Number k of them all, counted from 0.
    #[tactic(auto, using(crate::proofs::Turns::float_finite))]
    pub fn at(&self, k: usize) -> f64
        requires { k < 3 * self.now.n }
        ensures { result ≡ float_of self.now.book.now self.now.offset k }
    {
        float_at(self.book, self.offset + 8 * k)
    }
}
