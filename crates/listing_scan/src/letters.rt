// The letters of a listing's words, and the digits.

ghost use Rattle.std.specs.Prelude.{◌≡◌};
ghost use Rattle.listing_scan.specs.Reading.{is_decimal, hex_value};
ghost use Rattle.listing_scan.specs.Bytes.{letters_of};

use crate::Word;

// The letters of a word, with the space after it.
pub fn letters_of(w: Word) -> &'static [u8]
    ensures { result.now ≡ letters_of w }
{
    match w {
        Word::Strip => b"STRIP ",
        Word::Arrived => b"ARRIVED ",
        Word::Refused => b"REFUSED ",
        Word::Steps => b"",
    }
}

pub fn is_decimal(b: u8) -> bool
    ensures { result ≡ is_decimal b }
{
    if b < 48 {
        return false;
    }
    b <= 57
}

// 16 for a byte that is not a digit.
pub fn hex_value(b: u8) -> u64
    ensures { result ≡ hex_value b }
{
    if b < 48 {
        return 16;
    }
    if b <= 57 {
        return (b - 48) as u64;
    }
    if b < 97 {
        return 16;
    }
    if b <= 102 {
        return (b - 87) as u64;
    }
    16
}
