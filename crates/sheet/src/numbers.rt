// What the numbers and rows that a caller lends stand for: the choices of a reading, its book, and the mask of one.
ghost use Rattle.std.specs.Prelude.{◌≡◌};
ghost use Rattle.sheet.specs.Numbers.{pair_of, edition_of, choices_of, is_book, is_marked};

use meaning::{Choices, Edition, Pair, ParseUnit};
use reader::record::was_read;

// Whether a lent row is a book: an opened one, or none, which is English.
pub fn is_book(book: &[u8]) -> bool
    ensures { result ≡ is_book book.now }
{
    book.len() == 0 || book.len() == 1344
}

pub fn pair_of(number: u32) -> Pair
    ensures { result ≡ pair_of number }
{
    if number % 2 == 1 {
        return Pair::Date;
    }
    Pair::Full
}

pub fn edition_of(number: u32) -> Edition
    ensures { result ≡ edition_of number }
{
    if number / 4 % 2 == 1 {
        return Edition::Second;
    }
    Edition::First
}

// The choices that a number stands for.
pub fn choices_of(number: u32) -> Choices
    ensures { result ≡ choices_of number }
{
    Choices {
        pair: pair_of(number),
        strict: number / 2 % 2 == 1,
        edition: edition_of(number),
    }
}

// No unit has a bit above the fifteen.
pub fn is_marked(mask: i64, unit: u32) -> bool
    ensures { result ≡ is_marked mask unit }
{
    if mask < 0 {
        return false;
    }
    match ParseUnit::try_from(u64::from(unit)) {
        Ok(unit) => was_read((mask as u64 % 32768) as u16, unit),
        Err(_) => false,
    }
}
