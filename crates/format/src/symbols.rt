// What symbols write: a quantity, a name.
ghost use Rattle.std.specs.Prelude.{◌≡◌, ◌+◌, ◌≤◌, length, Ok};
ghost use Rattle.laws.specs.Laid.{Laid};
ghost use Rattle.meaning.specs.Answers.{fields_check};
ghost use Rattle.meaning.specs.Bytes.{num};
ghost use Rattle.meaning.specs.OpenedBooks.{book_in};
ghost use Rattle.meaning.specs.Writing.{quantity_of, name_text};

use digits::numbers::zero_padded;
use fields::values::{place_of, quantity_of};
use meaning::{Fields, NameList, Quantity};
use names::writing::format_name;

pub fn put_quantity(quantity: Quantity, k: u8, f: Fields, out: &mut [u8], at: usize) -> usize
    requires f_value { fields_check f ≡ Ok tt }
    requires f_in_bounds { at + length (num k (quantity_of quantity f)) ≤ length out.old }
    ensures { Laid out.old out.new at result (num k (quantity_of quantity f)) }
{
    let n = quantity_of(quantity, f);
    zero_padded(n, k as usize, out, at)
}

pub fn put_name_of(book: &[u8], names: NameList, f: Fields, out: &mut [u8], at: usize) -> usize
    requires f_value { fields_check f ≡ Ok tt }
    requires f_in_bounds { at + length (name_text (book_in book.now) names f) ≤ length out.old }
    ensures { Laid out.old out.new at result (name_text (book_in book.now) names f) }
{
    let place = place_of(names, f);
    format_name(book, names, place, out, at)
}
