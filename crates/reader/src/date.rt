// The Date pair's reader, Date::parse of the Rust up to the filled record: the same walk with time symbols as plain literals.
ghost use Rattle.meaning.specs.Names.{english};
ghost use Rattle.meaning.specs.Promises.{Reads};
ghost use Rattle.meaning.specs.Whole.{plain};

use crate::{parse_with, plain};
use meaning::{Pair, Reading, Refusal};

pub fn parse(pattern: &[u8], text: &[u8], year: i32) -> Result<Reading, Refusal>
    ensures { Reads (plain Pair.Date) english pattern.now text.now year result }
{
    let none: [u8; 0] = [];
    parse_with(plain(Pair::Date), &none, pattern, text, year)
}
