// The Date pair's writer, Date::format of the Rust: the same walk with time symbols as plain literals.
ghost use Rattle.meaning.specs.Names.{english};
ghost use Rattle.meaning.specs.Promises.{Writes};

use crate::format_english;
use meaning::{Fields, Pair, Refusal};

pub fn format(pattern: &[u8], f: Fields, out: &mut [u8]) -> Result<usize, Refusal>
    ensures { Writes Pair.Date english pattern.now f out.old result out.new }
{
    format_english(Pair::Date, pattern, f, out)
}
