// What a symbol reads, by its rule.
ghost use Rattle.std.specs.Prelude.{◌≡◌, ◌≤◌, length, drop};
ghost use Rattle.meaning.specs.OpenedBooks.{book_in};
ghost use Rattle.meaning.specs.Reading.{read_rule};
ghost use Rattle.parse.specs.Steps.{part_at};

use crate::cursor::{Cursor, Read, Stop};
use crate::named::{named, parse_name};
use crate::steps::{pass, take_number};
use crate::years::{parse_fixed_year, parse_two_digit_year, parse_years};
use crate::zones::parse_zone;
use meaning::{Carried, Edition, Rule};
use numerals::extents::extent;
use rules::numbers::most_read;

// An arm for each rule, as the definition has a row: each carries other numbers to its reader.
pub fn parse_rule(
    edition: Edition,
    book: &[u8],
    rule: Rule,
    current_year: u32,
    text: &[u8],
    cursor: Cursor,
) -> Result<Read<Option<Carried>>, Stop>
    requires { cursor.at ≤ length text.now }
    ensures { result ≡ part_at cursor.at (read_rule edition (book_in book.now) current_year rule (drop cursor.at text.now)) }
{
    match rule {
        Rule::Number {
            quantity,
            least,
            most,
            unit,
            zero,
        } => {
            let k = extent(least, most_read(edition, quantity, most), text, cursor.at);
            take_number(unit, zero, k, text, cursor)
        }
        Rule::SkippedNumber {
            quantity: _,
            least,
            most,
        } => {
            let k = extent(least, most, text, cursor.at);
            pass(k, text, cursor)
        }
        Rule::LetterQuarter => pass(2, text, cursor),
        Rule::SkippedName { names: _, length } => pass(length, text, cursor),
        Rule::MatchedName(names) => parse_name(book, names, text, cursor),
        Rule::Letters { names, length } => named(
            names,
            cursor.match_letters(book, names, length, text),
        ),
        Rule::Years(_) => parse_years(text, cursor),
        Rule::FixedYear(count) => parse_fixed_year(count, text, cursor),
        Rule::TwoDigitYear => parse_two_digit_year(edition, current_year, text, cursor),
        Rule::Zone(zone) => parse_zone(zone, text, cursor),
    }
}
