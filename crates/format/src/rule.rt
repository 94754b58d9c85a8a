// What a symbol writes: the text of its rule.
ghost use Rattle.std.specs.Prelude.{◌≡◌, ◌+◌, ◌≤◌, length, Ok};
ghost use Rattle.laws.specs.Laid.{Laid};
ghost use Rattle.meaning.specs.Answers.{fields_check};
ghost use Rattle.meaning.specs.OpenedBooks.{book_in};
ghost use Rattle.meaning.specs.Writing.{rule_text};

use crate::symbols::{put_name_of, put_quantity};
use crate::years::{two_digit_year, zero_padded_i};
use crate::zones::format_zone;
use digits::laying::put_byte;
use meaning::{Fields, Quantity, Rule};

// A single q.
const QUARTER: Rule = Rule::SkippedNumber {
    quantity: Quantity::Quarter,
    least: 1,
    most: 1,
};

// It calls itself for the quarter behind its letter, which keeps it a call of its own where steps are written.
// An arm for each rule, as its text is defined: the room for that text is what the arm's writer asks for.
pub fn format_rule(book: &[u8], rule: Rule, f: Fields, out: &mut [u8], at: usize) -> usize
    requires f_value { fields_check f ≡ Ok tt }
    requires f_in_bounds { at + length (rule_text (book_in book.now) rule f) ≤ length out.old }
    ensures { Laid out.old out.new at result (rule_text (book_in book.now) rule f) }
{
    match rule {
        Rule::Number {
            quantity,
            least,
            ..
        } => put_quantity(quantity, least, f, out, at),
        Rule::SkippedNumber {
            quantity,
            least,
            ..
        } => put_quantity(quantity, least, f, out, at),
        Rule::LetterQuarter => {
            let next = put_byte(b'Q', out, at);
            format_rule(book, QUARTER, f, out, next)
        }
        Rule::SkippedName { names, .. } => put_name_of(book, names, f, out, at),
        Rule::MatchedName(names) => put_name_of(book, names, f, out, at),
        Rule::Letters { names, .. } => put_name_of(book, names, f, out, at),
        Rule::Years(k) => zero_padded_i(f.year, k, out, at),
        Rule::FixedYear(k) => zero_padded_i(f.year, k, out, at),
        Rule::TwoDigitYear => two_digit_year(f.year, out, at),
        Rule::Zone(zone) => format_zone(zone, f.offset, out, at),
    }
}
