// What a step reads: its rule, or a literal that is skipped unseen; a strict reading compares it afterwards (literals).
ghost use Rattle.std.specs.Prelude.{◌≡◌, ◌≤◌, length, drop};
ghost use Rattle.meaning.specs.OpenedBooks.{book_in};
ghost use Rattle.parse.specs.ShortReads.{quick_digits, quick_unit};
ghost use Rattle.parse.specs.Steps.{part_at, plain_read};
ghost use Rattle.parse.specs.Years.{long_year_read};
ghost use Rattle.rules.specs.Steps.{means, Held};

use crate::cursor::{Cursor, Read, Stop};
use crate::named::parse_name;
use crate::rule::parse_rule;
use crate::short::{Digits, parse_short};
use crate::steps::pass;
use crate::years::{parse_fixed_year, parse_years};
use meaning::{Carried, Edition, NameList, ParseUnit, Role};
use pattern::quoted::unescaped_length;
use rules::short::{short_rule, short_unit};
use rules::step::Step;

// y, more than twice.
fn parse_year(count: usize, text: &[u8], cursor: Cursor) -> Result<Read<Option<Carried>>, Stop>
    requires { cursor.at ≤ length text.now }
    ensures { result ≡ part_at cursor.at (long_year_read count (drop cursor.at text.now)) }
{
    if count <= 4 {
        return parse_years(text, cursor);
    }
    parse_fixed_year(count, text, cursor)
}

// "Literals are skipped unseen": one byte of text for each that the part stands for.
// An arm for each step, as the definition has a row: of a literal only the length counts, of a symbol only its rule.
fn parse_other(
    edition: Edition,
    book: &[u8],
    step: Step,
    pattern: &[u8],
    current_year: u32,
    text: &[u8],
    cursor: Cursor,
) -> Result<Read<Option<Carried>>, Stop>
    requires held { Held pattern.now step }
    requires at_in_bounds { cursor.at ≤ length text.now }
    ensures { result ≡ part_at cursor.at (plain_read edition (book_in book.now) current_year (means pattern.now step) (drop cursor.at text.now)) }
{
    match step {
        Step::Times { byte: _, count } => pass(count, text, cursor),
        Step::Quoted { from, to } => {
            let k = unescaped_length(&pattern[from..to]);
            pass(k, text, cursor)
        }
        Step::Open { from } => {
            let k = unescaped_length(&pattern[from..]);
            pass(k, text, cursor)
        }
        Step::Short { number, count } => {
            parse_rule(
                edition,
                book,
                short_rule(number, count),
                current_year,
                text,
                cursor,
            )
        }
        Step::Year(count) => parse_year(count, text, cursor),
        Step::MonthAbbreviated => parse_name(book, NameList::MonthAbbreviated, text, cursor),
        Step::MonthWide => parse_name(book, NameList::MonthWide, text, cursor),
        Step::WdayWide => parse_name(book, NameList::WdayWide, text, cursor),
        Step::Run {
            role,
            byte: _,
            count,
        } => match role {
            Role::Literal => pass(count, text, cursor),
            Role::Symbol(rule) => parse_rule(edition, book, rule, current_year, text, cursor),
        },
    }
}

// The digits of a short number, if the step is one and they are there.
fn quick_digits(edition: Edition, step: Step, text: &[u8], at: usize) -> Option<Digits>
    ensures { result ≡ quick_digits edition step (drop at text.now) }
{
    if let Step::Short { number, count } = step {
        return parse_short(edition, number, count, text, at);
    }
    None
}

fn quick_unit(step: Step) -> ParseUnit
    ensures { result ≡ quick_unit step }
{
    if let Step::Short { number, count: _ } = step {
        return short_unit(number);
    }
    ParseUnit::DayOfMonth
}

// What patterns have most is read at once: a byte that stands for itself, and short numbers where their digits are there.
pub fn parse_step(
    edition: Edition,
    book: &[u8],
    step: Step,
    pattern: &[u8],
    current_year: u32,
    text: &[u8],
    cursor: Cursor,
) -> Result<Read<Option<Carried>>, Stop>
    requires held { Held pattern.now step }
    requires at_in_bounds { cursor.at ≤ length text.now }
    ensures { result ≡ part_at cursor.at (plain_read edition (book_in book.now) current_year (means pattern.now step) (drop cursor.at text.now)) }
{
    if let Step::Times { byte: _, count } = step {
        return pass(count, text, cursor);
    }
    if let Some(read) = quick_digits(edition, step, text, cursor.at) {
        return Ok(Read {
            value: Some(Carried {
                unit: quick_unit(step),
                value: read.size as i64,
            }),
            next: Cursor {
                at: cursor.at + read.taken,
            },
        });
    }
    // Given anew, so that an answer made here does not go through memory.
    let read = parse_other(edition, book, step, pattern, current_year, text, cursor)?;
    Ok(read)
}
