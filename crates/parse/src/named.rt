// Names: what the name at a place of its list carries, and a name in a text.
ghost use Rattle.std.specs.Prelude.{◌≡◌, ◌≤◌, ◌<◌, length, drop};
ghost use Rattle.meaning.specs.Names.{names, english};
ghost use Rattle.meaning.specs.OpenedBooks.{book_in};
ghost use Rattle.meaning.specs.Reading as reading;
ghost use Rattle.parse.specs.Matches.{named_by, IndexBelow};
ghost use Rattle.parse.specs.Steps.{part_at};

use crate::cursor::{Cursor, Read, Stop};
use meaning::{Carried, NameList, ParseUnit};

fn month_at(i: usize) -> Option<Carried>
    requires { i < 12 }
    ensures { result ≡ reading.month_at i }
{
    let month = (i + 1) as i64;
    Some(Carried {
        unit: ParseUnit::Month,
        value: month,
    })
}

// 1 from the first of the afternoon names on.
fn period_at(afternoon: usize, i: usize) -> Option<Carried>
    ensures { result ≡ reading.period_at afternoon i }
{
    Some(Carried {
        unit: ParseUnit::Period,
        value: if i < afternoon { 0 } else { 1 },
    })
}

#[tactic(auto, unfolding(meaning::specs::Reading::name_carries, meaning::specs::Names::names, meaning::specs::Names::english, meaning::specs::Bytes::bytes))]
pub fn name_carries(list: NameList, i: usize) -> Option<Carried>
    requires { i < length (names english list) }
    ensures { result ≡ reading.name_carries list i }
{
    match list {
        NameList::MonthAbbreviated | NameList::MonthWide => month_at(i),
        NameList::PeriodDotted | NameList::PeriodLetter => period_at(1, i),
        NameList::PeriodUpper
        | NameList::PeriodLower
        | NameList::NoonDotted
        | NameList::NoonLetter => period_at(2, i),
        NameList::NoonUpper | NameList::NoonLower => period_at(3, i),
        _ => None,
    }
}

// What a match in a list gives.
pub fn named(list: NameList, name: Result<Read<usize>, Stop>) -> Result<Read<Option<Carried>>, Stop>
    requires { IndexBelow (length (names english list)) name }
    ensures { result ≡ named_by list name }
{
    let name = name?;
    Ok(Read {
        value: name_carries(list, name.value),
        next: name.next,
    })
}

pub fn parse_name(
    book: &[u8],
    list: NameList,
    text: &[u8],
    cursor: Cursor,
) -> Result<Read<Option<Carried>>, Stop>
    requires { cursor.at ≤ length text.now }
    ensures { result ≡ part_at cursor.at (reading.matched_name (book_in book.now) list (drop cursor.at text.now)) }
{
    named(list, cursor.match_name(book, list, text))
}
