// The English names of the specification as constant rows, by the numbers of their tables: first those that are the same in every
// book, then the weekdays and the months. Rows are lent and not given, so that no call lays a table on its stack.
ghost use Rattle.std.specs.Prelude.{◌≡◌, ◌*◌, ◌/◌, ◌<◌, length};
ghost use Rattle.meaning.specs.Names.{names, english};
ghost use Rattle.names.specs.Lists.{list_at, most_at};
ghost use Rattle.names.specs.Table.{Numbered, IsTable};

use meaning::NameList;

// By a match, since no cast gives this: AM and am share a table, noon in both cases too.
#[tactic(auto, unfolding(meaning::specs::Names::names))]
pub fn table_of(list: NameList) -> usize
    ensures { Numbered result list }
{
    match list {
        NameList::EraAbbreviated => 0,
        NameList::EraNarrow => 1,
        NameList::EraWide => 2,
        NameList::PeriodDotted => 3,
        NameList::PeriodLetter => 4,
        NameList::QuarterWide => 5,
        NameList::PeriodUpper | NameList::PeriodLower => 6,
        NameList::NoonDotted => 7,
        NameList::NoonLetter => 8,
        NameList::NoonUpper | NameList::NoonLower => 9,
        NameList::WdayWide => 10,
        NameList::WdayAbbreviated => 11,
        NameList::WdayShort => 12,
        NameList::WdayNarrow => 13,
        NameList::MonthWide => 14,
        NameList::MonthAbbreviated => 15,
        NameList::MonthNarrow => 16,
    }
}

// How many letters the English names of a table have at most: short names of weekdays and months are the first letters of the wide ones.
pub fn most_of(table: usize) -> usize
    requires { table < 17 }
    ensures { result ≡ most_at table }
{
    match table {
        11 | 15 => 3,
        12 => 2,
        13 | 16 => 1,
        _ => 20,
    }
}

// The rooms of the English names of a table.
#[tactic(auto, unfolding(meaning::specs::Names::names, meaning::specs::Names::english, meaning::specs::Bytes::bytes, meaning::specs::OpenedBooks::names_at))]
pub fn rows_of(table: usize) -> &'static [u8]
    requires { table < 17 }
    ensures held { IsTable (most_at table) (length result.now / 21) result.now (names english (list_at table)) }
    ensures size { length result.now ≡ 21 * length (names english (list_at table)) }
{
    match table {
        0 => &crate::rows::ERA_ABBREVIATED,
        1 => &crate::rows::ERA_NARROW,
        2 => &crate::rows::ERA_WIDE,
        3 => &crate::rows::PERIOD_DOTTED,
        4 => &crate::rows::PERIOD_LETTER,
        5 => &crate::rows::QUARTER_WIDE,
        6 => &crate::rows::PERIOD_LETTERS,
        7 => &crate::rows::NOON_DOTTED,
        8 => &crate::rows::NOON_LETTER,
        9 => &crate::rows::NOON_WORDS,
        10..=13 => &crate::rows::WDAYS,
        _ => &crate::rows::MONTHS,
    }
}
