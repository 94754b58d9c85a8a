// The types of the specification, which every crate shares. What they mean is defined in specs/.
#![tactic(auto)]

pub mod unit_numbers;
pub mod unit_sizes;

// "The field record and the numbers": the eight fields, in its order.
#[derive(Clone, Copy)]
pub struct Fields {
    pub year: i32,
    pub month: u32,
    pub day: u32,
    pub doy: u32,
    pub week: u32,
    pub wday: u32,
    pub nanos: u64,
    pub offset: i32,
}

// "What is carried over": the full pair of writer and reader, or the Date pair, in which time symbols are literals.
#[derive(Clone, Copy)]
pub enum Pair {
    Full,
    Date,
}

// How a single M is read, and which year two digits stand for: as old sheets have it, or as terminals agreed since.
#[derive(Clone, Copy)]
pub enum Edition {
    First,
    Second,
}

// What a reading is asked for, beside its pattern and text: the pair; whether it is strict: then literals are compared and
// nothing may be left over; and the edition.
#[derive(Clone, Copy)]
pub struct Choices {
    pub pair: Pair,
    pub strict: bool,
    pub edition: Edition,
}

// "Splitting": a run of equal bytes, escaped quotes, a quoted part, one that no quote closes.
#[derive(Clone, Copy)]
pub enum Kind {
    Run,
    Quotes,
    Quoted,
    Open,
}

// A part of a pattern: where it starts and how many pattern bytes it has.
#[derive(Clone, Copy)]
pub struct Part {
    pub kind: Kind,
    pub start: usize,
    pub length: usize,
}

// What a split gives: the first `used` entries are the parts.
#[derive(Clone, Copy)]
pub struct Split {
    pub parts: [Part; 256],
    pub used: usize,
}

// What a number is of, in "What each symbol does".
#[derive(Clone, Copy)]
pub enum Quantity {
    Month,
    Quarter,
    Week,
    Day,
    DayOfYear,
    Weekday,
    WeekdayFromMonday,
    Hour1To12,
    Hour0To11,
    Hour0To23,
    Hour1To24,
    Minute,
    Second,
    Fraction(u8),
}

// The lists of names, each with its own way to choose the name that is written.
#[derive(Clone, Copy)]
pub enum NameList {
    EraAbbreviated,
    EraNarrow,
    EraWide,
    QuarterWide,
    MonthAbbreviated,
    MonthWide,
    MonthNarrow,
    WdayAbbreviated,
    WdayWide,
    WdayNarrow,
    WdayShort,
    PeriodUpper,
    PeriodLower,
    PeriodDotted,
    PeriodLetter,
    NoonUpper,
    NoonLower,
    NoonDotted,
    NoonLetter,
}

// Whether a zone has a group of two digits: never, where it is not zero, always.
#[derive(Clone, Copy)]
pub enum Group {
    Never,
    NotZero,
    Always,
}

// The form of a zone: Z for zero or not, a colon before each group or not, and which groups.
#[derive(Clone, Copy)]
pub struct Zone {
    pub utc: bool,
    pub colon: bool,
    pub minutes: Group,
    pub seconds: Group,
}

// The units of a reading, in the order of the Rust's ParseUnit.
#[derive(Clone, Copy)]
pub enum ParseUnit {
    Year,
    Month,
    DayOfMonth,
    DayOfYear,
    Hour,
    Period,
    PeriodHour,
    Minute,
    Second,
    Decis,
    Centis,
    Millis,
    Micros,
    Nanos,
    Offset,
}

// A row of the table in "What each symbol does": what is written, how it is read and what it carries.
#[derive(Clone, Copy)]
pub enum Rule {
    // A number, padded to `least` digits; read from `least` to `most` bytes, where `zero` gives 0.
    Number {
        quantity: Quantity,
        least: u8,
        most: u8,
        unit: ParseUnit,
        zero: u32,
    },
    // The same, passed over unseen.
    SkippedNumber {
        quantity: Quantity,
        least: u8,
        most: u8,
    },
    // Q and the quarter; two bytes passed over.
    LetterQuarter,
    // A name; `length` bytes passed over.
    SkippedName {
        names: NameList,
        length: usize,
    },
    // A name, matched.
    MatchedName(NameList),
    // A name of `length` bytes, which must be one of the list.
    Letters {
        names: NameList,
        length: usize,
    },
    // The year, padded; read with all digits that follow.
    Years(usize),
    // The year, padded; read with just so many digits.
    FixedYear(usize),
    // yy
    TwoDigitYear,
    // The offset, in the form of a zone.
    Zone(Zone),
}

// What a run of equal bytes does: it stands for itself, or it is a symbol. No Option: to stand for itself is no lack of a rule.
#[derive(Clone, Copy)]
pub enum Role {
    Literal,
    Symbol(Rule),
}

// What a number read may be: a year has 32 signed bits and may have a minus, any other number has 32 unsigned bits.
#[derive(Clone, Copy)]
pub enum Numeral {
    Count,
    Year,
}

// What the first byte of a number says of its sign.
#[derive(Clone, Copy)]
pub enum Sign {
    Minus,
    Bare,
}

// The value that a part carries: its unit and the number.
#[derive(Clone, Copy)]
pub struct Carried {
    pub unit: ParseUnit,
    pub value: i64,
}

// Why a part can't be read: the refusals 8 to 11, 15 and 19.
#[derive(Clone, Copy)]
pub enum Trouble {
    TooFew,
    NoNumber,
    NoName,
    NoSign,
    LiteralDiffers,
    PlusSign,
}

// "Answer numbers": the refusals with what they return.
#[derive(Clone, Copy)]
pub enum Refusal {
    PatternTooLong(usize),
    PatternByte(usize),
    LoneQuote(usize),
    FieldRange(u32),
    NoRoom(usize),
    TextTooLong(usize),
    TextByte(usize),
    InPart {
        trouble: Trouble,
        part: usize,
        place: usize,
    },
    OffsetLength(usize),
    OffsetRange(u32),
    CurrentYear(i32),
    TextLeft(usize),
    NoSuchDay,
    NoDayNumber,
    BookMark,
    BookVersion,
    BookCut,
    BookName(u32),
    ShortRow,
    NotStamp(usize),
    StampRange,
    LeapSecond,
    StampYear,
    StampOffset,
    MendedTooLong,
}

// What a reader gives: the bytes read, the values by unit, the mask of the units read and how many they are; and by unit where in the
// text the part that gave it began, and where it ended.
#[derive(Clone, Copy)]
pub struct Reading {
    pub taken: usize,
    pub values: [i64; 15],
    pub mask: u16,
    pub units: u32,
    pub starts: [u16; 15],
    pub ends: [u16; 15],
}

// A line that is there: where it starts and ends and the next one starts, and its own answer, with places within the line.
#[derive(Clone, Copy)]
pub struct LineRead {
    pub start: usize,
    pub end: usize,
    pub next: usize,
    pub reading: Result<Reading, Refusal>,
}

// What the pattern check says: yes, or the first part that fails and a record for which it does.
#[derive(Clone, Copy)]
pub enum Verdict {
    Yes,
    No { part: usize, record: Fields },
}

// A day of the calendar, in the order of the field record.
#[derive(Clone, Copy)]
pub struct Day {
    pub year: i32,
    pub month: u32,
    pub day: u32,
    pub doy: u32,
    pub week: u32,
    pub wday: u32,
}

// A change of a mending: at a place of the mended pattern a byte stands so often, where it stood so often before.
#[derive(Clone, Copy)]
pub struct Change {
    pub place: usize,
    pub byte: u8,
    pub before: usize,
    pub after: usize,
}

// A list of changes, in the order of their places: the first `used` entries.
#[derive(Clone, Copy)]
pub struct Changes {
    pub listed: [Change; 128],
    pub used: usize,
}

// What a mending gives: how many bytes the mended pattern has, and what was changed.
#[derive(Clone, Copy)]
pub struct Mended {
    pub length: usize,
    pub changes: Changes,
}

// Why changes are not undone: one does not fit the pattern, or a refusal.
#[derive(Clone, Copy)]
pub enum NotUndone {
    Misfit,
    Refused(Refusal),
}

// A date-time of RFC 3339: the day, the nanoseconds of the day, the offset in seconds, and whether that one is unknown.
#[derive(Clone, Copy)]
pub struct Stamp {
    pub year: i32,
    pub month: u32,
    pub day: u32,
    pub nanos: u64,
    pub offset: i32,
    pub unknown: bool,
}
