// "Answer numbers" of the specification: a refusal's number and what it returns.
#![tactic(auto)]

ghost use Rattle.std.specs.Prelude.{◌≡◌};
ghost use Rattle.meaning.specs.Answers.{trouble_number};
ghost use Rattle.refusals.specs.Told.{told, unsigned, one_detail};

use fields::signed::{is_negative, size};
use meaning::{Refusal, Trouble};

#[derive(Clone, Copy)]
pub struct Detail {
    pub negative: bool,
    pub size: u64,
}

// A refusal's number and one or two details.
#[derive(Clone, Copy)]
pub struct Told {
    pub number: u32,
    pub first: Detail,
    pub second: Option<Detail>,
}

fn number_of(trouble: Trouble) -> u32
    ensures { result ≡ trouble_number trouble }
{
    match trouble {
        Trouble::TooFew => 8,
        Trouble::NoNumber => 9,
        Trouble::NoName => 10,
        Trouble::NoSign => 11,
        Trouble::LiteralDiffers => 15,
        Trouble::PlusSign => 19,
    }
}

fn detail_of(n: usize) -> Detail
    ensures { result ≡ unsigned n }
{
    Detail {
        negative: false,
        size: n as u64,
    }
}

fn with_one(number: u32, n: usize) -> Told
    ensures { result ≡ one_detail number n }
{
    Told {
        number,
        first: detail_of(n),
        second: None,
    }
}

#[tactic(auto, unfolding(meaning::specs::Answers::number, meaning::specs::Answers::details))]
pub fn tell(why: Refusal) -> Told
    ensures { result ≡ told why }
{
    match why {
        Refusal::PatternTooLong(n) => with_one(1, n),
        Refusal::PatternByte(place) => with_one(2, place),
        Refusal::LoneQuote(place) => with_one(3, place),
        Refusal::FieldRange(field) => with_one(4, field as usize),
        Refusal::NoRoom(n) => with_one(5, n),
        Refusal::TextTooLong(n) => with_one(6, n),
        Refusal::TextByte(place) => with_one(7, place),
        Refusal::InPart {
            trouble,
            part,
            place,
        } => Told {
            number: number_of(trouble),
            first: detail_of(part),
            second: Some(detail_of(place)),
        },
        Refusal::OffsetLength(n) => with_one(12, n),
        Refusal::OffsetRange(which) => with_one(13, which as usize),
        Refusal::CurrentYear(year) => Told {
            number: 14,
            first: Detail {
                negative: is_negative(year),
                size: size(year) as u64,
            },
            second: None,
        },
        Refusal::TextLeft(place) => with_one(16, place),
        Refusal::NoSuchDay => with_one(17, 0),
        Refusal::NoDayNumber => with_one(18, 0),
        Refusal::BookMark => with_one(20, 0),
        Refusal::BookVersion => with_one(21, 0),
        Refusal::BookCut => with_one(22, 0),
        Refusal::BookName(which) => with_one(23, which as usize),
        Refusal::ShortRow => with_one(24, 0),
        Refusal::NotStamp(place) => with_one(25, place),
        Refusal::StampRange => with_one(26, 0),
        Refusal::LeapSecond => with_one(27, 0),
        Refusal::StampYear => with_one(28, 0),
        Refusal::StampOffset => with_one(29, 0),
        Refusal::MendedTooLong => with_one(30, 0),
    }
}
