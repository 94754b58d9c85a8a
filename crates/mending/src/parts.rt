// What a part becomes: its own change, and how many spaces are put behind it.
ghost use Rattle.std.specs.Prelude.{◌≡◌, ◌+◌, ◌≤◌, length, drop};
ghost use Rattle.meaning.specs.Mending as mending;
ghost use Rattle.meaning.specs.Splitting.{contents};
ghost use Rattle.mending.specs.Asked.{passed_over};
ghost use Rattle.pattern.specs.First.{content_of};
ghost use Rattle.pattern.specs.Next.{Next};
ghost use Rattle.trust.specs.Mending as trust;

use meaning::{Change, Edition, Kind, Part};
use pattern::quoted::ends_in_quote;
use trust::Need;
use verdict::first_unmet;

// M, once in the first edition.
fn month_count(edition: Edition, n: usize) -> usize
    ensures { result ≡ mending.month_count edition n }
{
    match edition {
        Edition::First if n == 1 => 2,
        Edition::First | Edition::Second => n,
    }
}

// y, twice, five or six times.
fn year_count(n: usize) -> usize
    ensures { result ≡ mending.year_count n }
{
    match n {
        2 => 4,
        5 | 6 => 7,
        _ => n,
    }
}

// How often a byte stands that stood n times.
#[tactic(auto, unfolding(meaning::specs::Mending::mended_count))]
fn mended_count(edition: Edition, b: u8, n: usize) -> usize
    ensures { result ≡ mending.mended_count edition b n }
{
    match b {
        b'M' => month_count(edition, n),
        b'y' => year_count(n),
        _ => n,
    }
}

// The change of the quotes at the end of a part that is no run.
fn closing(place: usize, after: usize) -> Change
    ensures { result ≡ mending.change place 39 0 after }
{
    Change {
        place,
        byte: b'\'',
        before: 0,
        after,
    }
}

// A part's own change, where it stands at a place of the mended pattern.
pub fn own_change(edition: Edition, pattern: &[u8], part: Part, at: usize) -> Change
    requires next { Next pattern.now part.start part }
    requires pattern_bound { at + length pattern.now ≤ 512 }
    ensures { result ≡ mending.own_change edition at (content_of pattern.now part) }
{
    let start = part.start;
    let n = part.length;
    match part.kind {
        Kind::Run => {
            let b = pattern[start];
            Change {
                place: at,
                byte: b,
                before: n,
                after: mended_count(edition, b, n),
            }
        }
        Kind::Quotes | Kind::Quoted => closing(at + n, 0),
        Kind::Open => {
            let after = if ends_in_quote(&pattern[start + 1..]) {
                1
            } else {
                0
            };
            closing(at + n, after)
        }
    }
}

// How many bytes of a part, by its first byte and length, the check is not asked about: yy becomes yyyy, which needs what its
// second y needs by itself.
fn passed_over(b: u8, n: usize) -> usize
    ensures { result ≡ passed_over b n }
{
    if b == b'y' && n == 2 { 1 } else { 0 }
}

fn spaces_for(need: Need) -> usize
    ensures { result ≡ trust.spaces_for need }
{
    match need {
        Need::NoDigit => 1,
        Need::NoSecondDigit => 2,
        Need::Nothing | Need::Broken | Need::LosesYear => 0,
    }
}

// How many spaces are put behind a part. One with another own change has a need that no spaces are put in for, and needs none after
// it. The own changes of those behind it do not change what they can begin with.
pub fn spaces_behind(edition: Edition, pattern: &[u8], part: Part) -> usize
    requires { Next pattern.now part.start part }
    ensures { result ≡ trust.gap edition (content_of pattern.now part) (contents (drop (part.start + part.length) pattern.now)) }
{
    let start = part.start;
    let from = start + passed_over(pattern[start], part.length);
    match first_unmet(edition, pattern, from, start + part.length) {
        None => 0,
        Some(unmet) => spaces_for(unmet.need),
    }
}
