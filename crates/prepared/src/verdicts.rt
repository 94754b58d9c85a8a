// The verdicts on a pattern as numbers: 0 for yes, else the part and the need that is not met.
ghost use Rattle.std.specs.Prelude.{◌≡◌, ◌≤◌, ◌<◌, length};
ghost use Rattle.prepared.specs.Verdicts.{answer_number, need_in, need_number, unmet_held, unmet_in, unmet_number};

use meaning::Edition;
use trust::{Need, Unmet};

fn need_number(need: Need) -> u64
    ensures { result ≡ need_number need }
{
    match need {
        Need::Nothing => 0,
        Need::NoDigit => 1,
        Need::NoSecondDigit => 2,
        Need::Broken => 3,
        Need::LosesYear => 4,
    }
}

pub fn unmet_number(unmet: Option<Unmet>) -> u64
    requires { unmet_number unmet < 2048 }
    ensures { result ≡ unmet_number unmet }
{
    match unmet {
        None => 0,
        Some(Unmet { part, need }) => 8 * (part as u64) + 1 + need_number(need),
    }
}

fn need_in(n: u64) -> Need
    ensures { result ≡ need_in n }
{
    match n {
        0 => Need::Nothing,
        1 => Need::NoDigit,
        2 => Need::NoSecondDigit,
        3 => Need::Broken,
        _ => Need::LosesYear,
    }
}

fn unmet_in(n: u64) -> Option<Unmet>
    ensures { result ≡ unmet_in n }
{
    let at = n.checked_sub(1)?;
    Some(Unmet {
        part: (at / 8) as usize,
        need: need_in(at % 8),
    })
}

fn answer_number(edition: Edition, found: u64) -> u64
    ensures { result ≡ answer_number edition found }
{
    match edition {
        Edition::First => found / 512 % 2048,
        Edition::Second => found / 1048576 % 2048,
    }
}

// The answer for an edition that a row holds.
pub fn verdict_in(edition: Edition, row: &[u64]) -> Option<Unmet>
    requires { 259 ≤ length row.now }
    ensures { result ≡ unmet_held edition row.now }
{
    unmet_in(answer_number(edition, row[2]))
}
