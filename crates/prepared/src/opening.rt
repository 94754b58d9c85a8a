// What a lent row is: a prepared pattern, one that was refused, or none.
ghost use Rattle.std.specs.Prelude.{◌≡◌, ◌≤◌, length};
ghost use Rattle.prepared.specs.Opened.{opened, refused_by, accepted_by};
ghost use Rattle.words.specs.Rows.{refusal_of};

use meaning::Refusal;
use words::checking::check_word;

// What the mark adds to: "Sheet" and three zero bytes, read as one number.
pub const TAG: u64 = 6010165189138186240;

// The refusal of a pattern that was refused, by its mark and its detail.
fn refusal_in(used: u64, detail: u64) -> Refusal
    ensures { result ≡ refusal_of used detail }
{
    match used {
        1025 => Refusal::PatternTooLong(detail as usize),
        1026 => Refusal::PatternByte(detail as usize),
        _ => Refusal::LoneQuote(detail as usize),
    }
}

// Of a pattern that was refused, where the mark says so.
fn refused(n: u64, row: &[u64]) -> Option<Result<usize, Refusal>>
    requires { 259 ≤ length row.now }
    ensures { result ≡ refused_by n row.now }
{
    let detail = row[2];
    if 1025 <= n && n <= 1027 && detail < 9223372036854775808 && detail == row[1] {
        return Some(Err(refusal_in(n, detail)));
    }
    None
}

// Of an accepted one: so many words of steps, where all words are those that were laid.
fn accepted(used: usize, row: &[u64]) -> Option<Result<usize, Refusal>>
    requires { (259 ≤ length row.now) × (used ≤ 256) }
    ensures { result ≡ accepted_by used row.now }
{
    let found = row[2];
    let from = (found % 512) as usize;
    if 256 < from {
        return None;
    }
    let end = 3 + used;
    let sums = check_word(found, &row[3..end]);
    let start = 3 + from;
    let check = check_word(sums, &row[start..259]);
    if check != row[1] {
        return None;
    }
    Some(Ok(used))
}

// How many words of steps a prepared pattern has, or what it was refused for; none where the row is no prepared pattern.
pub fn open(row: &[u64]) -> Option<Result<usize, Refusal>>
    ensures { result ≡ opened row.now }
{
    if row.len() < 259 {
        return None;
    }
    let mark = row[0];
    if mark < TAG {
        return None;
    }
    let n = mark - TAG;
    if n <= 256 {
        return accepted(n as usize, row);
    }
    refused(n, row)
}
