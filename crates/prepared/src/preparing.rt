// A pattern prepared: its words and the bytes that they hold, the verdicts on it, and the head of its row.
ghost use Rattle.std.specs.Prelude.{◌≡◌, ◌≤◌, length, take, drop, replicate, Ok};
ghost use Rattle.meaning.specs.Answers.{pattern_check};
ghost use Rattle.prepared.specs.PreparedRows.{accepted_row, found_of, headed, prepared_row, refused_row, unmet_of};
ghost use Rattle.prepared.specs.Verdicts.{found_with};
ghost use Rattle.words.specs.Packing.{packed, held_by};
ghost use Rattle.words.specs.Rows.{tail, xor_from};

use crate::opening::TAG;
use crate::verdicts::unmet_number;
use meaning::{Edition, Pair, Refusal};
use pattern::checks::pattern_check;
use refusals::tell;
use verdict::first_unmet;
use words::checking::check_word;
use words::packing::pack;

fn put_head(row: &mut [u64], mark: u64, check: u64, found: u64)
    requires { 259 ≤ length row.old }
    ensures { row.new ≡ headed row.old mark check found }
{
    row[0] = mark;
    row[1] = check;
    row[2] = found;
}

// What is found of a pattern: where its held bytes start, and the verdict on it in both editions.
fn found_in(held: usize, pattern: &[u8]) -> u64
    requires { (held ≤ 256) × (length pattern.now ≤ 256) }
    ensures { result ≡ found_with held (unmet_of Edition.First pattern.now) (unmet_of Edition.Second pattern.now) }
{
    let first = unmet_number(first_unmet(Edition::First, pattern, 0, pattern.len()));
    let second = unmet_number(first_unmet(Edition::Second, pattern, 0, pattern.len()));
    held as u64 + 512 * first + 1048576 * second
}

// All words of a row and what was found, by exclusive or.
fn check_of(found: u64, used: usize, held: usize, row: &[u64]) -> u64
    requires { (259 ≤ length row.now) × (used ≤ 256) × (held ≤ 256) }
    ensures { result ≡ xor_from (xor_from found (take used (tail row.now))) (drop held (tail row.now)) }
{
    let end = 3 + used;
    let of_steps = check_word(found, &row[3..end]);
    let start = 3 + held;
    check_word(of_steps, &row[start..259])
}

fn accept(pair: Pair, pattern: &[u8], row: &mut [u64])
    requires { (259 ≤ length row.old) × (pattern_check pattern.now ≡ Ok tt) }
    ensures { row.new ≡ accepted_row (packed pair pattern.now) (held_by pattern.now) (found_of pattern.now) row.old }
{
    let laid = pack(pair, pattern, &mut row[3..]);
    let used = laid.used;
    let held = laid.held;
    let found = found_in(held, pattern);
    let check = check_of(found, used, held, row);
    put_head(row, TAG + used as u64, check, found);
}

fn refuse(why: Refusal, row: &mut [u64])
    requires { 259 ≤ length row.old }
    ensures { row.new ≡ refused_row why row.old }
{
    let told = tell(why);
    let first = told.first;
    put_head(
        row,
        TAG + (1024 + told.number as u64),
        first.size,
        first.size,
    );
}

// Prepares a pattern into a lent row: the answer is that of its checks 1, 2 and 3, and the row is prepared also where these refuse it.
pub fn prepare(pair: Pair, pattern: &[u8], row: &mut [u64]) -> Result<(), Refusal>
    requires { 259 ≤ length row.old }
    ensures { (result ≡ pattern_check pattern.now) × (row.new ≡ prepared_row pair pattern.now row.old) }
{
    match pattern_check(pattern) {
        Ok(()) => {
            accept(pair, pattern, row);
            Ok(())
        }
        Err(why) => {
            refuse(why, row);
            Err(why)
        }
    }
}

// The same by value; the row says itself whether the pattern was refused.
#[derive(Clone, Copy)]
pub struct Prepared {
    pub row: [u64; 259],
}

pub fn prepare_by_value(pair: Pair, pattern: &[u8]) -> Prepared
    ensures { result.row ≡ prepared_row pair pattern.now (replicate 259 0) }
{
    let mut row = [0u64; 259];
    let _ = prepare(pair, pattern, &mut row);
    Prepared { row }
}
