// The changes of a mending as rows of numbers, four for each, and the changes that a row holds.
ghost use Rattle.std.specs.Prelude.{true, ◌∷◌, [], ◌≡◌, ◌+◌, ◌*◌, ◌≤◌, length};
ghost use Rattle.std.proofs.lemmas.List.Edits.{sets};
ghost use Rattle.meaning.specs.Mending.{change_numbers, changes_in};
ghost use Rattle.rows.specs.Changes.{mended_counts, mend_numbers, is_count, is_byte, are_changes, changes_held, is_change_at, change_at, in_undone};
ghost use Rattle.rows.specs.Fits.{ChangeFits, AllChangesFit, MendedFits, UndoneFits};
ghost use Rattle.rows.specs.Rows.{in_row, Given, laid};

use crate::answers::{give_count, give_refusal};
use crate::entries::{entry, lay};
use meaning::{Change, Changes, Mended, NotUndone, Refusal};
use mending::listing::no_changes;

#[tactic(auto, unfolding(meaning::specs::Mending::change_numbers))]
fn lay_change(change: Change, row: &mut [i64], at: usize)
    requires { (at + 4 ≤ length row.old) × ChangeFits change }
    ensures { row.new ≡ sets row.old at (change_numbers (change ∷ [])) }
{
    let place = entry(change.place as u64);
    let byte = entry(change.byte as u64);
    let before = entry(change.before as u64);
    let after = entry(change.after as u64);
    lay(&[place, byte, before, after], row, at);
}

// Those that are none are zeros.
fn lay_changes(changes: &[Change], row: &mut [i64])
    requires { (4 * length changes.now ≤ length row.old) × AllChangesFit changes.now }
    ensures { row.new ≡ laid (change_numbers changes.now) row.old }
{
    for (i, change) in changes.iter().enumerate() {
        lay_change(*change, row, 4 * i);
    }
}

pub fn give_mended(mended: Result<Mended, Refusal>, changes: &mut [i64], answer: &mut [i64]) -> u32
    requires { (512 ≤ length changes.old) × (2 ≤ length answer.old) × MendedFits mended }
    ensures { Given (in_row 2 (mended_counts mended)) answer.old answer.new result × (changes.new ≡ laid (mend_numbers mended) changes.old) }
{
    match mended {
        Ok(mended) => {
            let length = entry(mended.length as u64);
            let used = entry(mended.changes.used as u64);
            lay_changes(&mended.changes.listed, changes);
            lay(&[length, used], answer, 0);
            0
        }
        Err(why) => give_refusal(why, 2, answer),
    }
}

fn is_count(number: i64) -> bool
    ensures { result ≡ is_count number }
{
    0 <= number
}

fn is_byte(number: i64) -> bool
    ensures { result ≡ is_byte number }
{
    0 <= number && number <= 255
}

fn is_change(row: &[i64], at: usize) -> bool
    requires { at + 4 ≤ length row.now }
    ensures { result ≡ is_change_at row.now at }
{
    is_count(row[at]) && is_byte(row[at + 1]) && is_count(row[at + 2]) && is_count(row[at + 3])
}

fn change_at(row: &[i64], at: usize) -> Change
    requires { (at + 4 ≤ length row.now) × (is_change_at row.now at ≡ true) }
    ensures { result ≡ change_at row.now at }
{
    Change {
        place: row[at] as usize,
        byte: row[at + 1] as u8,
        before: row[at + 2] as usize,
        after: row[at + 3] as usize,
    }
}

// By places: an iterator over groups of four gives slices in an Option, which the archive for WebAssembly does without.
pub fn are_changes(row: &[i64]) -> bool
    requires { length row.now ≤ 512 }
    ensures { result ≡ are_changes row.now }
{
    if row.len() % 4 != 0 {
        return false;
    }
    // Over numbers: a change is four entries, and it is asked for by the row and its place.
    for i in 0..row.len() / 4 {
        if !is_change(row, 4 * i) {
            return false;
        }
    }
    true
}

// The changes of a row that holds some.
pub fn changes_held(row: &[i64]) -> Changes
    requires { (length row.now ≤ 512) × (are_changes row.now ≡ true) }
    ensures { changes_in result ≡ changes_held row.now }
{
    let mut listed = no_changes().listed;
    let used = row.len() / 4;
    // Over numbers, as there: each counts entries of the list and, by fours, of the row.
    for i in 0..used {
        listed[i] = change_at(row, 4 * i);
    }
    Changes { listed, used }
}

pub fn give_undone(undone: Result<usize, NotUndone>, answer: &mut [i64]) -> u32
    requires { (2 ≤ length answer.old) × UndoneFits undone }
    ensures { Given (in_undone undone) answer.old answer.new result }
{
    match undone {
        Ok(n) => give_count(n as u64, answer),
        Err(NotUndone::Misfit) => 104,
        Err(NotUndone::Refused(why)) => give_refusal(why, 2, answer),
    }
}
