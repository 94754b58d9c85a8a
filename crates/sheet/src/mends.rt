// Request [12], for C and Rust: a pattern mended, with its changes in a lent row, and the changes of such a row undone.
ghost use Rattle.sheet.specs.Sheet.{SheetMends, SheetUndoes};

use crate::numbers::edition_of;
use mending::{mend, undo};
use rows::changes::{are_changes, changes_held, give_mended, give_undone};

// A pattern mended with a check's choices. The row: the length of the mended pattern and how many changes, or the refusal's details. The
// changes: for each of 128 its place in the mended pattern, the byte, how often it stood there and how often it stands there now, zeros
// where there is none; untouched where the pattern is refused.
#[unsafe(no_mangle)]
pub extern "C" fn sheet_mend(
    choices: u32,
    pattern: &[u8],
    year: i32,
    out: &mut [u8],
    changes: &mut [i64],
    answer: &mut [i64],
) -> u32
    ensures { SheetMends choices pattern.now year out.old changes.old answer.old result out.new changes.new answer.new }
{
    if 7 < choices || choices % 2 == 1 {
        return 101;
    }
    if changes.len() < 512 || answer.len() < 2 {
        return 100;
    }
    give_mended(
        mend(edition_of(choices), pattern, year, out),
        changes,
        answer,
    )
}

// The changes of a row undone, four numbers for each, as a mending lays them. The row of the answer: the length and 0, or the refusal's
// details. Where the numbers are no changes, or one does not fit the pattern: 104, and nothing is altered.
#[unsafe(no_mangle)]
pub extern "C" fn sheet_undo(
    pattern: &[u8],
    changes: &[i64],
    out: &mut [u8],
    answer: &mut [i64],
) -> u32
    ensures { SheetUndoes pattern.now changes.now out.old answer.old result out.new answer.new }
{
    if answer.len() < 2 {
        return 100;
    }
    if 512 < changes.len() {
        return 104;
    }
    if !are_changes(changes) {
        return 104;
    }
    give_undone(undo(pattern, changes_held(changes), out), answer)
}
