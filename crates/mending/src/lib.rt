// Request [12], mend this pattern: a pattern that the check says yes to, with the list of what was altered; and the altered
// undone again.
#![tactic(auto)]

pub mod listing;
pub mod parts;
pub mod undoing;
pub mod walk;

ghost use Rattle.std.specs.Prelude.{[], ◌≡◌, Err};
ghost use Rattle.meaning.specs.Mending.{changes_in};
ghost use Rattle.meaning.specs.Promises.{Undoes};
ghost use Rattle.trust.specs.Mending.{mended_by, Mends};

use crate::listing::list_changes;
use crate::undoing::{all_fit, listed, put_undone, undone_length};
use crate::walk::{mended_length, put_mended};
use fields::checks::trust_check;
use meaning::{Changes, Edition, Mended, NotUndone, Refusal};

// Mends a pattern for an edition, in a current year: the refusals 1, 2, 3, 14, 30, 5; else the mended pattern lies in the output,
// and what was changed is listed.
pub fn mend(edition: Edition, pattern: &[u8], year: i32, out: &mut [u8]) -> Result<Mended, Refusal>
    ensures { Mends edition pattern.now year out.old result out.new }
{
    trust_check(edition, pattern, year)?;
    let n = mended_length(edition, pattern);
    if 256 < n {
        return Err(Refusal::MendedTooLong);
    }
    if out.len() < n {
        return Err(Refusal::NoRoom(n));
    }
    Ok(Mended {
        length: put_mended(edition, pattern, out),
        changes: list_changes(edition, pattern),
    })
}

// Undoes listed changes of a pattern: the pattern as it was lies in the output, where each change fits the pattern and there is
// room, else refusal 5.
pub fn undo(pattern: &[u8], changes: Changes, out: &mut [u8]) -> Result<usize, NotUndone>
    ensures { Undoes pattern.now (changes_in changes) out.old result out.new }
{
    let listed = listed(&changes);
    if !all_fit(pattern, listed) {
        return Err(NotUndone::Misfit);
    }
    let length = undone_length(pattern, listed);
    if out.len() < length {
        return Err(NotUndone::Refused(Refusal::NoRoom(length)));
    }
    Ok(put_undone(pattern, listed, out))
}
