// RFC 3339 stamps: the public reader and the public writer.
#![tactic(auto)]

pub mod checks;
pub mod grammar;
pub mod reading;
pub mod shape;
pub mod writing;

ghost use Rattle.meaning.specs.Promises.{ReadsStamp, WritesStamp};

use crate::checks::stamp_check;
use crate::grammar::date_time;
use crate::reading::accept;
use crate::writing::{put_stamp, stamp_length};
use meaning::{Refusal, Stamp};
use reader::checks::text_check;

// Reads a text that is a stamp and nothing else: 6, 7, 25, 26, 27, 28, 17.
#[tactic(auto, unfolding(meaning::specs::Stamps::read_stamp))]
pub fn read_stamp(text: &[u8]) -> Result<Stamp, Refusal>
    ensures { ReadsStamp text.now result }
{
    text_check(text)?;
    let parts = date_time(text).map_err(|halted| Refusal::NotStamp(halted.place))?;
    accept(parts)
}

// Writes a stamp: 4, 28, 17, 29, 5. A refused write alters no byte, an accepted one just those it reports.
#[tactic(auto, unfolding(meaning::specs::Stamps::write_stamp, meaning::specs::Stamps::stamp_output, meaning::specs::Stamps::stamp_write_check))]
pub fn write_stamp(stamp: Stamp, out: &mut [u8]) -> Result<usize, Refusal>
    ensures { WritesStamp stamp out.old result out.new }
{
    stamp_check(stamp)?;
    let n = stamp_length(stamp);
    if out.len() < n {
        return Err(Refusal::NoRoom(n));
    }
    Ok(put_stamp(stamp, out))
}
