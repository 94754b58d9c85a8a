// A record written by a row.
ghost use Rattle.std.specs.Prelude.{◌≡◌, ◌≤◌, length};
ghost use Rattle.prepared.specs.Uses.{prepared_output, prepared_wrote};
ghost use Rattle.rows.specs.Rows.{Given};

use crate::opening::open;
use meaning::Fields;
use rows::answers::{give_counted, give_refusal};
use word_writer::writing::write_words;

// The answer: the length and 0, or the refusal's details. Where the row is not that of a prepared pattern: 105, and nothing is altered.
pub fn write(book: &[u8], row: &[u64], f: Fields, out: &mut [u8], answer: &mut [i64]) -> u32
    requires { 2 ≤ length answer.old }
    ensures { Given (prepared_wrote book.now row.now f out.old) answer.old answer.new result × (out.new ≡ prepared_output book.now row.now f out.old) }
{
    let Some(opened) = open(row) else {
        return 105;
    };
    match opened {
        Err(why) => give_refusal(why, 2, answer),
        Ok(used) => give_counted(write_words(book, &row[3..259], used, f, out), answer),
    }
}
