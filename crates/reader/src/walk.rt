// Reading: the walk over the parts of a pattern. The cursor moves on through the text, and by unit the values are kept, with where
// their parts began and ended.
ghost use Rattle.std.specs.Prelude.{[], ◌≡◌, ◌≤◌, ◌<◌, length};
ghost use Rattle.meaning.specs.OpenedBooks.{book_in};
ghost use Rattle.meaning.specs.Whole.{walk, walk_reading};
ghost use Rattle.meaning.specs.Writing.{steps};
ghost use Rattle.parse.specs.Literals.{Ended, compared};
ghost use Rattle.reader.specs.Steps.{step_at};

use crate::record::unit_number;
use meaning::{Choices, Pair, Reading, Refusal, Trouble};
use parse::cursor::Cursor;
use parse::literals::compare;
use parse::step::parse_step;
use pattern::parts::{next_part, parts_of};
use rules::step::step_of;

// The part at a place of the pattern, found again, with the text before the place where it ended.
fn compare_part(pair: Pair, pattern: &[u8], place: usize, text: &[u8], end: usize) -> Option<usize>
    requires place_in_bounds { place < length pattern.now }
    requires ended { Ended (step_at pair pattern.now place) (length text.now) end }
    ensures { result ≡ compared (step_at pair pattern.now place) text.now end }
{
    let part = next_part(pattern, place);
    compare(step_of(pair, pattern, part), pattern, text, end)
}

// All parts in order; the first that can't be read refuses the whole, and so does what a strict reading leaves. A place in a text
// that passed the checks has 16 bits.
pub fn parse_parts(
    choices: Choices,
    book: &[u8],
    pattern: &[u8],
    text: &[u8],
    current_year: u32,
) -> Result<Reading, Refusal>
    requires { length text.now ≤ 2048 }
    ensures { result ≡ walk_reading (walk choices (book_in book.now) current_year 0 0 (steps choices.pair pattern.now) text.now []) }
{
    let pair = choices.pair;
    let edition = choices.edition;
    let mut values = [0i64; 15];
    let mut starts = [0u16; 15];
    let mut ends = [0u16; 15];
    let mut mask: u16 = 0;
    let mut at = 0;
    // Not `enumerate`, by which a reading takes 6 to 8 per cent more instructions.
    let mut i = 0;
    for part in parts_of(pattern) {
        let step = step_of(pair, pattern, part);
        let cursor = Cursor { at };
        match parse_step(edition, book, step, pattern, current_year, text, cursor) {
            Err(stop) => return Err(stop.in_part(i)),
            Ok(read) => {
                let start = at;
                at = read.next.at;
                if let Some(carried) = read.value {
                    let k = unit_number(carried.unit);
                    values[k] = carried.value;
                    starts[k] = start as u16;
                    ends[k] = at as u16;
                    mask = mask | (1u16 << k);
                } else if choices.strict {
                    if let Some(found) = compare_part(pair, pattern, part.start, text, at) {
                        return Err(Refusal::InPart {
                            trouble: Trouble::LiteralDiffers,
                            part: i,
                            place: found,
                        });
                    }
                }
            }
        }
        i += 1;
    }
    if choices.strict && at < text.len() {
        return Err(Refusal::TextLeft(at));
    }
    Ok(Reading {
        taken: at,
        values,
        mask,
        units: u16::count_ones(mask),
        starts,
        ends,
    })
}
