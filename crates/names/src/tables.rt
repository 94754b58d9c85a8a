// Rooms of names, the English ones as those of an opened book: the one matcher, the one writer and the one measurer. Where a list
// has a most of letters, a longer name is cut to it.
ghost use Rattle.std.specs.Prelude.{◌≡◌, ◌+◌, ◌*◌, ◌≤◌, length, take};
ghost use Rattle.laws.specs.Laid.{Laid};
ghost use Rattle.meaning.specs.OpenedBooks.{names_at};
ghost use Rattle.meaning.specs.Readers.{begins, match_name};
ghost use Rattle.names.specs.Table.{name_in, found_in};

// The room of a name: a byte that is its length, and 20 for its letters.
pub const ROOM: usize = 21;

// The name that begins a text.
#[derive(Clone, Copy)]
pub struct Found {
    pub index: usize,
    pub length: usize,
}

// How many bytes a name has.
pub fn length_at(rows: &[u8], index: usize, most: usize) -> usize
    requires { (most ≤ 20) × (index * 21 + 21 ≤ length rows.now) }
    ensures { result ≡ length (name_in most rows.now index) }
{
    let size = rows[index * ROOM] as usize;
    size.min(most)
}

// Whether a name's first letter begins the text. Two questions, a letter that is the same and a name with no letters: in one line each would
// hide where the other ends.
fn letter_begins(rows: &[u8], index: usize, most: usize, text: &[u8]) -> bool
    requires { (most ≤ 20) × (index * 21 + 21 ≤ length rows.now) }
    ensures { result ≡ begins (take 1 (name_in most rows.now index)) text.now }
{
    if 0 < text.len() && rows[index * ROOM + 1] == text[0] {
        return true;
    }
    most == 0 || rows[index * ROOM] == 0
}

// "takes the first name in the table order that begins the text". The letters of lent rows are not known to the compiler, so that
// there the first one is looked at before all else.
pub fn first_name(rows: &[u8], count: usize, most: usize, lent: bool, text: &[u8]) -> Option<Found>
    requires { (most ≤ 20) × (count * 21 ≤ length rows.now) }
    ensures { result ≡ found_in (match_name (names_at most count rows.now) text.now) }
{
    // Over numbers: a room is found by its number, and what hands out the rooms as slices hands them out in an `Option`.
    'names: for index in 0..count {
        if lent && !letter_begins(rows, index, most, text) {
            continue 'names;
        }
        let length = length_at(rows, index, most);
        if length <= text.len() {
            // Byte by byte: by `starts_with` a reading of names takes four fifths more instructions.
            for j in 0..length {
                if rows[index * ROOM + 1 + j] != text[j] {
                    continue 'names;
                }
            }
            return Some(Found { index, length });
        }
    }
    None
}

// Writes a name at a place and gives the next place.
pub fn put_name(rows: &[u8], index: usize, most: usize, out: &mut [u8], at: usize) -> usize
    requires most_bound { (most ≤ 20) × (index * 21 + 21 ≤ length rows.now) }
    requires index_in_bounds { at + length (name_in most rows.now index) ≤ length out.old }
    ensures { Laid out.old out.new at result (name_in most rows.now index) }
{
    let size = length_at(rows, index, most);
    let from = index * ROOM + 1;
    for (j, letter) in rows[from..from + size].iter().enumerate() {
        out[at + j] = *letter;
    }
    at + size
}
