// Where a line ends and the next one starts: the places of a line.
ghost use Rattle.std.specs.Prelude.{◌≡◌, ◌≤◌, ◌<◌, length};
ghost use Rattle.laws.specs.Lists.{line_end, next_line};
ghost use Rattle.lists.specs.Walk.{places_at};

// Where a line starts and ends, and where the next one starts.
#[derive(Clone, Copy)]
pub struct Places {
    pub start: usize,
    pub end: usize,
    pub next: usize,
}

// Where the line that starts at a place ends: at its newline, or with the text.
pub fn line_end(text: &[u8], at: usize) -> usize
    requires { at ≤ length text.now }
    ensures { result ≡ line_end text.now at }
{
    for end in at..text.len() {
        if text[end] == b'\n' {
            return end;
        }
    }
    text.len()
}

// Where the line after one that ends at a place starts: after the newline, or where the text ends.
pub fn next_line(text: &[u8], end: usize) -> usize
    requires { end ≤ length text.now }
    ensures { result ≡ next_line text.now end }
{
    text.len().min(end + 1)
}

// The places of the line that starts at a place.
pub fn line_at(text: &[u8], at: usize) -> Places
    requires { at < length text.now }
    ensures { result ≡ places_at text.now at }
{
    let end = line_end(text, at);
    Places {
        start: at,
        end,
        next: next_line(text, end),
    }
}
