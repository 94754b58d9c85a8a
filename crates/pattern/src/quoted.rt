// The inside of a quoted part: the bytes that it stands for, how many they are, and whether it ends in a quote.
ghost use Rattle.std.specs.Prelude.{◌≡◌, ◌-◌, eqb, length, get_or};
ghost use Rattle.std.specs.Iterator.{YieldsFirst, item_count};
ghost use Rattle.meaning.specs.Bytes.{when, quote};
ghost use Rattle.pattern.specs.First.{unescaped};
ghost use Rattle.pattern.specs.Unescaping.{bytes_left};

// How many pattern bytes stand for this one: a quote inside is the first of two.
pub fn bytes_of(b: u8) -> usize
    ensures { result ≡ when (eqb b quote) 2 1 }
{
    if b == b'\'' { 2 } else { 1 }
}

// The bytes that an inside stands for, from one of them on.
#[derive(Drop)]
pub struct Unescaped<'a> {
    inside: &'a [u8],
    place: usize,
}

// All bytes that an inside stands for, in order.
pub fn unescaped_bytes(src: &[u8]) -> Unescaped
    ensures { bytes_left result ≡ unescaped src.now }
{
    Unescaped {
        inside: src,
        place: 0,
    }
}

impl<'a> Iterator for Unescaped<'a> {
    type Item = u8;

    ghost next_gives = { YieldsFirst bytes_left };

    ghost remaining = { item_count bytes_left };

    fn next(&mut self) -> Option<u8> {
        if self.inside.len() <= self.place {
            return None;
        }
        let b = self.inside[self.place];
        self.place += bytes_of(b);
        Some(b)
    }
}

// How many bytes an inside stands for.
pub fn unescaped_length(src: &[u8]) -> usize
    ensures { result ≡ length (unescaped src.now) }
{
    unescaped_bytes(src).count()
}

// Whether an inside ends in a quote.
pub fn ends_in_quote(src: &[u8]) -> bool
    ensures { result ≡ eqb (get_or src.now (length src.now - 1) 0) quote }
{
    src.last() == Some(&b'\'')
}
