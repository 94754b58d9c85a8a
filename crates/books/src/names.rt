// Names where they stand, and what is asked of their letters.
ghost use Rattle.std.specs.Prelude.{◌≡◌};
ghost use Rattle.books.specs.Places.{name_in};
ghost use Rattle.meaning.specs.Books.{all_letters, apart};

// The name whose length stands at a place. Where that is more than what is behind it, it is what is there.
pub fn name_at(bytes: &[u8], at: usize) -> &[u8]
    ensures { result.now ≡ name_in bytes.now at }
{
    if bytes.len() <= at {
        return &bytes[..0];
    }
    let behind = &bytes[at + 1..];
    &behind[..behind.len().min(bytes[at] as usize)]
}

pub fn all_letters(name: &[u8]) -> bool
    ensures { result ≡ all_letters name.now }
{
    name.iter().all(|b| b.is_ascii_alphabetic())
}

// Whether neither name begins the other: one of the bytes that both have differs.
pub fn are_apart(a: &[u8], b: &[u8]) -> bool
    ensures { result ≡ apart a.now b.now }
{
    a.iter().zip(b).any(|(x, y)| x != y)
}
