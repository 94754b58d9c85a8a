// The English months and weekdays by their letters, the first eight as one number: so they are laid and compared at once. The arms of a
// match are a table of constants.
ghost use Rattle.std.specs.Prelude.{true, false, ◌≡◌, ◌+◌, ◌-◌, ◌*◌, ◌≤◌, ◌<◌, min, length, take, drop, IfSome};
ghost use Rattle.laws.specs.Laid.{Laid};
ghost use Rattle.names.specs.Letters.{bytes_of, number_of, spelled_by, name_numbered, Begun};

// Behind its length a name is filled up with `_`.
#[derive(Clone, Copy)]
pub struct Spelling {
    pub first: u64,
    pub length: usize,
    pub ninth: u8,
}

// A name, and how many of its letters begin a text.
#[derive(Clone, Copy)]
pub struct Spelled {
    pub name: usize,
    pub length: usize,
}

fn wide(b: u8) -> u64
    ensures { result ≡ b }
{
    b as u64
}

fn four(a: u8, b: u8, c: u8, d: u8) -> u64
    ensures { (result ≡ a + 256 * (b + 256 * (c + 256 * d))) × (result < 4294967296) }
{
    wide(a) + 256 * wide(b) + 65536 * wide(c) + 16777216 * wide(d)
}

fn eight(b: [u8; 8]) -> u64
    ensures { result ≡ number_of b }
{
    four(b[0], b[1], b[2], b[3]) + 4294967296 * four(b[4], b[5], b[6], b[7])
}

fn letters(first: [u8; 8], length: usize, ninth: u8) -> Spelling
    ensures { result ≡ record { first = number_of first; length = length; ninth = ninth } }
{
    Spelling {
        first: eight(first),
        length,
        ninth,
    }
}

// The months, then the weekdays.
fn letters_of(name: usize) -> Spelling
    ensures { (spelled_by result ≡ name_numbered name) × (result.length ≤ 9) }
{
    match name {
        0 => letters(*b"January_", 7, b'_'),
        1 => letters(*b"February", 8, b'_'),
        2 => letters(*b"March___", 5, b'_'),
        3 => letters(*b"April___", 5, b'_'),
        4 => letters(*b"May_____", 3, b'_'),
        5 => letters(*b"June____", 4, b'_'),
        6 => letters(*b"July____", 4, b'_'),
        7 => letters(*b"August__", 6, b'_'),
        8 => letters(*b"Septembe", 9, b'r'),
        9 => letters(*b"October_", 7, b'_'),
        10 => letters(*b"November", 8, b'_'),
        11 => letters(*b"December", 8, b'_'),
        12 => letters(*b"Sunday__", 6, b'_'),
        13 => letters(*b"Monday__", 6, b'_'),
        14 => letters(*b"Tuesday_", 7, b'_'),
        15 => letters(*b"Wednesda", 9, b'y'),
        16 => letters(*b"Thursday", 8, b'_'),
        17 => letters(*b"Friday__", 6, b'_'),
        18 => letters(*b"Saturday", 8, b'_'),
        _ => letters(*b"________", 0, b'_'),
    }
}

// A name, cut to the most letters.
fn cut_letters(name: usize, most: usize) -> Spelling
    ensures { (spelled_by result ≡ take most (name_numbered name)) × (result.length ≤ 9) }
{
    let spelt = letters_of(name);
    if spelt.length < most {
        return spelt;
    }
    Spelling {
        first: spelt.first,
        length: most,
        ninth: spelt.ninth,
    }
}

// Lays so many bytes of a number.
fn put_bytes(number: u64, n: usize, out: &mut [u8], at: usize) -> usize
    requires { at + n ≤ length out.old }
    ensures { Laid out.old out.new at result (bytes_of n number) }
{
    let mut rest = number;
    // By places, as whatever lays bytes here: a part of the output lent for the loop is no plainer.
    for j in 0..n {
        out[at + j] = (rest % 256) as u8;
        rest /= 256;
    }
    at + n
}

// Writes a name, cut to the most letters, and gives the next place.
pub fn put_spelled(name: usize, most: usize, out: &mut [u8], at: usize) -> usize
    requires { at + length (take most (name_numbered name)) ≤ length out.old }
    ensures { Laid out.old out.new at result (take most (name_numbered name)) }
{
    let spelt = cut_letters(name, most);
    if spelt.length == 9 {
        let next = put_bytes(spelt.first, 8, out, at);
        out[next] = spelt.ninth;
        return next + 1;
    }
    put_bytes(spelt.first, spelt.length, out, at)
}

// The month that second and third letters may be of: a guess, which the comparison behind it has to confirm.
fn month_guess(second: usize, third: usize) -> usize
    requires { (second < 256) × (third < 256) }
    ensures { result < 12 }
{
    match (second + third) % 32 {
        15 => 0,
        7 => 1,
        19 => 2,
        2 => 3,
        26 => 4,
        3 => 5,
        1 => 6,
        28 => 7,
        21 => 8,
        23 => 9,
        5 => 10,
        8 => 11,
        _ => 0,
    }
}

fn weekday_guess(second: usize, third: usize) -> usize
    requires { (second < 256) × (third < 256) }
    ensures { (12 ≤ result) × (result < 19) }
{
    match (second / 2 + third) % 8 {
        0 => 12,
        5 => 13,
        7 => 14,
        6 => 15,
        1 => 16,
        2 => 17,
        4 => 18,
        _ => 12,
    }
}

// The bytes from a place on as one number, where they are fewer than eight.
fn few_at(text: &[u8], at: usize) -> u64
    requires { (at ≤ length text.now) × (length text.now < at + 8) }
    ensures { bytes_of (length text.now - at) result ≡ drop at text.now }
{
    let mut number = 0;
    // By places, from the last one down to where the number starts.
    for i in (at..text.len()).rev() {
        number = 256 * number + wide(text[i]);
    }
    number
}

// The bytes from a place on as one number: eight, or as many as there are.
fn bytes_at(text: &[u8], at: usize) -> u64
    requires { at ≤ length text.now }
    ensures { bytes_of (min 8 (length text.now - at)) result ≡ take 8 (drop at text.now) }
{
    if text.len() - at < 8 {
        return few_at(text, at);
    }
    four(text[at], text[at + 1], text[at + 2], text[at + 3])
        + 4294967296 * four(text[at + 4], text[at + 5], text[at + 6], text[at + 7])
}

// Whether two numbers have the same lowest bytes: the others are shifted out.
#[tactic(auto, using(crate::proofs::letters::Laws::shifted))]
fn same_bytes(a: u64, b: u64, n: usize) -> bool
    requires { n ≤ 8 }
    ensures { result ≡ true → bytes_of n a ≡ bytes_of n b }
{
    let away = (64 - 8 * n) % 64;
    a << away == b << away
}

// Whether a text, whose first bytes are a number, begins with a name. Each test makes room for what the next one looks at, so that they stand in
// lines of their own.
fn same_letters(first: u64, spelt: Spelling, text: &[u8], at: usize) -> bool
    requires { (at ≤ length text.now) × (spelt.length ≤ 9) × (bytes_of (min 8 (length text.now - at)) first ≡ take 8 (drop at text.now)) }
    ensures { result ≡ true → take spelt.length (drop at text.now) ≡ spelled_by spelt }
{
    if text.len() - at < spelt.length {
        return false;
    }
    if spelt.length < 9 {
        return same_bytes(first, spelt.first, spelt.length);
    }
    if text[at + 8] != spelt.ninth {
        return false;
    }
    first == spelt.first
}

// The name of a month, or of a weekday, that begins the text from a place on with so many letters at most. Of others than the one that is guessed
// nothing is said.
pub fn spelled_at(weekday: bool, most: usize, text: &[u8], at: usize) -> Option<Spelled>
    requires { at ≤ length text.now }
    ensures { IfSome result (λ r. (0 < r.length) × Begun weekday most (drop at text.now) r) }
{
    let first = bytes_at(text, at);
    let second = (first / 256 % 256) as usize;
    let third = (first / 65536 % 256) as usize;
    let name = if weekday {
        weekday_guess(second, third)
    } else {
        month_guess(second, third)
    };
    let spelt = cut_letters(name, most);
    if spelt.length == 0 || !same_letters(first, spelt, text, at) {
        return None;
    }
    Some(Spelled {
        name,
        length: spelt.length,
    })
}
