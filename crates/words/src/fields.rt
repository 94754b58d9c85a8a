// The fields of a word. Its lowest five bits are its code.
ghost use Rattle.std.specs.Prelude.{◌≡◌, ◌<◌};
ghost use Rattle.words.specs.Fields as field;

pub fn code(w: u64) -> u64
    ensures { result ≡ field.code w }
{
    w % 32
}

// Which of the numbers that patterns have most, or how many digits a year has.
pub fn slot(w: u64) -> usize
    ensures { (result ≡ field.slot w) × (result < 8) }
{
    (w / 32 % 8) as usize
}

// How often a byte stands, how many bytes are held, or how many digits a year has.
pub fn count(w: u64) -> usize
    ensures { (result ≡ field.count w) × (result < 512) }
{
    (w / 32 % 512) as usize
}

// Where held bytes start.
pub fn from(w: u64) -> usize
    ensures { (result ≡ field.from w) × (result < 512) }
{
    (w / 16384 % 512) as usize
}

pub fn is_lost(w: u64) -> bool
    ensures { result ≡ field.is_lost w }
{
    w / 8388608 % 2 == 1
}

// The bytes behind the first and the second of three numbers.
pub fn first_byte(w: u64) -> u8
    ensures { result ≡ field.first_byte w }
{
    (w / 1099511627776 % 256) as u8
}

pub fn second_byte(w: u64) -> u8
    ensures { result ≡ field.second_byte w }
{
    (w / 281474976710656 % 256) as u8
}

// The byte by itself, or the one behind all else; there 0 stands for none.
pub fn last_byte(w: u64) -> u8
    ensures { result ≡ field.last_byte w }
{
    (w / 72057594037927936 % 256) as u8
}
