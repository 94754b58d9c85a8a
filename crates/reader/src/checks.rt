// What is asked before parts are read: refusals 1, 2, 3, 14 of a pattern and a year, and 6, 7 of a text.
ghost use Rattle.std.specs.Prelude.{◌≡◌, nat_lt};
ghost use Rattle.std.specs.List.{position};
ghost use Rattle.meaning.specs.Answers.{text_check};
ghost use Rattle.reader.specs.Largest.{largest_of};

use meaning::Refusal;

// The largest byte: with no way out of its turns, so that they can go several at once.
fn largest(text: &[u8]) -> u8
    ensures { result ≡ largest_of text.now }
{
    let mut most = 0u8;
    for &b in text {
        most = most.max(b);
    }
    most
}

// The place of the first byte above 127.
fn first_above(text: &[u8]) -> Option<usize>
    ensures { result ≡ position (λ b. nat_lt 127 b) text.now }
{
    text.iter().position(|b| 127 < *b)
}

// 6 and 7, byte by byte.
fn search_text(text: &[u8]) -> Result<(), Refusal>
    ensures { result ≡ text_check text.now }
{
    let n = text.len();
    if 2048 < n {
        return Err(Refusal::TextTooLong(n));
    }
    match first_above(text) {
        Some(i) => Err(Refusal::TextByte(i)),
        None => Ok(()),
    }
}

// 6 and 7: where no byte is above 127, none has to be searched for.
pub fn text_check(text: &[u8]) -> Result<(), Refusal>
    ensures { result ≡ text_check text.now }
{
    if text.len() <= 2048 {
        if largest(text) <= 127 {
            return Ok(());
        }
    }
    search_text(text)
}
