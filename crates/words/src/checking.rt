// The check word of a row.
ghost use Rattle.std.specs.Prelude.{◌≡◌};
ghost use Rattle.words.specs.Rows.{xor_from};

// All of some words, by exclusive or, from one on.
pub fn check_word(from: u64, words: &[u64]) -> u64
    ensures { result ≡ xor_from from words.now }
{
    let mut sum = from;
    for w in words {
        sum ^= *w;
    }
    sum
}
