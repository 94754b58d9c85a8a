// Digits at places where digits are known to stand.
ghost use Rattle.std.specs.Prelude.{true, ◌≡◌, ◌+◌, ◌-◌, ◌<◌};
ghost use Rattle.meaning.specs.Bytes.{is_digit, digit_at};
ghost use Rattle.numerals.specs.Numbers.{pair_at};

pub fn digit_value(b: u8) -> u32
    requires { is_digit b ≡ true }
    ensures { (result ≡ b - 48) × (result < 10) }
{
    (b - b'0') as u32
}

// Two digits, as a number.
#[tactic(auto, unfolding(meaning::specs::Bytes::digit_at))]
pub fn pair_at(text: &[u8], at: usize) -> u32
    requires { (digit_at at text.now ≡ true) × (digit_at (at + 1) text.now ≡ true) }
    ensures { result ≡ pair_at at text.now }
{
    digit_value(text[at]) * 10 + digit_value(text[at + 1])
}
