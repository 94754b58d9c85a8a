// The table of symbols in code: from a byte and its count to what it does. Writer, reader and check share it.
#![tactic(auto)]

pub mod date;
pub mod numbers;
pub mod short;
pub mod step;
pub mod time;

ghost use Rattle.std.specs.Prelude.{◌≡◌};
ghost use Rattle.meaning.specs.Rules as table;
ghost use Rattle.rules.specs.Letters.{is_among};

use crate::date::date_role;
use crate::time::time_role;
use meaning::{Pair, Role};

#[tactic(auto, unfolding(crate::specs::Letters::is_among))]
fn is_date_symbol(b: u8) -> bool
    ensures { result ≡ is_among table.date_symbols b }
{
    matches!(b, b'G' | b'y' | b'q' | b'M' | b'w' | b'd' | b'D' | b'e')
}

// What a run of `count` equal bytes does: below the letters there are only literals; in the Date pair, time symbols are
// plain literals too.
pub fn role_of(pair: Pair, symbol: u8, count: usize) -> Role
    ensures { result ≡ table.role_of pair symbol count }
{
    if symbol < b'A' {
        return Role::Literal;
    }
    if is_date_symbol(symbol) {
        return date_role(symbol, count);
    }
    match pair {
        Pair::Date => Role::Literal,
        Pair::Full => time_role(symbol, count),
    }
}
