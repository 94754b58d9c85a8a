// The first line of standard input, in a row that is filled from its start.
ghost use Rattle.std.specs.Prelude.{◌≡◌, length, IfOk};
ghost use Rattle.pattern_check.specs.Input.{IsPrefixLen};

use std::io;
use std::io::Read;

// How many bytes stand before the first newline, or that the row can hold: a pattern of so many is refused. They lie at the row's start.
pub fn first_line<R: Read>(reader: &mut R, row: &mut [u8]) -> io::Result<usize>
    requires { length row.old ≡ 65536 }
    ensures { IfOk result (λ held. IsPrefixLen held row.new) }
{
    // A loop by hand: what reads up to a byte in the library needs the heap.
    let mut held = 0;
    while held < 65536 {
        let got = reader.read(&mut row[held..])?;
        if got == 0 {
            return Ok(held);
        }
        let end = held + got;
        if let Some(i) = row[held..end].iter().position(|&b| b == b'\n') {
            return Ok(held + i);
        }
        held = end;
    }
    Ok(held)
}
