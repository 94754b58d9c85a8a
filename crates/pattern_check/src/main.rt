// The program of the specification: it prints one line for a pattern on standard input, up to the first newline, in the current year
// 2025: `yes`, `no P` with P the part, or `refused N`. What keeps it from doing so is told on standard error, and then it
// prints nothing.
#![tactic(auto)]

mod input;
mod line;

ghost use Rattle.std.specs.Prelude.{◌≤◌, length};

use input::first_line;
use line::put_line;
use std::env::{Env, FillError};
use std::io;
use std::io::Write;

// Whether there is an argument beside the program's name.
fn has_argument(rt: &impl Env) -> bool {
    let mut start = [0u8; 1];
    !matches!(rt.arg(1, &mut start), Err(FillError::NotPresent))
}

fn print_line(rt: &(impl Print + Eprint), pattern: &[u8]) -> io::Result<()>
    requires { length pattern.now ≤ 65536 }
{
    let mut out = [0u8; 20];
    let n = put_line(pattern, &mut out);
    match io::writer(rt).write_all(&out[..n]) {
        Ok(()) => Ok(()),
        Err(error) => eprintln!(rt; "pattern_check: standard output: {error}"),
    }
}

fn main(rt: HostRuntime) -> io::Result<()> {
    if has_argument(&rt) {
        return eprintln!(rt;
            "pattern_check: no argument is taken; the pattern is read from standard input"
        );
    }
    let mut row = [0u8; 65536];
    match first_line(&mut rt.reader(), &mut row) {
        Ok(n) => print_line(&rt, &row[..n]),
        Err(error) => eprintln!(rt; "pattern_check: standard input: {error}"),
    }
}
