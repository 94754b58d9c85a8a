// The line for a pattern: what the check says of it, in words.
ghost use Rattle.std.specs.Prelude.{◌++◌, ◌+◌, ◌≤◌, length, Ok};
ghost use Rattle.laws.specs.Laid.{Laid};
ghost use Rattle.meaning.specs.Bytes.{num};
ghost use Rattle.pattern_check.specs.Input.{IsPrefixLen};
ghost use Rattle.pattern_check.specs.Line.{PartFits, verdict_text, Printed};

use digits::laying::{put_byte, put_bytes};
use digits::numbers::zero_padded;
use meaning::{Edition, Refusal, Verdict};
use refusals::tell;
use verdict::verdict_on;

// A word and a number.
fn put_counted(word: &[u8], n: u32, out: &mut [u8]) -> usize
    requires { length (word.now ++ num 1 n) ≤ length out.old }
    ensures { Laid out.old out.new 0 result (word.now ++ num 1 n) }
{
    let next = put_bytes(word, out, 0);
    zero_padded(n, 1, out, next)
}

fn put_verdict(verdict: Verdict, out: &mut [u8]) -> usize
    requires part_fits { PartFits (Ok verdict) }
    requires verdict_in_bounds { length (verdict_text (Ok verdict)) ≤ length out.old }
    ensures { Laid out.old out.new 0 result (verdict_text (Ok verdict)) }
{
    match verdict {
        Verdict::Yes => put_bytes(b"yes", out, 0),
        Verdict::No { part, record: _ } => put_counted(b"no ", part as u32, out),
    }
}

fn put_answer(answer: Result<Verdict, Refusal>, out: &mut [u8]) -> usize
    requires part_fits { PartFits answer }
    requires verdict_in_bounds { length (verdict_text answer) ≤ length out.old }
    ensures { Laid out.old out.new 0 result (verdict_text answer) }
{
    match answer {
        Ok(verdict) => put_verdict(verdict, out),
        Err(why) => put_counted(b"refused ", tell(why).number, out),
    }
}

pub fn put_line(pattern: &[u8], out: &mut [u8]) -> usize
    requires pattern_len_bound { length pattern.now ≤ 65536 }
    requires in_bounds { 20 ≤ length out.old }
    ensures prefix_len { IsPrefixLen result out.new }
    ensures printed { Printed pattern.now out.old out.new result }
{
    let answer = verdict_on(Edition::First, pattern, 2025);
    let end = put_answer(answer, out);
    put_byte(b'\n', out, end)
}
