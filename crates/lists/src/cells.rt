// The cells of the four lent rows: whether there is one for each line, and the lines read into them.
ghost use Rattle.std.specs.Prelude.{◌≡◌, map, length, true};
ghost use Rattle.lists.specs.LentRows.{rows_in, HasCell, SameRows, with_line};
ghost use Rattle.lists.specs.LineReaders.{TakesLines, StandsFor, cell_in};
ghost use Rattle.meaning.specs.Answers.{refuse_unless};
ghost use Rattle.meaning.specs.Lists.{hold, laid, lines};
ghost use Rattle.meaning.specs.Prepared.{narrow};

use crate::line_reader::line_reader;
use meaning::{ParseUnit, Refusal};
use reader::record::unit_number;

// A value that 32 bits hold; 0 where they do not.
fn short_value(n: i64) -> i32
    ensures { result ≡ narrow n }
{
    i32::try_from(n).unwrap_or(0)
}

// The value of a unit in the row of a reading, for a cell.
fn cell_in(answer: &[i64], unit: ParseUnit) -> i32
    requires { length answer.now ≡ 48 }
    ensures { result ≡ cell_in unit answer.now }
{
    short_value(answer[3 + unit_number(unit)])
}

// The rows that a caller lends a list, with a cell for each line. No model: its value could not say that they stay the rows that were lent.
#[derive(Drop)]
pub struct LentRows<'a> {
    pub days: &'a mut [i32],
    pub months: &'a mut [i32],
    pub years: &'a mut [i32],
    pub codes: &'a mut [u32],
}

impl<'a> LentRows<'a> {
    // 24, by the lengths of the rows.
    pub fn check(&self, lines: usize) -> Result<(), Refusal>
        ensures { result ≡ refuse_unless (hold lines (rows_in self.now)) Refusal.ShortRow }
    {
        if lines <= self.days.len()
            && lines <= self.months.len()
            && lines <= self.years.len()
            && lines <= self.codes.len()
        {
            Ok(())
        } else {
            Err(Refusal::ShortRow)
        }
    }

    // A line's cells: its code, and the values in the row of its reading.
    fn lay(&mut self, i: usize, code: u32, answer: &[i64])
        requires room { HasCell i (rows_in self.old) }
        requires long { length answer.now ≡ 48 }
        ensures same { SameRows self.old self.new }
        ensures laid { rows_in self.new ≡ with_line i code answer.now (rows_in self.old) }
    {
        self.codes[i] = code;
        self.days[i] = cell_in(answer, ParseUnit::DayOfMonth);
        self.months[i] = cell_in(answer, ParseUnit::Month);
        self.years[i] = cell_in(answer, ParseUnit::Year);
    }
}

// Each line of a text read by itself, into its cell of each row: by a function that reads a line into a row of 48 numbers and gives its
// code.
pub fn lay_lines<F: Fn(&[u8], &mut [i64]) -> u32>(text: &[u8], read: F, rows: &mut LentRows)
    requires room { hold (length (lines text.now)) (rows_in rows.old) ≡ true }
    requires takes { TakesLines (F.pre read) }
    ensures same { SameRows rows.old rows.new }
    ensures laid { (reading : _) → StandsFor (F.post read) reading → rows_in rows.new ≡ laid (map reading (lines text.now)) (rows_in rows.old) }
{
    let mut answer = [0i64; 48];
    for (i, line) in line_reader(text).enumerate() {
        let code = read(&text[line.start..line.end], &mut answer);
        rows.lay(i, code, &answer);
    }
}
