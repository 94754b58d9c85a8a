// Mending and undoing, for C.

ghost use Rattle.sheet.specs.Sheet.{SheetMends, SheetUndoes};

#[unsafe(no_mangle)]
pub extern "C" fn sheet_mend(
    choices: u32,
    pattern: &[u8],
    year: i32,
    out: &mut [u8],
    changes: &mut [i64],
    answer: &mut [i64],
) -> u32
    ensures { SheetMends choices pattern.now year out.old changes.old answer.old result out.new changes.new answer.new }
{
    sheet::mends::sheet_mend(choices, pattern, year, out, changes, answer)
}

#[unsafe(no_mangle)]
pub extern "C" fn sheet_undo(
    pattern: &[u8],
    changes: &[i64],
    out: &mut [u8],
    answer: &mut [i64],
) -> u32
    ensures { SheetUndoes pattern.now changes.now out.old answer.old result out.new answer.new }
{
    sheet::mends::sheet_undo(pattern, changes, out, answer)
}
