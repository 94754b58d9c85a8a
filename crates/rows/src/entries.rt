// Numbers laid into a lent row.
ghost use Rattle.std.specs.Prelude.{map, ◌≡◌, ◌+◌, ◌≤◌, pos, length, replicate};
ghost use Rattle.std.proofs.lemmas.List.Edits.{sets};
ghost use Rattle.rows.specs.Fits.{NumberFits};

pub fn lay(numbers: &[i64], row: &mut [i64], at: usize)
    requires { at + length numbers.now ≤ length row.old }
    ensures { row.new ≡ sets row.old at numbers.now }
{
    row[at..at + numbers.len()].copy_from_slice(numbers);
}

// Places in a text, as numbers.
pub fn lay_places(places: &[u16], row: &mut [i64], at: usize)
    requires { at + length places.now ≤ length row.old }
    ensures { row.new ≡ sets row.old at (map pos places.now) }
{
    for (j, place) in places.iter().enumerate() {
        row[at + j] = i64::from(*place);
    }
}

pub fn lay_times(number: i64, times: usize, row: &mut [i64], at: usize)
    requires { at + times ≤ length row.old }
    ensures { row.new ≡ sets row.old at (replicate times number) }
{
    row[at..at + times].fill(number);
}

pub fn lay_zeros(times: usize, row: &mut [i64], at: usize)
    requires { at + times ≤ length row.old }
    ensures { row.new ≡ sets row.old at (replicate times (pos 0)) }
{
    lay_times(0, times, row, at);
}

pub fn entry(n: u64) -> i64
    requires { NumberFits n }
    ensures { result ≡ pos n }
{
    n as i64
}
