// Numbers out, digit by digit: padded decimals of any length, laid into a lent output.
ghost use Rattle.std.specs.Prelude.{◌≡◌, ◌+◌, ◌≤◌, length};
ghost use Rattle.std.proofs.lemmas.List.Edits.{sets};
ghost use Rattle.laws.specs.Laid.{Laid};
ghost use Rattle.meaning.specs.Bytes as text;

fn width(n: u32) -> usize
    ensures { result ≡ text.width n }
{
    n.max(1).ilog10() as usize + 1
}

// The last w digits of n, from the right.
fn lay_digits(n: u32, w: usize, out: &mut [u8], at: usize)
    requires { at + w ≤ length out.old }
    ensures { out.new ≡ sets out.old at (text.digits w n) }
{
    let mut m = n;
    // By places, from the last one: a part of the output lent for the loop is no plainer.
    for i in (0..w).rev() {
        out[at + i] = b'0' + (m % 10) as u8;
        m /= 10;
    }
}

// How many digits a padded number has.
pub fn padded_length(n: u32, k: usize) -> usize
    ensures { result ≡ length (text.num k n) }
{
    k.max(width(n))
}

// Specification, "format! with a width": the digits are laid straight into their place, with zeros before them.
pub fn put_padded(n: u32, k: usize, out: &mut [u8], at: usize) -> usize
    requires { at + length (text.num k n) ≤ length out.old }
    ensures { Laid out.old out.new at result (text.num k n) }
{
    let w = padded_length(n, k);
    lay_digits(n, w, out, at);
    at + w
}
