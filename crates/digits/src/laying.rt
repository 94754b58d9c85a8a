// Bytes and texts laid into a lent output. Each writer takes the place to write at and answers the next one.
ghost use Rattle.std.specs.Prelude.{◌∷◌, [], ◌+◌, ◌≤◌, ◌<◌, length, replicate};
ghost use Rattle.laws.specs.Laid.{Laid};

pub fn put_byte(b: u8, out: &mut [u8], at: usize) -> usize
    requires { at < length out.old }
    ensures { Laid out.old out.new at result (b ∷ []) }
{
    out[at] = b;
    at + 1
}

pub fn put_bytes(src: &[u8], out: &mut [u8], at: usize) -> usize
    requires { at + length src.now ≤ length out.old }
    ensures { Laid out.old out.new at result src.now }
{
    // Not `copy_from_slice`, for which an archive asks for `memmove`.
    for (j, b) in src.iter().enumerate() {
        out[at + j] = *b;
    }
    at + src.len()
}

pub fn put_times(b: u8, times: usize, out: &mut [u8], at: usize) -> usize
    requires { at + times ≤ length out.old }
    ensures { Laid out.old out.new at result (replicate times b) }
{
    if times == 1 {
        return put_byte(b, out, at);
    }
    // Not `fill`, by which each write takes 2 to 4 per cent longer.
    for j in 0..times {
        out[at + j] = b;
    }
    at + times
}
