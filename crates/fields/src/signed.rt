// Signed numbers as a sign and a size, which the rest of the code works on.
ghost use Rattle.std.specs.Prelude.{◌≡◌, nat_abs};
ghost use Rattle.meaning.specs.Writing.{is_negative};

pub fn is_negative(z: i32) -> bool
    ensures { result ≡ is_negative z }
{
    z < 0
}

pub fn size_of(z: i64) -> u64
    ensures { result ≡ nat_abs z }
{
    z.unsigned_abs()
}

pub fn size(z: i32) -> u32
    ensures { result ≡ nat_abs z }
{
    z.unsigned_abs()
}
