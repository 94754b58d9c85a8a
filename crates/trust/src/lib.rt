// Demand 3: how the check decides which parts come back, in specs/, and that it is right, in proofs/. No code but these types.
// What a part needs of the text behind it: nothing; no digit as the next byte; no digit as the next byte but one. A broken
// part does not come back whatever follows, nor does one that loses digits of the year.
#![tactic(auto)]

#[derive(Clone, Copy)]
pub enum Need {
    Nothing,
    NoDigit,
    NoSecondDigit,
    Broken,
    LosesYear,
}

// A part whose need is not met, counted from 0, and that need.
#[derive(Clone, Copy)]
pub struct Unmet {
    pub part: usize,
    pub need: Need,
}

// How the names of a list begin: with a digit; with a letter, which is all; with two bytes that are no digits.
#[derive(Clone, Copy)]
pub enum Opening {
    Digit,
    OneLetter,
    Word,
}
