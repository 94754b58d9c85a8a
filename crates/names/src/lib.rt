// The names: the English ones as constant byte rows, those of an opened book as they are lent, and the one writer, the one matcher and
// the one measurer over them.
#![tactic(auto)]

pub mod constants;
pub mod lengths;
pub mod letters;
pub mod matching;
pub mod rooms;
pub mod rows;
pub mod tables;
pub mod writing;
