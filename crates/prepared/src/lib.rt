// Prepared patterns: a row of words, filled once, by which texts are written and read and the pattern is checked as by the pattern itself.
#![tactic(auto)]

pub mod checks;
pub mod listing;
pub mod opening;
pub mod prepares;
pub mod preparing;
pub mod reads;
pub mod verdicts;
pub mod writes;
