// Answers as rows of numbers: each is laid over the start of a lent row, and its number is returned.
#![tactic(auto)]

pub mod answers;
pub mod changes;
pub mod days;
pub mod entries;
pub mod readings;
pub mod splits;
pub mod stamps;
pub mod units;
pub mod verdicts;
