// The field record: signs and sizes, what is in range (refusals 4 and 14), and what a record gives to write.
#![tactic(auto)]

pub mod checks;
pub mod signed;
pub mod values;
