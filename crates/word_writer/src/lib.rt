// Writing by the words of a prepared pattern: what each word writes, how long it is, and the text of all.
#![tactic(auto)]

pub mod measuring;
pub mod writing;
