// The words of a prepared pattern: each stands for the steps of a part or of some parts that follow one another, with their rules chosen.
#![tactic(auto)]

pub mod checking;
pub mod coding;
pub mod fields;
pub mod packing;
pub mod parts;
pub mod pending;
pub mod pieces;
pub mod rule_words;
