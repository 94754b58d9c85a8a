// Reading by the words of a prepared pattern: quickly where all goes well, and else step by step, with the refusal and its place.
#![tactic(auto)]

pub mod exact;
pub mod keeping;
pub mod named;
pub mod plain;
pub mod quick;
pub mod reading;
