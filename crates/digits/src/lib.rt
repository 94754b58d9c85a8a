// Bytes and padded decimals laid into a lent output.
#![tactic(auto)]

pub mod laying;
pub mod numbers;
pub mod padded;
