// Column Writes: everything that a step writes, from its leaves to the step, and how long it is.
#![tactic(auto)]

pub mod lengths;
pub mod literals;
pub mod rule;
pub mod step;
pub mod symbols;
pub mod years;
pub mod zones;
