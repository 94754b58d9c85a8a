// Column Reads: everything that a part reads, from the cursor to the step.
#![tactic(auto)]

pub mod cursor;
pub mod literals;
pub mod named;
pub mod rule;
pub mod short;
pub mod step;
pub mod steps;
pub mod years;
pub mod zones;
