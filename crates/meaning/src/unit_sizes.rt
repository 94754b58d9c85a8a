// "What is carried over": the unit sizes of constants.rs.

pub const SECS_PER_MINUTE: u32 = 60;

pub const SECS_PER_MINUTE_U64: u64 = 60;

pub const SECS_PER_HOUR: u32 = 60 * SECS_PER_MINUTE;

pub const SECS_PER_HOUR_U64: u64 = 60 * SECS_PER_MINUTE_U64;

pub const SECS_PER_DAY_U64: u64 = 24 * SECS_PER_HOUR_U64;

pub const NANOS_PER_SEC: u64 = 1000000000;

pub const NANOS_PER_DAY: u64 = SECS_PER_DAY_U64 * NANOS_PER_SEC;
