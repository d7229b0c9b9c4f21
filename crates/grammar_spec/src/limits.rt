//! How long the texts may be that are read.

/// How many bytes a plan's file may have.
pub const MAX_PLAN_BYTES: usize = 1_048_576;

/// How many bytes a script may have.
pub const MAX_SCRIPT_BYTES: u64 = 16_777_216;
