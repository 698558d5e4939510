//! The limits of a plan.

/// The greatest length of a plan's text, in bytes.
pub const PLAN_LIMIT_BYTES: usize = 1_048_576;

/// The greatest number of fields in a plan.
pub const FIELDS_LIMIT: usize = 32;

/// The greatest number of tables in a plan.
pub const TABLES_LIMIT: usize = 32;

/// The greatest number of inputs in a table.
pub const INPUTS_LIMIT: usize = 16;

/// The greatest number of outputs in a table.
pub const OUTPUTS_LIMIT: usize = 16;

/// The greatest number of rules in a table.
pub const RULES_LIMIT: usize = 256;

/// The greatest number of values in a priority list.
pub const PRIORITY_LIMIT: usize = 64;
