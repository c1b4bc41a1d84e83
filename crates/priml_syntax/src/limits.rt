//! The most that there may be of each thing.

/// The most priorities that a program declares.
pub const MOST_PRIORITIES: usize = 16;

/// The most pairs that a program declares to be in order.
pub const MOST_PAIRS: usize = 256;

/// The most procedures of a program.
pub const MOST_PROCEDURES: usize = 256;

/// The most nodes of a type.
pub const MOST_NODES: u64 = 16;

/// The most variables in scope at one place, hidden ones too.
pub const MOST_IN_SCOPE: usize = 32;

/// The most priority variables of a procedure.
pub const MOST_PRIORITY_VARIABLES: usize = 8;

/// The most constraints of a procedure.
pub const MOST_CONSTRAINTS: usize = 16;

/// The most parameters of a procedure.
pub const MOST_PARAMETERS: usize = 8;

/// The most parts of a path.
pub const MOST_PARTS: usize = 32;
