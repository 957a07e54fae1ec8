//! The greatest numbers that a line of the command may name, and the numbers where it names none.

/// The greatest number of a package that is made for a load; the least is 1.
pub const MOST_LOAD: u32 = 500;

/// How many turns of loops a line may give a run, at most.
pub const MOST_TURNS: u32 = 10_000;

/// How many turns of loops a run has where its line names no number.
pub const USUAL_TURNS: u32 = 100;

/// How many outcomes a line may let a scenario have, at most.
pub const MOST_LIMIT: u32 = 100_000;

/// How many outcomes a scenario may have where its line names no number.
pub const USUAL_LIMIT: u32 = 10_000;
