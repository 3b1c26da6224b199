// The numbers that the rules fix.

// How many rows, and how many givens, each slot has: one for each place of the longest range.
pub(crate) const EACH: usize = range::COUNT;

// The most jobs that are accepted in all.
pub(crate) const JOBS: u32 = 1_000_000;
