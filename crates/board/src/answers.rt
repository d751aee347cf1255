//! What an examination and a pass answer.

use supports::Set;

/// The findings of an examination of one candidate.
#[derive(Debug, Clone, Copy, PartialEq, Eq)]
pub enum Examined {
    /// The candidate is kept: each of its obligations has a listed set inside the set that was read.
    Kept,
    /// The candidate is not in the greatest set.
    Refuted,
}

/// The findings of a pass over all candidates.
#[derive(Debug, Clone, Copy, PartialEq, Eq)]
pub enum Passed {
    /// The greatest standing set: the pass refuted none.
    Settled(Set),
    /// The number of candidates that the pass refuted.
    Refuted(u32),
}
