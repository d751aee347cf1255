//! The answer of a search: a derivation, a point, or neither.

use cut_proof::Derivation;
use linear::Symbol;

/// Symbols with their values; all others are 0.
pub type Point = Vec<(Symbol, i64)>;

/// The answer of a search for a derivation that refutes facts.
#[derive(Drop)]
pub enum Answer {
    /// A derivation that refutes the facts.
    Proof(Derivation),
    /// Whole numbers that meet all facts.
    Model(Point),
    /// Neither a derivation nor a point was found within the limits of the search.
    Undecided,
}
