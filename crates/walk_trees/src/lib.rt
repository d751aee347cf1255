//! Section: Walks. Promises that the walk of a term is sound; stands on `arrivals` and `facts`.
//!
//! What a walk does: the tree of what an item meets, with its claims and accesses, and how an obligation is shown. Definitions alone, with
//! the law of terms.
#![tactic(auto)]

pub mod laws;
