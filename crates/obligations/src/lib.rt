//! Section: Walks. Promises that a kernel of which all is shown is pair-safe, with loops and barriers; stands on `walk_trees`, `rankings`
//! and `loop_bounds`.
//!
//! What is to be shown of a kernel place by place, with what a certificate says of its places and loops: the claims of one item, the
//! pairs of ends, the pairs of accesses. Definitions and their law; and what is said of places and loops as code has it, with its view.
#![tactic(auto)]

pub mod laws;
mod notes;

pub use notes::{Congruence, Lines, Multiple, Notes, Quotient, Visible};
