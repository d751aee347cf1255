//! Section: Walks. Promises exactly how many steps a work-item takes at most; stands on `core_code` and `linear`.
//!
//! How many steps a work-item takes at most, from how each loop ends: the number that `specs/Costs.antt` defines, or `TooLarge` exactly
//! where it is not one of 64 bits.
#![tactic(auto)]

mod bound;
mod counting;
mod error;
pub mod laws;
mod turning;

pub use bound::{Bound, Least, LoopBound, Step};
pub use counting::cost;
pub use error::BoundError;
pub use turning::turns;
