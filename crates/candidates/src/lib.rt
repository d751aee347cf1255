//! Section: Search. Promises nothing: what the walks of a kernel's places tell a search; stands on `guesses`.
//!
//! The paths of a walk that takes each claim as shown tell what may hold at the places that they reach: values of variables there, what
//! their tests say, what held where they begin, and how variables step from turn to turn.
//!
//! What is known at a path's end speaks of what stood where the path began. Where the variables' values at its end tell such a symbol, the
//! same can be said of the place reached (`Naming`).
#![tactic(auto)]

mod aliases;
mod bounds;
mod carrying;
mod courses;
mod drifts;
mod fact_lines;
mod flags;
mod form_strides;
mod gains;
mod gathering;
mod growth;
mod leaf_lines;
mod names;
mod naming;
mod nests;
mod paces;
mod pairs;
mod projection;
mod reach;
mod shelf;
mod single_values;
mod squares;
mod stride_lines;
mod sums;
mod told;
mod turns;
mod weakening;

pub use fact_lines::fact_at;
pub use gathering::LAST_TRIES;
pub use told::{Told, guess_told};
