//! Section: Search. Promises nothing: runs that refute candidates; stands on `core_code`, `launch` and `guesses`.
//!
//! A few work-items run alone, to their end where that is not too far, with random words for what they load. What is false in a state that
//! was seen need not be tried; what holds in all of them may be tried. The numbers only look random: each run of the program sees the same
//! ones.
#![tactic(auto)]

mod basis;
mod equalities;
mod holding;
mod item;
mod launching;
mod modular;
mod observing;
mod operations;
mod random;
mod seen;
mod solo;
mod spacing;
mod told;

pub use observing::observe;
pub use seen::{Observed, State};
pub use told::told_by_runs;
