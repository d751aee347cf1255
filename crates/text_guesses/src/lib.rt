//! Section: Search. Promises nothing: what a kernel's text tells a search; stands on `core_code` and `guesses`.
//!
//! What is guessed by a kernel's text alone: how its loops may end, and facts over the numbers, ids and variables at hand. Nobody believes
//! it: the check decides.
#![tactic(auto)]

mod affine;
mod frame;
mod limits;
mod plain;
mod scan;
mod shelf;
mod starts;
mod test_forms;
mod turning;
mod walking;
mod ways;
mod weights;

pub use plain::guess_plainly;
pub use scan::numbers_of;
pub use walking::{guess_rankings, guess_weighted};
pub use ways::Options;
