//! Section: Walks. Promises the places of a kernel exactly as defined, or the loop that may miss its barrier; stands on `arrivals` and
//! `core_code`.
//!
//! The places of a kernel, in order: its entry and each barrier, each with the loops without a barrier that are reached from there, and the
//! loops with a barrier that have turned on the way. Which loops hold a barrier is told for walks above as well.
#![tactic(auto)]

mod barriers;
mod behind;
mod error;
mod exits;
mod faults;
mod lists;
mod place;
mod placing;
mod point;
mod pointing;
mod reaching;

pub use barriers::holds_barrier;
pub use error::PlaceError;
pub use faults::unmet;
pub use place::Place;
pub use placing::places;
pub use point::{Point, Rest};
pub use pointing::points_of;
