//! Section: Launch. Promises whether a launch meets its conditions, and the least launch; stands on `words`.
//!
//! Launches of a kernel and the conditions on them: ranges of group counts and arguments, a least length for each buffer, requirements
//! between sums, and bounds of what buffers hold. All sums are taken over whole numbers, without wrapping.
#![tactic(auto)]

pub mod conditions;
pub mod error;
pub mod launches;
pub mod meets;
pub mod number;
pub mod probe;
pub mod sums;
pub mod values;
