//! Section: Gate. Promises the headline of what is accepted, and true refusals; stands on the walks, `reading` and `certificate`.
//!
//! The check of a kernel with a certificate: what it accepts is pair-safe at each launch that meets the conditions, so that the
//! headline holds there.
#![tactic(auto)]

mod accepted;
mod checking;
pub mod error;
mod first_pass;
mod keeping;
mod showing;

pub use accepted::Accepted;
pub use checking::{check, check_as, check_wide};
