//! Section: Answers. Promises that what its findings confirm is true, and nothing of what it finds; stands on `certificate_search` and
//! `diagnostics`.
//!
//! The bytes of a kernel and of its conditions to a certificate with its text, which nothing believes until it is checked, or to what is
//! not shown; by the narrow walk, or, where that shows too little or finds a long certificate, by the wide one.
#![tactic(auto)]

mod error;
mod finding;
mod leaving;
mod shortfall;
mod widening;

pub use certificate_search::{Progress, Unwatched, Watcher};
pub use error::VerifyError;
pub use finding::{Effort, Found, find, find_watched};
pub use leaving::{Left, left_by};
