//! Section: Search. Promises exactly which candidates a set supports, and sets of candidates; stands on nothing.
//!
//! Candidate facts that support one another: of each candidate its obligations, of each obligation the sets of candidates that suffice
//! for it, and a set of at most 512 candidates, a bit each.
//!
//! `Supports` says of a candidate and a set whether each of the candidate's obligations has a listed set inside it. Which set is the
//! greatest one that stands is no business of this crate: `specs/Sets.antt` says what it is to be that set.
#![tactic(auto)]

mod error;
pub mod laws;
mod set;
mod table;

pub use error::SupportError;
pub use set::Set;
pub use table::Supports;
