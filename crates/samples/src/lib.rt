//! Section: Meaning. Promises what the definitions say of small kernels, computed; stands on `texts` and `reduction`, and nothing on it.
//!
//! Small kernels whose meaning the checker computes, so that the definitions are seen at work, and one kernel that is
//! pair-safe at every launch with room for it. Nothing stands on this crate.
#![tactic(auto)]

pub mod bounded;
pub mod computed;
pub mod one_store;
pub mod texts_of_stores;
pub mod typing;
