//! Section: Meaning. Promises the definitions that all promises speak of, with laws of them; stands on nothing.
//!
//! What kernels mean: definitions alone, in `specs/`, for the whole language. What a reader has to believe of kverify's
//! promises is written there. The functions of this crate do nothing: the contract of each is a law of the definitions,
//! and the crates above cite the laws and the lemmas in `proofs/`.
#![tactic(auto)]

pub mod devices;
pub mod honesty;
pub mod machines;
pub mod numbers;
pub mod solo_runs;
pub mod worlds;
