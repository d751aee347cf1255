//! Section: Tests. Promises nothing; it holds the tests of the crates for host programs, and nothing stands on it.
//!
//! The tests of `host_launches`, `host_shapes` and `host_answers`, so that none of these is proved twice.
#![tactic(auto)]

#[cfg(test)]
mod giving;
#[cfg(test)]
mod launch_tests;
#[cfg(test)]
mod text_tests;
