//! Section: Tests. Promises nothing; it holds tests of crates of other sections, and nothing stands on it.
//!
//! The tests of `words`, `lines`, `linear`, `cut_proof`, `domain`, `loop_bounds`, `work_item`, `board`, `houdini`, `write_log` and
//! `sound_cores`, so that none of these is proved twice.
#![tactic(auto)]

#[cfg(test)]
mod board_tests;
#[cfg(test)]
mod congruence_tests;
#[cfg(test)]
mod cut_proof_tests;
#[cfg(test)]
mod derivation_tests;
#[cfg(test)]
mod gate_tests;
#[cfg(test)]
mod interval_tests;
#[cfg(test)]
mod known_bits_tests;
#[cfg(test)]
mod linear_tests;
#[cfg(test)]
mod lines_tests;
#[cfg(test)]
mod log_tests;
#[cfg(test)]
mod loop_bounds_tests;
#[cfg(test)]
mod making;
#[cfg(test)]
mod product_tests;
#[cfg(test)]
mod shift_tests;
#[cfg(test)]
mod sound_cores_tests;
#[cfg(test)]
mod tables;
#[cfg(test)]
mod words_tests;
