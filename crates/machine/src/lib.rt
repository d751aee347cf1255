//! Section: Replays. Promises a launch's events, its first data race and first barrier divergence, exactly; stands on `typed_kernels` and
//! `clashes`.
//!
//! The machine: all work-items of a launch over one memory, one event at a time. A world that was opened is sound (`IsSound`), and each
//! event keeps that.
#![tactic(auto)]

mod clash;
mod divergence;
pub mod memory;
mod release;
pub mod world;
