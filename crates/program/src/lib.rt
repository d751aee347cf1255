//! Section: Program. Promises a status, and what stands behind a status of 0; stands on `telling` and `command_line`.
//!
//! The program over any files and writers: what it reads, what it answers and its status.
#![tactic(auto)]

pub mod files;
pub mod first;
pub mod held;
mod one_run;
pub mod patience;
mod writing;

pub use one_run::{USAGE, tool, tool_watched};
pub use telling::{Progress, Unwatched, Watcher};
