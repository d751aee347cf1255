//! Section: Runs. Promises of each element the last word that was stored; stands on `launch`.
//!
//! What a work-group has written to the buffers, and writing it to them: of each element the last number alone.
#![tactic(auto)]

mod log;
mod rising;
mod stretch;

pub use log::{WriteLog, apply};
