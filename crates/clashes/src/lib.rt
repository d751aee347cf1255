//! Section: Replays. Promises the first data race of a history, exactly as defined; stands on `work_item`.
//!
//! Accesses, and the first two that clash, found as the accesses come: of each element the last store and the loads since.
#![tactic(auto)]

pub mod access;
pub mod history;
pub mod mark;
pub mod seen;
pub mod watch;
