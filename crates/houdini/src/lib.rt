//! Section: Search. Promises the greatest standing set, for every number of workers; stands on `board` and `words`.
//!
//! Workers that take refuted candidates off one board until the greatest set of candidates that support one another is left.
//!
//! Each worker examines the candidates that it finds alive, then makes a pass over the board, until a pass of its own is settled. That
//! takes it at most one pass more than there are candidates. Each of them then has the same set. Nothing is said of which worker refutes
//! what, nor that several of them ran.
#![tactic(auto)]

mod error;
mod threads;
mod worker;

pub use error::SettleError;
pub use threads::settle;
