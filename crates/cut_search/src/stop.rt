//! The reasons for which a search ends without an answer.

use std::alloc::{AllocError, AllocFailed};

/// The reasons for which a search ends without an answer.
#[derive(Drop)]
pub enum Stop {
    /// A number leaves `i64`, or a limit is reached.
    GivenUp,
    Memory,
}

impl From<AllocError> for Stop {
    fn from(_: AllocError) -> Stop {
        Stop::Memory
    }
}

impl<T: Drop> From<AllocFailed<T>> for Stop {
    fn from(_: AllocFailed<T>) -> Stop {
        Stop::Memory
    }
}
