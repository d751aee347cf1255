//! Why a run is refused.

ghost use Rattle.std.specs.Prelude.{◌≡◌};

use launch::error::ConditionError;
use std::alloc::{AllocError, AllocFailed};
use thiserror::Error;

/// The kernel has an operation that is not reckoned, the launch does not meet its conditions, there are too few or too many workers, or
/// want of memory.
#[derive(Debug, Drop, Error)]
pub enum RunError {
    #[error("{0}")]
    Condition(ConditionError),
    /// The number of workers is not 1 to 64.
    #[error("70")]
    Workers,
    /// An operation that is not reckoned stands in the kernel: what it gives is the device's to say.
    #[error("71")]
    Unreckoned,
    #[error("90")]
    Memory,
}

impl RunError {
    ghost use Rattle.executor.specs.Numbers.{error_number, error_line};

    /// The number under which the error is printed.
    pub fn number(&self) -> u8
        ensures { result ≡ error_number self.now }
    {
        match self {
            RunError::Condition(error) => error.number(),
            RunError::Workers => 70,
            RunError::Unreckoned => 71,
            RunError::Memory => 90,
        }
    }

    /// The line of the conditions that it points to.
    pub fn place(&self) -> Option<u32>
        ensures { result ≡ error_line self.now }
    {
        match self {
            RunError::Condition(error) => error.place(),
            RunError::Workers | RunError::Unreckoned | RunError::Memory => None,
        }
    }
}

impl From<ConditionError> for RunError {
    ghost use Rattle.executor.specs.declared.error.RunError.TheVariants.{Condition};

    ghost from_gives = { λ e r. r ≡ Condition e };

    fn from(e: ConditionError) -> RunError {
        RunError::Condition(e)
    }
}

impl From<AllocError> for RunError {
    ghost use Rattle.executor.specs.declared.error.RunError.TheVariants.{Memory};

    ghost from_gives = { λ _ e. e ≡ Memory };

    fn from(_: AllocError) -> RunError {
        RunError::Memory
    }
}

impl<T: Drop> From<AllocFailed<T>> for RunError {
    ghost use Rattle.executor.specs.declared.error.RunError.TheVariants.{Memory};

    ghost from_gives = { λ _ e. e ≡ Memory };

    fn from(_: AllocFailed<T>) -> RunError {
        RunError::Memory
    }
}
