//! Why there is no table of supports.

ghost use Rattle.std.specs.Prelude.{◌≡◌};

use std::alloc::{AllocError, AllocFailed};
use thiserror::Error;

/// The reasons for which no table of supports is made.
#[derive(Debug, Drop, Error)]
pub enum SupportError {
    #[error("90")]
    Memory,
}

impl SupportError {
    /// The number under which the error is printed.
    pub fn number(&self) -> u8
        ensures { result ≡ 90 }
    {
        match self {
            SupportError::Memory => 90,
        }
    }
}

impl From<AllocError> for SupportError {
    ghost use Rattle.supports.specs.declared.error.SupportError.TheVariants.{Memory};

    ghost from_gives = { λ _ e. e ≡ Memory };

    fn from(_: AllocError) -> SupportError {
        SupportError::Memory
    }
}

impl<T: Drop> From<AllocFailed<T>> for SupportError {
    ghost use Rattle.supports.specs.declared.error.SupportError.TheVariants.{Memory};

    ghost from_gives = { λ _ e. e ≡ Memory };

    fn from(_: AllocFailed<T>) -> SupportError {
        SupportError::Memory
    }
}
