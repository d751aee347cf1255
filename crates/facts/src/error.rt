//! Why there is no walk.

ghost use Rattle.std.specs.Prelude.{◌≡◌};

use linear::LinearError;
use std::alloc::{AllocError, AllocFailed};
use thiserror::Error;

/// The reasons for which a kernel is not walked.
#[derive(Error, Debug, Drop)]
pub enum WalkError {
    #[error("53 1:1")]
    TooMany,
    #[error("54")]
    TooLarge,
    #[error("out of memory")]
    Memory,
}

impl WalkError {
    ghost use Rattle.facts.specs.Numbers.{error_number};

    /// The number under which the refusal is told.
    pub fn number(&self) -> u8
        ensures { result ≡ error_number self.now }
    {
        match self {
            WalkError::TooMany => 53,
            WalkError::TooLarge => 54,
            WalkError::Memory => 90,
        }
    }
}

impl From<LinearError> for WalkError {
    ghost use Rattle.linear.specs.declared.form.LinearError.TheVariants as linear;
    ghost use Rattle.facts.specs.View.{error_of_form};

    ghost from_gives = { λ e r. r ≡ error_of_form e };

    fn from(e: LinearError) -> WalkError {
        match e {
            LinearError::TooLarge => WalkError::TooLarge,
            LinearError::Memory => WalkError::Memory,
        }
    }
}

impl From<AllocError> for WalkError {
    ghost use Rattle.facts.specs.declared.error.WalkError.TheVariants.{Memory};

    ghost from_gives = { λ _ e. e ≡ Memory };

    fn from(_: AllocError) -> WalkError {
        WalkError::Memory
    }
}

impl<T: Drop> From<AllocFailed<T>> for WalkError {
    ghost use Rattle.facts.specs.declared.error.WalkError.TheVariants.{Memory};

    ghost from_gives = { λ _ e. e ≡ Memory };

    fn from(_: AllocFailed<T>) -> WalkError {
        WalkError::Memory
    }
}
