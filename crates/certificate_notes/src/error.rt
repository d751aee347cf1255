//! Why there are no notes.

ghost use Rattle.std.specs.Prelude.{◌≡◌};

use std::alloc::{AllocError, AllocFailed};
use thiserror::Error;

/// The reasons for which a certificate has no notes.
#[derive(Error, Debug, Drop)]
pub enum NamesError {
    #[error("90")]
    Memory,
}

impl NamesError {
    /// The number under which the error is printed.
    pub fn number(&self) -> u8
        ensures { result ≡ 90 }
    {
        90
    }
}

impl From<AllocError> for NamesError {
    ghost use Rattle.certificate_notes.specs.declared.error.NamesError.TheVariants.{Memory};

    ghost from_gives = { λ _ e. e ≡ Memory };

    fn from(_: AllocError) -> NamesError {
        NamesError::Memory
    }
}

impl<T: Drop> From<AllocFailed<T>> for NamesError {
    ghost use Rattle.certificate_notes.specs.declared.error.NamesError.TheVariants.{Memory};

    ghost from_gives = { λ _ e. e ≡ Memory };

    fn from(_: AllocFailed<T>) -> NamesError {
        NamesError::Memory
    }
}
