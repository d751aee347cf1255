//! Why there are no places.

ghost use Rattle.std.specs.Prelude.{◌≡◌};

use std::alloc::{AllocError, AllocFailed};
use thiserror::Error;

/// The reasons for which places are not told. A missed loop, by its number, has a barrier, and an item may come through
/// its body, or to a `continue` of it, without one.
#[derive(Debug, Drop, Error)]
pub enum PlaceError {
    #[error("55 {0}")]
    Missed(u32),
    #[error("90")]
    Memory,
}

impl PlaceError {
    ghost use Rattle.places.specs.Numbers.{error_number};

    /// The number under which the refusal is told.
    pub fn number(&self) -> u8
        ensures { result ≡ error_number self.now }
    {
        match self {
            PlaceError::Missed(_) => 55,
            PlaceError::Memory => 90,
        }
    }
}

impl From<AllocError> for PlaceError {
    ghost use Rattle.places.specs.declared.error.PlaceError.TheVariants.{Memory};

    ghost from_gives = { λ _ e. e ≡ Memory };

    fn from(_: AllocError) -> PlaceError {
        PlaceError::Memory
    }
}

impl<T: Drop> From<AllocFailed<T>> for PlaceError {
    ghost use Rattle.places.specs.declared.error.PlaceError.TheVariants.{Memory};

    ghost from_gives = { λ _ e. e ≡ Memory };

    fn from(_: AllocFailed<T>) -> PlaceError {
        PlaceError::Memory
    }
}
