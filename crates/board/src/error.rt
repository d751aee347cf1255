//! Why there is no board.

ghost use Rattle.std.specs.Prelude.{◌≡◌};

use std::alloc::AllocError;
use supports::SupportError;
use thiserror::Error;

/// The reasons for which no board is opened.
#[derive(Debug, Drop, Error)]
pub enum BoardError {
    #[error("90")]
    Memory,
}

impl BoardError {
    /// The number under which the error is printed.
    pub fn number(&self) -> u8
        ensures { result ≡ 90 }
    {
        match self {
            BoardError::Memory => 90,
        }
    }
}

impl From<AllocError> for BoardError {
    ghost use Rattle.board.specs.declared.error.BoardError.TheVariants.{Memory};

    ghost from_gives = { λ _ e. e ≡ Memory };

    fn from(_: AllocError) -> BoardError {
        BoardError::Memory
    }
}

impl From<SupportError> for BoardError {
    ghost use Rattle.board.specs.declared.error.BoardError.TheVariants.{Memory};

    ghost from_gives = { λ _ e. e ≡ Memory };

    fn from(_: SupportError) -> BoardError {
        BoardError::Memory
    }
}
