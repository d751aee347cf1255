//! Why a board was not settled.

ghost use Rattle.std.specs.Prelude.{◌≡◌};

use board::BoardError;
use thiserror::Error;

/// The reasons for which candidates are not settled: a wrong number of workers, or want of memory.
#[derive(Debug, Drop, Error)]
pub enum SettleError {
    /// The number of workers is not 1 to 64.
    #[error("70")]
    Workers,
    #[error("90")]
    Memory,
}

impl SettleError {
    ghost use Rattle.houdini.specs.Numbers.{error_number};

    /// The number under which the error is printed.
    pub fn number(&self) -> u8
        ensures { result ≡ error_number self.now }
    {
        match self {
            SettleError::Workers => 70,
            SettleError::Memory => 90,
        }
    }
}

impl From<BoardError> for SettleError {
    ghost use Rattle.std.specs.Prelude.{◌≡◌};
    ghost use Rattle.houdini.specs.declared.error.SettleError.TheVariants.{Memory};

    ghost from_gives = { λ _ e. e ≡ Memory };

    fn from(_: BoardError) -> SettleError {
        SettleError::Memory
    }
}
