//! Why there is no count.

use thiserror::Error;

/// The reasons for which the steps are not counted.
#[derive(Debug, Drop, Error)]
pub enum BoundError {
    #[error("56")]
    TooLarge,
}

impl BoundError {
    ghost use Rattle.std.specs.Prelude.{◌≡◌};

    /// The number under which the error is printed.
    pub fn number(&self) -> u8
        ensures { result ≡ 56 }
    {
        match self {
            BoundError::TooLarge => 56,
        }
    }
}
