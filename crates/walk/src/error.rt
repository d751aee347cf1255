//! Why obligations are not found.

ghost use Rattle.std.specs.Prelude.{◌≡◌};

use facts::WalkError;
use std::alloc::{AllocError, AllocFailed};
use thiserror::Error;

/// The reasons for which it was not told what is to be shown.
#[derive(Debug, Drop, Error)]
pub enum FindError {
    /// More than 256 paths from one place come to an end: the number of its loop or barrier, none of the kernel's entry.
    #[error("53")]
    ManyPaths(Option<u32>),
    #[error("{0}")]
    Walk(WalkError),
}

impl From<WalkError> for FindError {
    ghost use Rattle.walk.specs.declared.error.FindError.TheVariants.{Walk};

    ghost from_gives = { λ e r. r ≡ Walk e };

    fn from(e: WalkError) -> FindError {
        FindError::Walk(e)
    }
}

impl From<AllocError> for FindError {
    ghost use Rattle.facts.specs.declared.error.WalkError.TheVariants.{Memory};
    ghost use Rattle.walk.specs.declared.error.FindError.TheVariants.{Walk};

    ghost from_gives = { λ _ e. e ≡ Walk Memory };

    fn from(_: AllocError) -> FindError {
        FindError::Walk(WalkError::Memory)
    }
}

impl<T: Drop> From<AllocFailed<T>> for FindError {
    ghost use Rattle.facts.specs.declared.error.WalkError.TheVariants.{Memory};
    ghost use Rattle.walk.specs.declared.error.FindError.TheVariants.{Walk};

    ghost from_gives = { λ _ e. e ≡ Walk Memory };

    fn from(_: AllocFailed<T>) -> FindError {
        FindError::Walk(WalkError::Memory)
    }
}
