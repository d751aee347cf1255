//! Why a kernel is not shown.

ghost use Rattle.std.specs.Prelude.{◌≡◌};
ghost use Rattle.entry_check.specs.Numbers as numbers;

use facts::WalkError;
use std::alloc::{AllocError, AllocFailed};
use thiserror::Error;
use walk::FindError;

/// The point that a refusal tells: a place of the kernel's text; or a number, that of a line or of an obligation.
#[derive(Clone, Copy, Debug, PartialEq, Eq)]
pub enum Pointer {
    At { line: u32, column: u32 },
    Number(u64),
}

/// The reasons for which an obligation of a kernel is not shown, and want of memory.
#[derive(Debug, Drop, Error)]
pub enum ShowError {
    /// An obligation is not shown; 0 where the certificate tells of what the kernel lacks, or has an entry past the last.
    #[error("52 {0}")]
    NotShown(u64),
    /// More than 256 paths from one place come to an end: the number of its loop or barrier, none of the kernel's entry.
    #[error("53")]
    ManyPaths(Option<u32>),
    #[error("{0}")]
    Walk(WalkError),
    #[error("56")]
    OverBudget,
    #[error("90")]
    Memory,
}

/// The place that a walk's refusal tells: the start of the text where there is too much to show, else none.
fn walk_place(error: &WalkError) -> Option<Pointer>
    ensures { result ≡ numbers.walk_place error.now }
{
    match error {
        WalkError::TooMany => Some(Pointer::At { line: 1, column: 1 }),
        WalkError::TooLarge | WalkError::Memory => None,
    }
}

impl ShowError {
    ghost use Rattle.entry_check.specs.Numbers.{show_number, show_place};

    /// The number under which the error is printed.
    pub fn number(&self) -> u8
        ensures { result ≡ show_number self.now }
    {
        match self {
            ShowError::NotShown(_) => 52,
            ShowError::ManyPaths(_) => 53,
            ShowError::Walk(error) => error.number(),
            ShowError::OverBudget => 56,
            ShowError::Memory => 90,
        }
    }

    /// The place of the kernel's text, or the number of the obligation, that a refusal tells; none where it tells neither.
    pub fn place(&self) -> Option<Pointer>
        ensures { result ≡ show_place self.now }
    {
        match self {
            ShowError::NotShown(number) => Some(Pointer::Number(*number)),
            ShowError::Walk(error) => walk_place(error),
            ShowError::ManyPaths(_) | ShowError::OverBudget | ShowError::Memory => None,
        }
    }
}

impl From<WalkError> for ShowError {
    ghost use Rattle.entry_check.specs.declared.error.ShowError.TheVariants.{Walk};

    ghost from_gives = { λ e r. r ≡ Walk e };

    fn from(e: WalkError) -> ShowError {
        ShowError::Walk(e)
    }
}

impl From<FindError> for ShowError {
    ghost use Rattle.entry_check.specs.Numbers.{show_of};

    ghost from_gives = { λ e r. r ≡ show_of e };

    fn from(e: FindError) -> ShowError {
        match e {
            FindError::ManyPaths(statement) => ShowError::ManyPaths(statement),
            FindError::Walk(error) => ShowError::Walk(error),
        }
    }
}

impl From<AllocError> for ShowError {
    ghost use Rattle.entry_check.specs.declared.error.ShowError.TheVariants.{Memory};

    ghost from_gives = { λ _ e. e ≡ Memory };

    fn from(_: AllocError) -> ShowError {
        ShowError::Memory
    }
}

impl<T: Drop> From<AllocFailed<T>> for ShowError {
    ghost use Rattle.entry_check.specs.declared.error.ShowError.TheVariants.{Memory};

    ghost from_gives = { λ _ e. e ≡ Memory };

    fn from(_: AllocFailed<T>) -> ShowError {
        ShowError::Memory
    }
}
