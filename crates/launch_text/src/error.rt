//! Why a text of conditions or of a launch is refused.

ghost use Rattle.std.specs.Prelude.{◌≡◌};

use std::alloc::{AllocError, AllocFailed};
use thiserror::Error;

/// The faults of a line of conditions or of a launch.
#[derive(Clone, Copy, Debug, PartialEq, Eq)]
pub enum LaunchFault {
    Expected,
    UnknownName,
    MissingLine,
    EmptyRange,
    LimitPassed,
}

impl LaunchFault {
    ghost use Rattle.launch_text.specs.LaunchFaults.{launch_fault_number};
    ghost use Rattle.launch_text.specs.Answers.{fault};

    /// The number under which the fault is printed.
    pub fn number(self) -> u8
        ensures { result ≡ launch_fault_number (fault self) }
    {
        match self {
            LaunchFault::Expected => 30,
            LaunchFault::UnknownName => 31,
            LaunchFault::MissingLine => 32,
            LaunchFault::EmptyRange => 33,
            LaunchFault::LimitPassed => 34,
        }
    }
}

/// The first fault of a text with its line, counted from 1, or want of memory.
#[derive(Debug, Drop, Error)]
pub enum LaunchTextError {
    #[error("{} {line}", .fault.number())]
    Refused { fault: LaunchFault, line: u32 },
    #[error("90")]
    Memory,
}

impl LaunchTextError {
    ghost use Rattle.launch_text.specs.Answers.{error_number, error_place};

    /// The number under which the error is printed.
    pub fn number(&self) -> u8
        ensures { result ≡ error_number self.now }
    {
        match self {
            LaunchTextError::Refused { fault, .. } => fault.number(),
            LaunchTextError::Memory => 90,
        }
    }

    /// The line of the text, where it has one.
    pub fn place(&self) -> Option<u32>
        ensures { result ≡ error_place self.now }
    {
        match self {
            LaunchTextError::Refused { line, .. } => Some(*line),
            LaunchTextError::Memory => None,
        }
    }
}

impl From<AllocError> for LaunchTextError {
    ghost use Rattle.launch_text.specs.declared.error.LaunchTextError.TheVariants.{Memory};

    ghost from_gives = { λ _ e. e ≡ Memory };

    fn from(_: AllocError) -> LaunchTextError {
        LaunchTextError::Memory
    }
}

impl<T: Drop> From<AllocFailed<T>> for LaunchTextError {
    ghost use Rattle.launch_text.specs.declared.error.LaunchTextError.TheVariants.{Memory};

    ghost from_gives = { λ _ e. e ≡ Memory };

    fn from(_: AllocFailed<T>) -> LaunchTextError {
        LaunchTextError::Memory
    }
}
