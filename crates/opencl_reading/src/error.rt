//! Why a text is no kernel in OpenCL C.

ghost use Rattle.std.specs.Prelude.{◌≡◌};

use crate::left_out;
use core_code::tree::Site;
use opencl_files::errors::{FileError, FileFault};
use opencl_parser::stops::ParseFault;
use opencl_tokens::{TextFault, TokenError};
use opencl_values::error::{Fault, ValueError};
use std::alloc::{AllocError, AllocFailed};
use thiserror::Error;

/// The first fault of a text of OpenCL C with its place, or want of memory.
#[derive(Debug, Drop, Error)]
pub enum OpenClError {
    #[error("{0}")]
    Text(TokenError),
    #[error("{0}")]
    File(FileError),
    #[error("{0}")]
    Core(ValueError),
    /// Nothing says how large the kernel's work-groups are.
    #[error("35 {}:{}", .0.line, .0.column)]
    NoSizes(Site),
    /// The kernel and the head of conditions say different sizes of its work-groups.
    #[error("35 {}:{}", .0.line, .0.column)]
    OtherSizes(Site),
    /// The head of conditions gives a length to a name that no `__local` parameter has, or twice to one.
    #[error("35 {}:{}", .0.line, .0.column)]
    NoSuchLocal(Site),
    /// What was written out is no sound core: no text should have this fault.
    #[error("19 {}:{}", .0.line, .0.column)]
    Unsound(Site),
    #[error("90")]
    Memory,
}

/// The line and the column of a place.
fn pair(site: Site) -> (u32, u32)
    ensures { result ≡ (site.line, site.column) }
{
    (site.line, site.column)
}

impl OpenClError {
    ghost use Rattle.std.specs.Prelude.{is_some, nat_eq};
    ghost use Rattle.opencl_reading.specs.Answers.{error_number, error_place};

    /// The number under which the error is printed.
    pub fn number(&self) -> u8
        ensures { result ≡ error_number self.now }
    {
        match self {
            OpenClError::Text(error) => error.number(),
            OpenClError::File(error) => error.number(),
            OpenClError::Core(error) => error.number(),
            OpenClError::NoSizes(_) => 35,
            OpenClError::OtherSizes(_) => 35,
            OpenClError::NoSuchLocal(_) => 35,
            OpenClError::Unsound(_) => 19,
            OpenClError::Memory => 90,
        }
    }

    /// What is left out at the fault's place, in words; of a fault of another number nothing.
    pub fn left_out(&self) -> Option<&'static str>
        ensures { is_some result ≡ nat_eq (error_number self.now) 15 }
    {
        match self {
            OpenClError::Text(
                TokenError::At {
                    fault: TextFault::LeftOut(word),
                    ..
                },
            ) => Some(left_out::token(*word)),
            OpenClError::File(
                FileError::At {
                    fault: FileFault::Text(ParseFault::LeftOut(construct)),
                    ..
                },
            ) => Some(left_out::read(*construct)),
            OpenClError::Core(
                ValueError::At {
                    fault: Fault::LeftOut(construct),
                    ..
                },
            ) => Some(left_out::written(*construct)),
            _ => None,
        }
    }

    /// The line and the column of the fault.
    pub fn place(&self) -> Option<(u32, u32)>
        ensures { result ≡ error_place self.now }
    {
        match self {
            OpenClError::Text(TokenError::At { site, .. }) => Some((site.line, site.column)),
            OpenClError::File(FileError::At { site, .. }) => Some(pair(*site)),
            OpenClError::Core(ValueError::At { site, .. }) => Some(pair(*site)),
            OpenClError::NoSizes(site) | OpenClError::OtherSizes(site) => Some(pair(*site)),
            OpenClError::NoSuchLocal(site) | OpenClError::Unsound(site) => Some(pair(*site)),
            OpenClError::Text(TokenError::Memory)
            | OpenClError::File(FileError::Memory)
            | OpenClError::Core(ValueError::Memory)
            | OpenClError::Memory => None,
        }
    }
}

impl From<AllocError> for OpenClError {
    ghost use Rattle.opencl_reading.specs.declared.error.OpenClError.TheVariants.{Memory};

    ghost from_gives = { λ _ e. e ≡ Memory };

    fn from(_: AllocError) -> OpenClError {
        OpenClError::Memory
    }
}

impl<T: Drop> From<AllocFailed<T>> for OpenClError {
    ghost use Rattle.opencl_reading.specs.declared.error.OpenClError.TheVariants.{Memory};

    ghost from_gives = { λ _ e. e ≡ Memory };

    fn from(_: AllocFailed<T>) -> OpenClError {
        OpenClError::Memory
    }
}
