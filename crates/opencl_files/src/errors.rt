//! Why a file has no such kernel.

ghost use Rattle.std.specs.Prelude.{◌≡◌};

use core_code::tree::Site;
use opencl_parser::stops::ParseFault;
use std::alloc::{AllocError, AllocFailed};
use thiserror::Error;

/// The text is at fault; the kernel that is asked for is not there, or there twice; none is asked for, and there are several.
#[derive(Debug, Clone, Copy)]
pub enum FileFault {
    Text(ParseFault),
    NoKernel,
    KernelTwice,
    SeveralKernels,
}

impl FileFault {
    ghost use Rattle.opencl_files.specs.Faults.{fault_number};
    ghost use Rattle.opencl_files.specs.View.{fault};

    /// The number under which the fault is printed.
    pub fn number(self) -> u8
        ensures { result ≡ fault_number (fault self) }
    {
        match self {
            FileFault::Text(fault) => fault.number(),
            FileFault::NoKernel => 35,
            FileFault::KernelTwice => 35,
            FileFault::SeveralKernels => 35,
        }
    }
}

/// A fault and its place, or want of memory.
#[derive(Debug, Drop, Error)]
pub enum FileError {
    #[error("{} {}:{}", .fault.number(), .site.line, .site.column)]
    At { fault: FileFault, site: Site },
    #[error("90")]
    Memory,
}

impl FileError {
    ghost use Rattle.opencl_files.specs.View.{error_number, error_place, maybe_site};

    /// The number under which the error is printed.
    pub fn number(&self) -> u8
        ensures { result ≡ error_number self.now }
    {
        match self {
            FileError::At { fault, .. } => fault.number(),
            FileError::Memory => 90,
        }
    }

    /// The line and the column of the fault; none where memory was refused.
    pub fn place(&self) -> Option<Site>
        ensures { maybe_site result ≡ error_place self.now }
    {
        match self {
            FileError::At { site, .. } => Some(*site),
            FileError::Memory => None,
        }
    }
}

impl From<AllocError> for FileError {
    ghost use Rattle.opencl_files.specs.declared.errors.FileError.TheVariants.{Memory};

    ghost from_gives = { λ _ e. e ≡ Memory };

    fn from(_: AllocError) -> FileError {
        FileError::Memory
    }
}

impl<T: Drop> From<AllocFailed<T>> for FileError {
    ghost use Rattle.opencl_files.specs.declared.errors.FileError.TheVariants.{Memory};

    ghost from_gives = { λ _ e. e ≡ Memory };

    fn from(_: AllocFailed<T>) -> FileError {
        FileError::Memory
    }
}
