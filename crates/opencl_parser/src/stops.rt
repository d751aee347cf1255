//! Why reading stops.

ghost use Rattle.std.specs.Prelude.{◌≡◌};

use core_code::tree::Site;
use std::alloc::{AllocError, AllocFailed};
use thiserror::Error;

/// A construct of OpenCL C 1.2 that is left out.
#[derive(Debug, Clone, Copy)]
pub enum Construct {
    Structure,
    Enumeration,
    Image,
    Sampler,
    Event,
    Double,
    Half,
    Long,
    String,
    Goto,
    Label,
}

/// Another lexeme is due, levels within one another are too many, there is too much of something, or it is left out.
#[derive(Debug, Clone, Copy)]
pub enum ParseFault {
    Expected,
    TooDeep,
    TooMany,
    LeftOut(Construct),
}

impl ParseFault {
    ghost use Rattle.opencl_parser.specs.Faults.{fault_number};
    ghost use Rattle.opencl_parser.specs.View.{fault};

    /// The number under which the fault is printed.
    pub fn number(self) -> u8
        ensures { result ≡ fault_number (fault self) }
    {
        match self {
            ParseFault::Expected => 10,
            ParseFault::TooDeep => 11,
            ParseFault::TooMany => 12,
            ParseFault::LeftOut(_) => 15,
        }
    }
}

/// A fault and its place, or want of memory.
#[derive(Debug, Drop, Error)]
pub enum ParseError {
    #[error("{} {}:{}", .fault.number(), .site.line, .site.column)]
    At { fault: ParseFault, site: Site },
    #[error("90")]
    Memory,
}

impl ParseError {
    ghost use Rattle.opencl_parser.specs.View.{error_number};

    /// The number under which the error is printed.
    pub fn number(&self) -> u8
        ensures { result ≡ error_number self.now }
    {
        match self {
            ParseError::At { fault, .. } => fault.number(),
            ParseError::Memory => 90,
        }
    }
}

impl From<AllocError> for ParseError {
    ghost use Rattle.opencl_parser.specs.declared.stops.ParseError.TheVariants.{Memory};

    ghost from_gives = { λ _ e. e ≡ Memory };

    fn from(_: AllocError) -> ParseError {
        ParseError::Memory
    }
}

impl<T: Drop> From<AllocFailed<T>> for ParseError {
    ghost use Rattle.opencl_parser.specs.declared.stops.ParseError.TheVariants.{Memory};

    ghost from_gives = { λ _ e. e ≡ Memory };

    fn from(_: AllocFailed<T>) -> ParseError {
        ParseError::Memory
    }
}
