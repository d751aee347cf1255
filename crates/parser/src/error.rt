//! Why tokens are no kernel within the limits.

ghost use Rattle.std.specs.Prelude.{◌≡◌};

use crate::stops::ParseFault;
use core_code::tree::Site;
use thiserror::Error;

/// A fault and its place, or want of memory.
#[derive(Debug, Drop, Error)]
pub enum ParseError {
    #[error("{} {}:{}", .fault.number(), .site.line, .site.column)]
    At { fault: ParseFault, site: Site },
    #[error("90")]
    Memory,
}

impl ParseError {
    ghost use Rattle.parser.specs.Parsed.{error_number, error_place};

    /// The number under which the error is printed.
    pub fn number(&self) -> u8
        ensures { result ≡ error_number self.now }
    {
        match self {
            ParseError::At { fault, .. } => fault.number(),
            ParseError::Memory => 90,
        }
    }

    /// The line and the column of the token that is to blame.
    pub fn place(&self) -> Option<(u32, u32)>
        ensures { result ≡ error_place self.now }
    {
        match self {
            ParseError::At { site, .. } => Some((site.line, site.column)),
            ParseError::Memory => None,
        }
    }
}
