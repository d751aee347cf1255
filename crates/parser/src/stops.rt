//! Why reading stops.

ghost use Rattle.std.specs.Prelude.{◌≡◌};

use lexer::Token;
use std::alloc::{AllocError, AllocFailed};

/// Another token is due, the tree or its brackets are too deep, or there is too much of something.
#[derive(Debug, Clone, Copy)]
pub enum ParseFault {
    Expected,
    TooDeep,
    TooMany,
}

impl ParseFault {
    ghost use Rattle.texts.specs.ParseFaults.{parse_fault_number};
    ghost use Rattle.parser.specs.View.{fault};

    /// The number under which the fault is printed.
    pub fn number(self) -> u8
        ensures { result ≡ parse_fault_number (fault self) }
    {
        match self {
            ParseFault::Expected => 10,
            ParseFault::TooDeep => 11,
            ParseFault::TooMany => 12,
        }
    }
}

/// The reason for which reading stopped: a fault, with the tokens from the one that is to blame on.
#[derive(Drop)]
pub enum Stop<'a> {
    Refused(ParseFault, &'a [Token<'a>]),
    Memory,
}

impl<'a> From<AllocError> for Stop<'a> {
    ghost use Rattle.parser.specs.declared.stops.Stop.TheVariants.{Memory};

    ghost from_gives = { λ _ e. e ≡ Memory };

    fn from(_: AllocError) -> Stop<'a> {
        Stop::Memory
    }
}

impl<'a, T: Drop> From<AllocFailed<T>> for Stop<'a> {
    ghost use Rattle.parser.specs.declared.stops.Stop.TheVariants.{Memory};

    ghost from_gives = { λ _ e. e ≡ Memory };

    fn from(_: AllocFailed<T>) -> Stop<'a> {
        Stop::Memory
    }
}
