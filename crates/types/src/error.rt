//! Why a kernel is not well typed.

ghost use Rattle.std.specs.Prelude.{◌≡◌};

use core_code::tree::Site;
use std::alloc::{AllocError, AllocFailed};
use thiserror::Error;

/// A broken typing rule.
#[derive(Debug, Clone, Copy)]
pub enum TypeFault {
    UnknownName,
    NameTwice,
    WrongType,
    WriteToConst,
    ArrayInBlock,
    LoadInCompoundIndex,
    BarrierFlags,
    LeftOutWord,
    JumpOutsideLoop,
}

impl TypeFault {
    ghost use Rattle.types.specs.TypeFaults.{type_fault_number};
    ghost use Rattle.types.specs.Answers.{fault};

    /// The number under which the fault is printed.
    pub fn number(self) -> u8
        ensures { result ≡ type_fault_number (fault self) }
    {
        match self {
            TypeFault::UnknownName => 20,
            TypeFault::NameTwice => 21,
            TypeFault::WrongType => 22,
            TypeFault::WriteToConst => 23,
            TypeFault::ArrayInBlock => 24,
            TypeFault::LoadInCompoundIndex => 25,
            TypeFault::BarrierFlags => 26,
            TypeFault::LeftOutWord => 27,
            TypeFault::JumpOutsideLoop => 28,
        }
    }
}

/// The first broken rule and its place, or want of memory.
#[derive(Debug, Drop, Error)]
pub enum TypeError {
    #[error("{} {}:{}", .fault.number(), .site.line, .site.column)]
    At { fault: TypeFault, site: Site },
    #[error("90")]
    Memory,
}

impl TypeError {
    ghost use Rattle.types.specs.Answers.{error_number, error_place};

    /// The number under which the error is printed.
    pub fn number(&self) -> u8
        ensures { result ≡ error_number self.now }
    {
        match self {
            TypeError::At { fault, .. } => fault.number(),
            TypeError::Memory => 90,
        }
    }

    /// The line and the column of what breaks the rule.
    pub fn place(&self) -> Option<(u32, u32)>
        ensures { result ≡ error_place self.now }
    {
        match self {
            TypeError::At { site, .. } => Some((site.line, site.column)),
            TypeError::Memory => None,
        }
    }
}

impl From<AllocError> for TypeError {
    ghost use Rattle.types.specs.declared.error.TypeError.TheVariants.{Memory};

    ghost from_gives = { λ _ e. e ≡ Memory };

    fn from(_: AllocError) -> TypeError {
        TypeError::Memory
    }
}

impl<T: Drop> From<AllocFailed<T>> for TypeError {
    ghost use Rattle.types.specs.declared.error.TypeError.TheVariants.{Memory};

    ghost from_gives = { λ _ e. e ≡ Memory };

    fn from(_: AllocFailed<T>) -> TypeError {
        TypeError::Memory
    }
}
