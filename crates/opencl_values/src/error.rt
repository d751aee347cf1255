//! Why an expression or a statement has no meaning.

ghost use Rattle.std.specs.Prelude.{◌≡◌, Err};
ghost use Rattle.opencl_values.specs.declared.error.ValueError.TheVariants.{At};

use core_code::tree::Site;
use std::alloc::{AllocError, AllocFailed};
use thiserror::Error;

/// What is left out of OpenCL C.
#[derive(Debug, Clone, Copy)]
pub enum Construct {
    Vector,
    /// A pointer that is no array with its indexes.
    Pointer,
    /// A store inside an expression.
    Effect,
    /// A call of a function that is not read.
    Function,
    /// `switch`.
    Choice,
    /// A `continue` in a `do`.
    Repetition,
    PrivateArray,
    InitialList,
    Atomic,
    Image,
    Long,
    Half,
    Double,
    /// A size, shifted by what is no number of the text.
    SizeShift,
    /// A size that each device has its own of.
    DeviceSize,
    /// What stands in the file beside the kernel.
    Outside,
    /// A `__local` variable that is no array.
    LocalScalar,
    /// A `__constant` variable in a block.
    ConstantVariable,
}

/// A broken rule.
#[derive(Debug, Clone, Copy)]
pub enum Fault {
    UnknownName,
    NameTwice,
    WrongType,
    WriteToConst,
    BarrierFlags,
    JumpOutside,
    TooMany,
    Unset,
    /// Nothing says how long the array of a `__local` pointer is.
    LocalLength,
    LeftOut(Construct),
}

impl Fault {
    ghost use Rattle.opencl_values.specs.Faults.{fault_number};
    ghost use Rattle.opencl_values.specs.View.{fault};

    /// The number under which the fault is printed.
    pub fn number(self) -> u8
        ensures { result ≡ fault_number (fault self) }
    {
        match self {
            Fault::UnknownName => 20,
            Fault::NameTwice => 21,
            Fault::WrongType => 22,
            Fault::WriteToConst => 23,
            Fault::BarrierFlags => 26,
            Fault::JumpOutside => 28,
            Fault::TooMany => 12,
            Fault::Unset => 29,
            Fault::LocalLength => 35,
            Fault::LeftOut(_) => 15,
        }
    }
}

/// The first broken rule and its place, or want of memory.
#[derive(Debug, Drop, Error)]
pub enum ValueError {
    #[error("{} {}:{}", .fault.number(), .site.line, .site.column)]
    At { fault: Fault, site: Site },
    #[error("90")]
    Memory,
}

impl ValueError {
    ghost use Rattle.opencl_values.specs.View.{error_number};

    /// The number under which the error is printed.
    pub fn number(&self) -> u8
        ensures { result ≡ error_number self.now }
    {
        match self {
            ValueError::At { fault, .. } => fault.number(),
            ValueError::Memory => 90,
        }
    }
}

impl From<AllocError> for ValueError {
    ghost use Rattle.opencl_values.specs.declared.error.ValueError.TheVariants.{Memory};

    ghost from_gives = { λ _ e. e ≡ Memory };

    fn from(_: AllocError) -> ValueError {
        ValueError::Memory
    }
}

impl<T: Drop> From<AllocFailed<T>> for ValueError {
    ghost use Rattle.opencl_values.specs.declared.error.ValueError.TheVariants.{Memory};

    ghost from_gives = { λ _ e. e ≡ Memory };

    fn from(_: AllocFailed<T>) -> ValueError {
        ValueError::Memory
    }
}

/// A rule, broken at a place.
pub fn refused<T>(fault: Fault, at: Site) -> Result<T, ValueError>
    ensures { result ≡ Err (At fault at) }
{
    Err(ValueError::At { fault, site: at })
}
