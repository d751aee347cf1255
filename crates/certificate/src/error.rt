//! Why there is no certificate.

ghost use Rattle.std.specs.Prelude.{◌≡◌};

use std::alloc::{AllocError, AllocFailed};
use std::fmt::{self, Display, Formatter, Write};
use thiserror::Error;

/// The faults for which a text is no certificate.
#[derive(Clone, Copy, Debug)]
pub enum CertFault {
    /// A line that says nothing, counted from 1.
    BadLine(usize),
    OtherVersion,
}

impl CertFault {
    ghost use Rattle.certificate_text.specs.Certificate.{certificate_fault_number, certificate_fault_line};
    ghost use Rattle.certificate.specs.Answers.{fault};

    /// The number under which the fault is printed.
    pub fn number(self) -> u8
        ensures { result ≡ certificate_fault_number (fault self) }
    {
        match self {
            CertFault::BadLine(_) => 50,
            CertFault::OtherVersion => 51,
        }
    }

    /// The line that is bad; none of another version.
    pub fn place(self) -> Option<usize>
        ensures { result ≡ certificate_fault_line (fault self) }
    {
        match self {
            CertFault::BadLine(line) => Some(line),
            CertFault::OtherVersion => None,
        }
    }
}

impl Display for CertFault {
    fn fmt<W: Write>(&self, f: &mut Formatter<W>) -> fmt::Result {
        match self.place() {
            Some(line) => write!(f, "{} {line}", self.number()),
            None => write!(f, "{}", self.number()),
        }
    }
}

/// The first fault of a text, or want of memory.
#[derive(Debug, Drop, Error)]
pub enum CertError {
    #[error("{0}")]
    Refused(CertFault),
    #[error("90")]
    Memory,
}

impl CertError {
    ghost use Rattle.certificate.specs.Answers.{error_number, error_place};

    /// The number under which the error is printed.
    pub fn number(&self) -> u8
        ensures { result ≡ error_number self.now }
    {
        match self {
            CertError::Refused(fault) => fault.number(),
            CertError::Memory => 90,
        }
    }

    /// The line of the text, where it has one.
    pub fn place(&self) -> Option<usize>
        ensures { result ≡ error_place self.now }
    {
        match self {
            CertError::Refused(fault) => fault.place(),
            CertError::Memory => None,
        }
    }
}

impl From<AllocError> for CertError {
    ghost use Rattle.certificate.specs.declared.error.CertError.TheVariants.{Memory};

    ghost from_gives = { λ _ e. e ≡ Memory };

    fn from(_: AllocError) -> CertError {
        CertError::Memory
    }
}

impl<T: Drop> From<AllocFailed<T>> for CertError {
    ghost use Rattle.certificate.specs.declared.error.CertError.TheVariants.{Memory};

    ghost from_gives = { λ _ e. e ≡ Memory };

    fn from(_: AllocFailed<T>) -> CertError {
        CertError::Memory
    }
}
