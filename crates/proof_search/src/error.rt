//! Why a kernel is not proved.

ghost use Rattle.std.specs.Prelude.{◌≡◌};

use cert_check::error::{CheckError, Pointer};
use diagnostics::Finding;
use std::fmt;
use thiserror::Error;

/// The reasons for which a kernel is not proved, and want of memory.
#[derive(Drop, Error)]
pub enum VerifyError {
    /// The refusal by the check, of the kernel or its conditions, or of all certificates that were tried.
    #[error("{0}")]
    Check(CheckError),
    /// The number of workers is not 1 to 64.
    #[error("70")]
    Workers,
    /// No certificate was found. The kernel may be safe all the same, but for what a finding confirms.
    #[error("60")]
    NotShown(Vec<Finding>),
    /// The certificate passes the limit of its text.
    #[error("50 1")]
    TooLong,
    #[error("90")]
    Memory,
}

/// As `Display`: findings are told by the number alone.
impl fmt::Debug for VerifyError {
    fn fmt<W: fmt::Write>(&self, f: &mut fmt::Formatter<W>) -> fmt::Result {
        fmt::Display::fmt(self, f)
    }
}

impl VerifyError {
    ghost use Rattle.proof_search.specs.Numbers.{error_number, error_place};

    /// The number under which the error is printed.
    pub fn number(&self) -> u8
        ensures { result ≡ error_number self.now }
    {
        match self {
            VerifyError::Check(error) => error.number(),
            VerifyError::Workers => 70,
            VerifyError::NotShown(_) => 60,
            VerifyError::TooLong => 50,
            VerifyError::Memory => 90,
        }
    }

    /// The place or the number that a refusal tells; none where it tells neither.
    pub fn place(&self) -> Option<Pointer>
        ensures { result ≡ error_place self.now }
    {
        match self {
            VerifyError::Check(error) => error.place(),
            VerifyError::TooLong => Some(Pointer::Number(1)),
            VerifyError::Workers | VerifyError::NotShown(_) | VerifyError::Memory => None,
        }
    }
}
