//! Why a kernel is refused.

ghost use Rattle.std.specs.Prelude.{◌≡◌};
ghost use Rattle.core_code.specs.View.{site as site_seen};
ghost use Rattle.cert_check.specs.Numbers as numbers;

use certificate::error::CertError;
use core_code::tree::Site;
pub use entry_check::{Pointer, ShowError};
use kernel_reading::KernelError;
use launch_text::error::LaunchTextError;
use thiserror::Error;

/// The reasons for which a kernel is refused, and want of memory.
#[derive(Debug, Drop, Error)]
pub enum CheckError {
    #[error("{0}")]
    Kernel(KernelError),
    #[error("{0}")]
    Conditions(LaunchTextError),
    /// A loop with a barrier that an iteration can miss, where it begins.
    #[error("55 {}:{}", .0.line, .0.column)]
    Missed(Site),
    #[error("{0}")]
    Certificate(CertError),
    /// Over 256 paths come to an end from the loop or barrier that begins there, or from the kernel's entry.
    #[error("53 {}:{}", .0.line, .0.column)]
    ManyPaths(Site),
    #[error("{0}")]
    Show(ShowError),
}

/// The point of a refusal that tells a line and a column.
fn at_place(place: Option<(u32, u32)>) -> Option<Pointer>
    ensures { result ≡ numbers.at_place place }
{
    match place {
        Some((line, column)) => Some(Pointer::At { line, column }),
        None => None,
    }
}

/// The point of a refusal that tells a site of the kernel's text.
fn at_site(site: Site) -> Pointer
    ensures { result ≡ numbers.at_site (site_seen site) }
{
    Pointer::At {
        line: site.line,
        column: site.column,
    }
}

/// The point of a refusal that tells a line of a text.
fn at_line(line: Option<u64>) -> Option<Pointer>
    ensures { result ≡ numbers.at_line line }
{
    match line {
        Some(line) => Some(Pointer::Number(line)),
        None => None,
    }
}

impl CheckError {
    ghost use Rattle.cert_check.specs.Numbers.{error_number, error_place};

    /// The number under which the error is printed.
    pub fn number(&self) -> u8
        ensures { result ≡ error_number self.now }
    {
        match self {
            CheckError::Kernel(error) => error.number(),
            CheckError::Conditions(error) => error.number(),
            CheckError::Missed(_) => 55,
            CheckError::Certificate(error) => error.number(),
            CheckError::ManyPaths(_) => 53,
            CheckError::Show(error) => error.number(),
        }
    }

    /// The place or the number that a refusal tells; none where it tells neither.
    pub fn place(&self) -> Option<Pointer>
        ensures { result ≡ error_place self.now }
    {
        match self {
            CheckError::Kernel(KernelError::Head(error)) => at_line(error.place().map(u64::from)),
            CheckError::Kernel(error) => at_place(error.place()),
            CheckError::Conditions(error) => at_line(error.place().map(u64::from)),
            CheckError::Missed(site) | CheckError::ManyPaths(site) => Some(at_site(*site)),
            CheckError::Certificate(error) => at_line(error.place().map(|line| line as u64)),
            CheckError::Show(error) => error.place(),
        }
    }
}
