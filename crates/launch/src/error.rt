//! Why a launch is refused.

ghost use Rattle.std.specs.Prelude.{◌≡◌, Some};

use thiserror::Error;

/// The number under which a condition that a launch does not meet is refused.
const NUMBER: u8 = 40;

/// A launch does not meet the condition of this line.
#[derive(Debug, Drop, Error)]
#[error("{} {line}", NUMBER)]
pub struct ConditionError {
    pub line: u32,
}

impl ConditionError {
    /// The number under which the error is printed.
    pub fn number(&self) -> u8
        ensures { result ≡ 40 }
    {
        NUMBER
    }

    /// The line of the condition.
    pub fn place(&self) -> Option<u32>
        ensures { result ≡ Some self.now.line }
    {
        Some(self.line)
    }
}
