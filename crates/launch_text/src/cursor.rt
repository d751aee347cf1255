//! What is left of a text.

ghost use Rattle.std.specs.Prelude.{◌+◌, ◌<◌, ◌^◌, length};

use crate::error::{LaunchFault, LaunchTextError};

/// The bytes that are left of a text, and the number of their line, from 1.
#[derive(Clone, Copy)]
pub struct Cursor<'a> {
    pub line: u32,
    pub rest: &'a [u8],
    pub ghost few: { line + length rest.now < 2 ^ 32 },
}

impl<'a> Cursor<'a> {
    ghost use Rattle.std.specs.Prelude.{◌≡◌, ◌+◌, ◌<◌, ◌≤◌, ◌^◌, length, true, false, MatchOption};
    ghost use Rattle.launch_text.specs.LaunchFaults as meaning;
    ghost use Rattle.launch_text.specs.declared.error.LaunchTextError.TheVariants as errors;
    ghost use Rattle.launch_text.specs.Answers.{cursor, Gives};

    /// The error of a fault in the cursor's line.
    pub fn refused(self, fault: LaunchFault) -> LaunchTextError
        ensures { result ≡ errors.Refused fault self.entry.line }
    {
        LaunchTextError::Refused {
            fault,
            line: self.line,
        }
    }

    /// The cursor behind so many more bytes of its line.
    pub fn past(self, count: usize) -> Cursor<'a>
        requires { count ≤ length self.rest.now }
        ensures { cursor result ≡ meaning.past count (cursor self.entry) }
    {
        Cursor {
            line: self.line,
            rest: &self.rest[count..],
        }
    }

    /// The cursor behind these bytes; none where they do not stand at the front.
    pub fn strip(self, front: &str) -> Option<Cursor<'a>>
        ensures { MatchOption result (meaning.sees front.now (cursor self.entry) ≡ false) (λ c. (meaning.sees front.now (cursor self.entry) ≡ true) × (cursor c ≡ meaning.past (length front.now) (cursor self.entry))) }
    {
        let Some(rest) = self.rest.strip_prefix(front.as_bytes()) else {
            return None;
        };
        Some(Cursor {
            line: self.line,
            rest,
        })
    }

    /// The cursor behind these bytes; a fault where they do not stand at the front.
    #[tactic(auto, unfolding(crate::specs::LaunchFaults::expect))]
    pub fn expect(self, front: &str) -> Result<Cursor<'a>, LaunchTextError>
        ensures { Gives cursor result (meaning.expect front.now (cursor self.entry)) }
    {
        let Some(after) = self.strip(front) else {
            return Err(self.refused(LaunchFault::Expected));
        };
        Ok(after)
    }

    /// The cursor behind the line's end; a fault where that does not stand at the front.
    #[tactic(auto, unfolding(crate::specs::LaunchFaults::end_line))]
    pub fn end_line(self) -> Result<Cursor<'a>, LaunchTextError>
        ensures { Gives cursor result (meaning.end_line (cursor self.entry)) }
    {
        let Some(rest) = self.rest.strip_prefix(b"\n") else {
            return Err(self.refused(LaunchFault::Expected));
        };
        Ok(Cursor {
            line: self.line + 1,
            rest,
        })
    }
}
