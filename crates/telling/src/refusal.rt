//! The lines of refusals: a number and a place.

ghost use Rattle.std.specs.Prelude.{◌≡◌, IfOk, IfSome};
ghost use Rattle.std.specs.String.{string_bytes};
ghost use Rattle.telling.specs.Refusals.{refusal_line, pointed, place_seen};

use cert_check::error::Pointer;
use std::alloc::{AllocError, Global};

/// The number of want of memory.
const MEMORY: u8 = 90;

/// The number of a refusal, and where it points.
#[derive(Clone, Copy)]
pub struct Refusal {
    pub number: u8,
    pub place: Option<Pointer>,
}

/// The line of a refusal that points somewhere.
fn line_at(alloc: Global, number: u8, place: Pointer) -> Result<String, AllocError>
    ensures { IfOk result (λ line. string_bytes line ≡ refusal_line number (pointed place)) }
{
    match place {
        Pointer::Number(place) => format!(in alloc; "refused {number} {place}\n"),
        Pointer::At { line, column } => format!(in alloc; "refused {number} {line}:{column}\n"),
    }
}

impl Refusal {
    /// The line that is printed of the refusal.
    pub fn line(self, alloc: Global) -> Result<String, AllocError>
        ensures { IfOk result (λ line. string_bytes line ≡ refusal_line self.number (place_seen self.place)) }
    {
        let number = self.number;
        match self.place {
            Some(place) => line_at(alloc, number, place),
            None => format!(in alloc; "refused {number}\n"),
        }
    }

    /// The line that tells it; none where it is want of memory, or where there is no memory for the line.
    pub fn told(self, alloc: Global) -> Option<String>
        ensures { IfSome result (λ line. string_bytes line ≡ refusal_line self.number (place_seen self.place)) }
    {
        if self.number == MEMORY {
            return None;
        }
        self.line(alloc).ok()
    }
}
