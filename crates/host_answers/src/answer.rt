//! What a call answers.

ghost use Rattle.std.specs.Prelude.{◌≡◌};
ghost use Rattle.host_answers.specs.Answers.{IsAnswerOf};

use cert_check::error::{CheckError, Pointer};

/// The number of a refusal, 0 where there is none; the line, the obligation or the argument that it points to; a column of the kernel's
/// text, or 0.
#[repr(C)]
#[derive(Clone, Copy, Drop)]
pub struct Answer {
    pub number: u32,
    pub column: u32,
    pub place: u64,
}

/// The answer of an error.
pub fn answer_of(error: &CheckError) -> Answer
    ensures { IsAnswerOf error.now result }
{
    let number = error.number() as u32;
    match error.place() {
        Some(Pointer::At { line, column }) => Answer {
            number,
            column,
            place: line as u64,
        },
        Some(Pointer::Number(place)) => Answer {
            number,
            column: 0,
            place,
        },
        None => Answer {
            number,
            column: 0,
            place: 0,
        },
    }
}
