//! Section: OpenCL text. Promises exactly the lexemes of a text of OpenCL C, or its first fault; stands on `texts`.
//!
//! Text of OpenCL C to lexemes, in three steps (C99 5.1.1.2 and 6.4, OpenCL 1.2, 6.1). `join` joins lines, `tokens` cuts joined lines into
//! tokens as a preprocessor has them, and `lexemes` makes of each token what a grammar reads. Each answers exactly what its definition
//! says, or that definition's first fault and where it begins. `lexemes` takes any tokens, so a preprocessor may stand before it. Tokens
//! and lexemes copy none of the text. No contract says that the work grows no faster than the text, though it does, or that there is
//! memory enough: where an allocation is refused the answer is `Memory`.
#![tactic(auto)]

ghost use Rattle.std.specs.Prelude.{◌≡◌};

mod characters;
mod joining;
mod lexing;
mod numbers;
mod pieces;
mod reals;
mod scanning;
mod spelling;
mod vocabulary;

pub use joining::{Joined, LIMIT, join};
pub use lexing::lexemes;
pub use scanning::tokens;
pub use spelling::Sign;
use std::alloc::{AllocError, AllocFailed};
use thiserror::Error;
pub use vocabulary::{Scalar, Word};

/// A place in a file; line and column are counted from 1, columns in bytes.
#[derive(Clone, Copy, Debug)]
pub struct Site {
    pub line: u32,
    pub column: u32,
}

/// The place at which a text begins.
const FIRST_SITE: Site = Site { line: 1, column: 1 };

/// The kind of a token; what is spelt lends its text.
#[derive(Clone, Copy, Debug)]
pub enum TokenKind<'a> {
    Name(&'a str),
    Number(&'a [u8]),
    /// A character constant with its quotes.
    Character(&'a [u8]),
    /// A string with its quotes.
    Text(&'a [u8]),
    Mark(Sign),
    /// A byte of no token; it is a fault only where it is not passed over later.
    Other(u8),
    End,
}

/// A token, where it begins, and what stands before it.
#[derive(Clone, Copy, Debug)]
pub struct Token<'a> {
    pub kind: TokenKind<'a>,
    pub site: Site,
    pub begins_line: bool,
    pub is_spaced: bool,
}

/// An integer constant: 32 bits that its kind reads. An `int` of 2^31 and more stands for a character constant below 0.
#[derive(Clone, Copy, Debug)]
pub enum Literal {
    Int(u32),
    Uint(u32),
}

/// The kind of a lexeme; names and spellings are lent.
#[derive(Clone, Copy, Debug)]
pub enum LexemeKind<'a> {
    Word(Word),
    /// A type that one word names, with its width, which is 1 for a scalar.
    Type(Scalar, u8),
    Name(&'a str),
    Integer(Literal),
    /// A floating constant as it is spelt, with its suffix.
    Real(&'a [u8]),
    /// A string with its quotes.
    Text(&'a [u8]),
    Mark(Sign),
    End,
}

/// A lexeme, and where it begins.
#[derive(Clone, Copy, Debug)]
pub struct Lexeme<'a> {
    pub kind: LexemeKind<'a>,
    pub site: Site,
}

/// The faults for which a text has no tokens or lexemes.
#[derive(Clone, Copy, Debug)]
pub enum TextFault {
    BadByte,
    OpenComment,
    NumberTooLarge,
    BadNumber,
    TextTooLong,
    Preprocessor,
    /// A type of 64 bits, or `half`: it is left out.
    LeftOut(Word),
}

/// The first fault of a text and where it begins, or want of memory.
#[derive(Debug, Drop, Error)]
pub enum TokenError {
    #[error("{} {}:{}", .fault.number(), .site.line, .site.column)]
    At { fault: TextFault, site: Site },
    #[error("90")]
    Memory,
}

impl TextFault {
    ghost use Rattle.opencl_tokens.specs.Faults.{fault_number};
    ghost use Rattle.opencl_tokens.specs.Seen.{fault};

    /// The number under which the fault is printed.
    pub fn number(self) -> u8
        ensures { result ≡ fault_number (fault self) }
    {
        match self {
            TextFault::BadByte => 1,
            TextFault::OpenComment => 2,
            TextFault::NumberTooLarge => 3,
            TextFault::BadNumber => 4,
            TextFault::TextTooLong => 5,
            TextFault::Preprocessor => 13,
            TextFault::LeftOut(_) => 15,
        }
    }
}

impl TokenError {
    ghost use Rattle.opencl_tokens.specs.Seen.{error_number};

    /// The number under which the error is printed.
    pub fn number(&self) -> u8
        ensures { result ≡ error_number self.now }
    {
        match self {
            TokenError::At { fault, .. } => fault.number(),
            TokenError::Memory => 90,
        }
    }
}

impl From<AllocError> for TokenError {
    ghost use Rattle.opencl_tokens.specs.declared.TokenError.TheVariants.{Memory};

    ghost from_gives = { λ _ e. e ≡ Memory };

    fn from(_: AllocError) -> TokenError {
        TokenError::Memory
    }
}

impl<T: Drop> From<AllocFailed<T>> for TokenError {
    ghost use Rattle.opencl_tokens.specs.declared.TokenError.TheVariants.{Memory};

    ghost from_gives = { λ _ e. e ≡ Memory };

    fn from(_: AllocFailed<T>) -> TokenError {
        TokenError::Memory
    }
}
