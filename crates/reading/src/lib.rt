//! Section: Kernel text. Promises exactly the tree and the core of bytes, by the grammar; stands on `lexer`, `parser` and `types`.
//!
//! The bytes of a kernel's text to its tree and its core, through the lexer, the parser and the typing.
#![tactic(auto)]

ghost use Rattle.std.specs.Prelude.{◌≡◌};
ghost use Rattle.types.specs.Scope.{Bits32};
ghost use Rattle.reading.specs.Kernels.{read, text_for};
ghost use Rattle.reading.specs.Answers.{Gives};
ghost use Rattle.reading.specs.Sources.{source};

use lexer::{TextError, lex};
use parser::error::ParseError;
use parser::parse;
use std::alloc::Global;
use thiserror::Error;
use types::check::check_types;
use types::devices::Devices;
use types::error::TypeError;
use types::typed::TypedTree;

pub mod laws;

/// The reasons for which a text is no kernel: the first fault of the first part that refuses it, or want of memory.
#[derive(Debug, Drop, Error)]
pub enum KernelError {
    #[error("{0}")]
    Text(TextError),
    #[error("{0}")]
    Tree(ParseError),
    #[error("{0}")]
    Types(TypeError),
}

impl KernelError {
    ghost use Rattle.reading.specs.Answers.{error_number, error_place};

    /// The number under which the error is printed.
    pub fn number(&self) -> u8
        ensures { result ≡ error_number self.now }
    {
        match self {
            KernelError::Text(error) => error.number(),
            KernelError::Tree(error) => error.number(),
            KernelError::Types(error) => error.number(),
        }
    }

    /// The line and the column of the fault.
    pub fn place(&self) -> Option<(u32, u32)>
        ensures { result ≡ error_place self.now }
    {
        match self {
            KernelError::Text(error) => error.place(),
            KernelError::Tree(error) => error.place(),
            KernelError::Types(error) => error.place(),
        }
    }
}

/// The bytes of a kernel's text, and the devices that it is read for.
#[derive(Clone, Copy)]
pub struct Source<'a> {
    pub devices: Devices,
    pub bytes: &'a [u8],
}

/// A text that is read for the devices with 32 address bits, where ids are `uint`.
pub fn narrow(bytes: &[u8]) -> Source<'_>
    ensures { source result ≡ text_for Bits32 bytes.now }
{
    Source {
        devices: Devices::Bits32,
        bytes,
    }
}

/// The kernel of a text, typed, or its first fault with its place (numbers 1 to 5, 10 to 12, 20 to 28).
#[tactic(auto, using(crate::proofs::Lexemes::lexemes_seen), unfolding(crate::specs::Kernels::read))]
pub fn read_source(alloc: Global, text: Source<'_>) -> Result<TypedTree, KernelError>
    ensures { Gives result (read (source text.entry)) }
{
    let tokens = match lex(alloc, text.bytes) {
        Ok(tokens) => tokens,
        Err(error) => return Err(KernelError::Text(error)),
    };
    let tree = match parse(alloc, tokens.as_slice()) {
        Ok(tree) => tree,
        Err(error) => return Err(KernelError::Tree(error)),
    };
    match check_types(alloc, text.devices, tree) {
        Ok(typed) => Ok(typed),
        Err(error) => Err(KernelError::Types(error)),
    }
}

/// The kernel of a text that is read for the devices with 32 address bits.
pub fn read_kernel(alloc: Global, bytes: &[u8]) -> Result<TypedTree, KernelError>
    ensures { Gives result (read (text_for Bits32 bytes.now)) }
{
    read_source(alloc, narrow(bytes))
}
