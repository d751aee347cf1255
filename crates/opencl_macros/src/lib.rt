//! Section: OpenCL text. Promises exactly the tokens that come of the tokens of a text, or its first fault; stands on `opencl_tokens`.
//!
//! The preprocessor of OpenCL C (C99 6.10, OpenCL 1.2, 6.10): directives, conditionals and macros, from tokens to tokens.
#![tactic(auto)]

ghost use Rattle.std.specs.Prelude.{◌≡◌};

mod bodies;
mod compilers;
mod conditions;
mod directives;
mod feed;
mod machine;
mod macros;
mod marks;
mod operators;
mod pasting;
mod questions;
mod reading;

pub use compilers::is_compilers;
pub use opencl_tokens::{Site, Token, TokenKind};
pub use reading::preprocessed;
use std::alloc::{AllocError, AllocFailed};
use thiserror::Error;

/// The place of the first fault in the directives and macros of a text, or want of memory.
#[derive(Debug, Drop, Error)]
pub enum MacroError {
    #[error("13 {}:{}", .0.line, .0.column)]
    At(Site),
    #[error("90")]
    Memory,
}

impl From<AllocError> for MacroError {
    ghost use Rattle.opencl_macros.specs.declared.MacroError.TheVariants.{Memory};

    ghost from_gives = { λ _ e. e ≡ Memory };

    fn from(_: AllocError) -> MacroError {
        MacroError::Memory
    }
}

impl<T: Drop> From<AllocFailed<T>> for MacroError {
    ghost use Rattle.opencl_macros.specs.declared.MacroError.TheVariants.{Memory};

    ghost from_gives = { λ _ e. e ≡ Memory };

    fn from(_: AllocFailed<T>) -> MacroError {
        MacroError::Memory
    }
}
