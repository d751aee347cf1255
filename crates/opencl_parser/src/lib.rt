//! Section: OpenCL text. Promises exactly the trees that the readers have of lexemes, or their first fault; stands on `opencl_tokens` and
//! `opencl_tree`.
//!
//! Lexemes to trees. `specs/` has the readers, small programs of one meaning: what stands at the front of lexemes, expressions, statements.
//! Operators, brackets and blocks stand at most 64 deep within one another. `expression_of` and `block_of` read a whole; their answer is
//! the tree that the readers have, or the fault that they name at its place. The definition is the reader: no relation stands beside it.
#![tactic(auto)]

pub mod aliases;
pub mod declarations;
pub mod expressions;
pub mod front;
pub(crate) mod nodes;
pub mod parts;
pub mod signs;
pub mod statements;
pub mod stops;
pub mod type_names;
pub mod type_words;
mod whole;

pub use whole::{block_of, expression_of};
