//! Section: Kernel text. Promises the trees of kernels, and how they are seen as the definitions'; stands on `texts`.
//!
//! The tree of a kernel text, for the whole language, with the place of each name, operator, cast and statement. A tree is no
//! promise that a text has it, nor that it is well typed: the parser and the typing rules say so. Each type has its view into the
//! definitions' trees, in `specs/View.antt`.
#![tactic(auto)]

pub mod tree;
