//! Section: OpenCL text. Promises the trees of files of OpenCL C, and how they are seen as the definitions'; stands on `opencl_tokens` and
//! `syntax`.
//!
//! Types as they are written, expressions and statements, with the place of each name, operator, cast and statement. A tree is no promise
//! that a text has it, nor that it is well typed. Each type has its view into the definitions' trees, in `specs/View.antt`.
#![tactic(auto)]

pub mod tree;
pub mod types;
