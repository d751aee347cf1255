//! Section: OpenCL text. Promises exactly the term of the core that an expression without side effects is, or its first broken rule; stands
//! on `opencl_tree` and `opencl_terms`.
//!
//! What names mean in OpenCL C, and the terms of expressions: names, constants, operators, casts, `sizeof`, elements of arrays, vectors,
//! pointers, also cast to another type, and calls of built-in functions. Effects and integers of 64 bits are left out, each with a name.
//! Where an expression breaks several rules, the first counts, from left to right. No contract says that there is memory enough: where an
//! allocation is refused the answer is `Memory`. A term may have an argument of `clamp`, `abs` and `mul24` several times, since the core
//! has no names.
#![tactic(auto)]

pub mod bits;
pub mod calls;
pub mod choices;
pub mod constants;
pub mod elements;
pub mod error;
pub mod functions;
pub mod members;
pub mod names;
pub mod operations;
pub mod pointers;
pub mod reads;
pub mod saturation;
pub mod scope;
pub mod singles;
pub mod values;
pub mod vector_calls;
pub mod vectors;
pub mod views;
pub mod wholes;
pub mod widened;
