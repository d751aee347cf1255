//! Section: OpenCL text. Promises exactly the terms of the core that conversions of OpenCL C make; stands on `core_code`.
//!
//! Scalars of OpenCL C as terms of the core: `bool`, `char`, `short` and their like are `int` terms within their range, a `float` is the
//! `uint` of its bits, and what is done to a float is an operation that is not reckoned. A conversion gives exactly the term of the
//! definitions, unless memory was refused. That a term has the type that it is said to have is the caller's to know.
#![tactic(auto)]

pub mod components;
pub mod conversions;
pub mod laws;
pub mod narrowing;
pub mod operations;
pub mod operators;
mod pieces;
pub mod scalars;
