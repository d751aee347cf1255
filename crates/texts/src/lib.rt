//! Section: Kernel text. Promises the definitions of all texts, with laws of them; stands on `semantics`.
//!
//! The grammars of texts and the typing of kernels: definitions alone, in `specs/`, and laws of them, each the contract of a function
//! with an empty body.
#![tactic(auto)]

pub mod laws;
pub mod printing;
