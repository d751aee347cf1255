//! Section: Gate. Promises the definitions of certificates and of their texts, with laws of them; stands on `lines` and `linear`.
//!
//! What a certificate says, as a tree, and its one text: definitions alone, in `specs/`, and laws of them, each the contract of a function
//! with an empty body.
#![tactic(auto)]

pub mod laws;
