//! Section: Kernel text. Promises exactly the terms of the core that are asked for; stands on `core_code`.
//!
//! Terms of the core, put together of their parts, and copied. Each function gives exactly the term that its clause names,
//! unless memory was refused.
#![tactic(auto)]

pub mod copies;
pub mod pieces;
