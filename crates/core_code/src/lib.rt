//! Section: Kernel text. Promises the code's elaborated kernel with its view; stands on `words`.
//!
//! The elaborated kernel of the code, with its view into the definitions' core: each declaration has a slot, conversions to a declared
//! type are written out, and each statement keeps its number in the source. A core is no promise that a text has it: the typing rules
//! say so.
#![tactic(auto)]

pub mod tree;
