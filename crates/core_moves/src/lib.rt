//! Section: Kernel text. Promises core statements put elsewhere, with other numbers, slots and arrays; stands on `core_pieces`.
//!
//! A text that was written out once, apart from all kernels, is put into a kernel as often as it is called there. Each function gives
//! exactly the statements that its clause names, unless memory was refused.
#![tactic(auto)]

pub mod moving;
