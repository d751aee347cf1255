//! Section: Kernel text. Promises exactly the canonical text of a typed kernel, and that a kernel which was read is read back of it; stands
//! on `types` and `reading`.
//!
//! The canonical text of kernels: one spelling for each tree, positions aside. `laws`: such a text says its kernel, positions aside, and no
//! other one; and what is read of it means the same.
#![tactic(auto)]

mod expression;
mod kernel;
pub mod laws;
mod sign;
mod statement;

pub use kernel::print;
