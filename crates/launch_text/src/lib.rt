//! Section: Launch. Promises exactly the conditions, or the launch, that a text says of a kernel, case by case, both ways, and exactly the
//! text of buffers; stands on `typed_kernels`, `launch` and `lines`.
//!
//! The texts that say launch conditions and launches, read for a kernel from the left: first words, names, numbers and sums, then lines. A
//! reading gives exactly what the text says, or its first fault with its line; what is read fits the kernel. `laws`: what is read is what
//! the text says, what it says is read, and so it says one thing; a launch is read back of its text, and the launch at the least values is
//! one of the kernel.
#![tactic(auto)]

mod conditions;
mod contents;
pub mod cursor;
mod define;
pub mod error;
pub mod given;
pub mod groups;
pub mod head;
pub mod keyword;
mod launches;
pub mod laws;
pub mod name;
pub mod number;
mod reader;
pub mod sum;
mod writer;

pub use reader::{read_conditions, read_conditions_as, read_launch};
pub use writer::write_buffers;
