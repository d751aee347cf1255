//! Section: Program. Promises of a host's numbers whether the launch that they are meets the conditions of a kernel, and why not; stands on
//! `launch`.
//!
//! Launches, by the numbers that a host program hands to OpenCL: its sizes, and its arguments by the parameters of the kernel's text. A
//! buffer is known by its bytes alone, so what is said is said of each launch whose buffers are that long.
#![tactic(auto)]

mod asking;
mod fitting;
mod given;
mod kinds;
mod numbers;
mod shapes;
mod sizes;

pub use asking::{Asked, allows, launch_asked, met};
pub use given::{Argument, Range, Refusal, Three};
pub use shapes::{Element, Scalar, Shape};
