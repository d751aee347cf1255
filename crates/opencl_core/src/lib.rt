//! Section: OpenCL text. Promises exactly the core and the map of names that a kernel of OpenCL C stands for, or its first broken rule;
//! stands on `opencl_files`, `opencl_values` and `kernel_names`.
//!
//! Statements are written out one behind the other into a room, which knows what names mean, what was declared, and the number of the next
//! core statement.
#![tactic(auto)]

pub mod assigning;
mod built_ins;
pub mod calling;
mod choosing;
pub mod components;
pub mod constants;
pub mod declaring;
pub mod drawing;
pub mod flags;
pub mod heads;
pub mod helpers;
pub mod kernels;
pub mod locals;
pub mod moving;
mod names;
mod outsides;
pub mod owning;
pub mod parts;
mod places;
pub mod pointing;
pub mod rooms;
mod sites;
mod steady;
pub mod tails;
pub mod templates;
pub mod vector_stores;
pub mod writing;
