//! Section: OpenCL text. Promises what statements of OpenCL C are without a `switch`, without `continue` in a `do`, and functions without a
//! `return` but at their ends; stands on `opencl_tree`.
//!
//! All is said of trees, and without types: what a tree stands for stays the same. Each function gives exactly what its definition says.
#![tactic(auto)]

pub mod exits;
pub mod functions;
pub mod labels;
pub mod leaving;
pub mod made;
pub mod switches;
