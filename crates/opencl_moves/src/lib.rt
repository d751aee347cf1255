//! Section: OpenCL text. Promises which variables of OpenCL C are assigned to as a whole; stands on `opencl_tree`.
//!
//! All is said by names alone, and without types. Each function gives exactly what its definition says.
#![tactic(auto)]

pub mod moves;
