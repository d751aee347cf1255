//! Section: OpenCL text. Promises which expressions of OpenCL C store, and between which C leaves the order open; stands on `opencl_tree`.
//!
//! All is said by names alone, and without types. Each function gives exactly what its definition says.
#![tactic(auto)]

pub mod effects;
pub mod marks;
