//! Section: OpenCL text. Promises exactly the kernel that the definitions choose and read of a file's lexemes, or their first fault; stands
//! on `opencl_parser`.
//!
//! One kernel of a file of OpenCL C. The file is cut into its external declarations by counting brackets; of those that have a kernel with
//! a body one is chosen, by its name or as the only one; names of types and enumerations that stand before it are read as far as they can
//! be; then the kernel is read, its header and its body, at whose begin those constants of the file are declared that it names. All else in
//! the file is passed over. The work of cutting grows no faster than the file, though no contract says so.
#![tactic(auto)]

pub mod attributes;
pub mod chunks;
mod constants;
pub mod errors;
pub mod files;
pub mod fronts;
pub mod functions;
pub mod headers;
pub mod parameters;
pub mod tree;
