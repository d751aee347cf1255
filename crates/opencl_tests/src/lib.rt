//! Section: Tests. Promises nothing; it holds tests of crates of another section, and nothing stands on it.
//!
//! The tests of `opencl_tokens`, `opencl_parser`, `opencl_files`, `opencl_terms`, `opencl_values` and `opencl_core`, so that these are not
//! proved twice.
#![tactic(auto)]

#[cfg(test)]
mod core_shown;
#[cfg(test)]
mod cores;
#[cfg(test)]
mod expressions;
#[cfg(test)]
mod file_shown;
#[cfg(test)]
mod files;
#[cfg(test)]
mod read_shown;
#[cfg(test)]
mod shown;
#[cfg(test)]
mod statement_shown;
#[cfg(test)]
mod term_shown;
#[cfg(test)]
mod tokens;
#[cfg(test)]
mod tree_shown;
#[cfg(test)]
mod tree_signs;
#[cfg(test)]
mod trees;
#[cfg(test)]
mod type_shown;
#[cfg(test)]
mod values;
