//! Section: Kernel text. Promises no more than that it ends: a text of a core, for the eye; stands on `kernel_names`.
//!
//! The text of a core, in the spelling of the plain language as far as that has what the core has, with the names that the kernel's map has.
//! No two variables or arrays have one name in it. It is made to be looked at, and nothing reads it.
#![tactic(auto)]

mod distances;
mod heads;
mod naming;
mod signs;
mod statements;
mod terms;

use crate::heads::push_kernel;
use crate::naming::shown_names;
use core_code::tree::Core;
use kernel_names::NameMap;
use std::alloc::{AllocError, Global};

/// The text of a core with its map of names. The error is want of memory.
pub fn core_text(alloc: Global, names: &NameMap, core: &Core) -> Result<String, AllocError> {
    let shown = shown_names(alloc, names, core)?;
    let mut out = String::new(alloc);
    push_kernel(alloc, &mut out, &shown, names, core)?;
    Ok(out)
}
