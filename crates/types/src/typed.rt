//! Well-typed trees.

use syntax::tree::Kernel;
use typed_kernels::Typed;

/// A tree, with its core and its map of names.
#[derive(Drop)]
pub struct TypedTree {
    pub typed: Typed,
    pub tree: Kernel,
}
