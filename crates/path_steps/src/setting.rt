//! What a walk is of.

use core_code::tree::LocalArray;
use facts::{BufferBound, Known};
use std::alloc::Global;
use words::Kind;

/// The setting of a walk: where its memory comes from, whether it is the wide walk and joins ways, what the domain knows, the local sizes,
/// the kinds of the buffers, the local arrays, what lines of the conditions say that buffers hold, and, by its number, whether an
/// obligation has an entry.
#[derive(Drop)]
pub struct Setting<D> {
    pub alloc: Global,
    pub is_wide: bool,
    pub joins: bool,
    pub known: Known<D>,
    pub sizes: [u32; 3],
    pub buffers: Vec<Kind>,
    pub arrays: Vec<LocalArray>,
    pub contents: Vec<BufferBound>,
    pub entries: Vec<bool>,
}
