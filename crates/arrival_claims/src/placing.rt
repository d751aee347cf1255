//! What the walk of a place is of.

use core_code::tree::Core;
use obligations::Notes;
use path_steps::Setting;

/// The setting of the terms' walk, the kernel, what is said of its places, and the numbers of the place's barrier and loop.
#[derive(Drop)]
pub struct Placing<'a, D> {
    pub setting: &'a Setting<D>,
    pub core: &'a Core,
    pub notes: &'a Notes,
    pub anchor: Option<u32>,
    pub head: Option<u32>,
}
