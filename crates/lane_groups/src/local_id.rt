//! Where a work-item stands in its group.

ghost use Rattle.std.specs.Prelude.{◌≤◌};

/// The local id of a work-item: its place in its group along each dimension, at most 1024.
#[derive(Clone, Copy)]
pub struct LocalId {
    pub x: u32,
    pub y: u32,
    pub z: u32,
    pub ghost small_x: { x ≤ 1024 },
    pub ghost small_y: { y ≤ 1024 },
    pub ghost small_z: { z ≤ 1024 },
}
