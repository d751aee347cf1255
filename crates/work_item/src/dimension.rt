//! Where a work-item stands along a dimension.

ghost use Rattle.std.specs.Prelude.{◌≤◌};

/// The place of an item along a dimension: its local id, its group's id, the local size and the group count.
#[derive(Clone, Copy)]
pub struct Dimension {
    pub local: u32,
    pub group: u32,
    pub size: u32,
    pub count: u32,
    pub ghost small_local: { local ≤ 1024 },
    pub ghost small_group: { group ≤ 65536 },
    pub ghost small_size: { size ≤ 1024 },
    pub ghost small_count: { count ≤ 65536 },
}
