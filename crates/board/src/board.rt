//! The board, which threads share by reference.

ghost use Rattle.std.specs.Prelude.{◌≡◌, ◌≤◌, length};

use crate::{Kept, View};
use atomic_table::Table;
use std::alloc::Global;
use supports::Supports;

/// The state of a search for the greatest standing set: which candidates of a table of supports are left.
#[derive(Drop)]
pub struct Board {
    pub(crate) supports: Supports,
    pub(crate) table: Table<(), View, Supports, Kept, Global>,
    ghost same: { table.shared.key ≡ supports },
    ghost few: { length supports ≤ 512 },
    ghost eight: { table.shared.table_id.words ≡ 8 },
    ghost bare: { table.shared.table_id.slots ≡ 0 },
}
