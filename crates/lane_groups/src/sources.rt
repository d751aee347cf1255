//! Arrays as the lanes of a group see them.

ghost use Rattle.std.specs.Prelude.{◌≡◌};
ghost use Rattle.work_item.specs.Asks.{cell as cell_seen, owner as owner_seen};

use words::Kind;
use work_item::ask::{Cell, Owner};

/// An array: how many elements it has, of which kind, and whose it is.
#[derive(Clone, Copy)]
pub struct Source {
    pub extent: usize,
    pub kind: Kind,
    pub owner: Owner,
    pub number: u32,
}

impl Source {
    /// The cell of the element at an index of the array.
    pub fn cell(self, index: u32) -> Cell
        ensures { cell_seen result ≡ record { owner = owner_seen self.owner; array = self.number; index = index } }
    {
        Cell {
            owner: self.owner,
            array: self.number,
            index,
        }
    }
}
