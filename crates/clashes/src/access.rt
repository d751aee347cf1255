//! Accesses of elements.

ghost use Rattle.std.specs.Prelude.{◌≡◌, ◌<◌, nat_eq};
ghost use Rattle.semantics.specs.Setup as setups;
ghost use Rattle.semantics.specs.Memory as memory;
ghost use Rattle.semantics.specs.Tests as tests;
ghost use Rattle.work_item.specs.Asks.{owner as owner_seen, cell as cell_seen};
ghost use Rattle.clashes.specs.View.{access as access_seen};
ghost use Rattle.clashes.specs.Knowledge.{mark};

use crate::mark::Mark;
use core_code::tree::Site;
use work_item::ask::{Cell, Owner};

/// An access of an element, with the item's epoch of the element's space.
#[derive(Clone, Copy)]
pub struct Access {
    pub item: u64,
    pub at: Cell,
    pub is_store: bool,
    pub epoch: u64,
    pub site: Site,
}

fn same_owner(one: Owner, other: Owner) -> bool
    ensures { result ≡ nat_eq (owner_seen one) (owner_seen other) }
{
    match (one, other) {
        (Owner::Launch, Owner::Launch) => true,
        (Owner::Group(group), Owner::Group(beside)) => group == beside,
        _ => false,
    }
}

/// Whether two elements are one.
pub fn same_cell(one: Cell, other: Cell) -> bool
    ensures { result ≡ memory.same_cell (cell_seen one) (cell_seen other) }
{
    same_owner(one.owner, other.owner) && one.array == other.array && one.index == other.index
}

impl Access {
    /// The item that made the access, and in which epoch.
    pub fn mark(&self) -> Mark
        ensures { result ≡ mark (access_seen self.now) }
    {
        Mark {
            item: self.item,
            epoch: self.epoch,
        }
    }

    /// Whether two accesses clash; a group has so many items.
    pub fn clashes(&self, other: &Access, size: u64) -> bool
        requires { 0 < size }
        ensures { (s : setups.Setup) → setups.group_size s ≡ size → result ≡ tests.clashes s (access_seen self.now) (access_seen other.now) }
    {
        self.item != other.item
            && same_cell(self.at, other.at)
            && (self.is_store || other.is_store)
            && (self.item / size != other.item / size || self.epoch == other.epoch)
    }
}
