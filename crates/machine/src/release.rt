//! The release of a group that waits at a barrier.

ghost use Rattle.std.specs.Prelude.{◌≡◌, ◌<◌, ◌≤◌, ◌+◌, ◌*◌, ℕ, true, cond, length, IfOk, OnErr};
ghost use Rattle.semantics.specs.Setup as setups;
ghost use Rattle.semantics.specs.Item as items;
ghost use Rattle.semantics.specs.World as meaning;
ghost use Rattle.work_item.specs.Items.{status as status_seen, HasEpochs};
ghost use Rattle.machine.specs.Worlds.{setup, world, items_in, items_of, is_alike, past_barrier, is_among, IsSound, Answers};

use crate::world::{Applied, World};
use std::alloc::AllocError;
use work_item::identity::{group_size, product_of};
use work_item::item::{Item, Status};
use work_item::trail::same_left;

/// The item waits at a barrier.
pub fn waits(status: Status) -> bool
    ensures { result ≡ meaning.waits (status_seen status) }
{
    matches!(status, Status::Waiting)
}

/// Lets so many items, from the first one on, go past their barriers.
fn pass_all(all: &mut Vec<Item>, first: usize, count: usize)
    requires within { first + count ≤ length all.old.items }
    requires epochs { (past : ℕ → items.Item) (i : ℕ) → first ≤ i → i < first + count → HasEpochs (items_in all.old.items past i) }
    ensures passed { (past : ℕ → items.Item) (i : ℕ) → items_in all.new.items past i ≡ cond (is_among first count i) (past_barrier (items_in all.old.items past i)) (items_in all.old.items past i) }
    ensures count { length all.new.items ≡ length all.old.items }
{
    for passed in 0..count {
        all[first + passed].pass();
    }
}

impl World<'_> {
    /// The first item of a group.
    pub fn first_of(&self, group: u64) -> usize
        requires sound { IsSound self.now }
        requires group { group < setups.group_count (setup self.now) }
        ensures value { result ≡ group * setups.group_size (setup self.now) }
        ensures within { result + setups.group_size (setup self.now) ≤ length self.now.items.items }
    {
        (group * group_size(self.core)) as usize
    }

    // Whether an item waits, with what is left of another.
    fn is_alike(&self, one: usize, other: usize) -> bool
        requires one { one < length self.now.items.items }
        requires other { other < length self.now.items.items }
        ensures { result ≡ is_alike (items_of self.now) one other }
    {
        let item = &self.items[one];
        waits(item.status) && same_left(&item.left, &self.items[other].left)
    }

    // Whether all items of a group wait alike.
    fn may_go(&self, group: u64) -> bool
        requires sound { IsSound self.now }
        requires group { group < setups.group_count (setup self.now) }
        ensures { result ≡ meaning.may_go (setup self.now) (items_of self.now) group }
    {
        let first = self.first_of(group);
        for k in 0..group_size(self.core) as usize {
            if !self.is_alike(first + k, first) {
                return false;
            }
        }
        true
    }

    // Whether the epochs of so many items have room for one more.
    fn have_epochs(&self, first: usize, count: usize) -> bool
        requires { first + count ≤ length self.now.items.items }
        ensures { result ≡ true → (past : ℕ → items.Item) (i : ℕ) → first ≤ i → i < first + count → HasEpochs (items_in self.now.items.items past i) }
    {
        for k in 0..count {
            if !self.items[first + k].can_pass() {
                return false;
            }
        }
        true
    }

    /// The release of a group.
    pub fn release(&mut self, group: u64) -> Result<Applied, AllocError>
        requires sound { IsSound self.old }
        ensures answer { IfOk result (λ a. Answers (setup self.old) (meaning.Release group) (world self.old) (world self.new) a) }
        ensures unchanged { OnErr result (world self.new ≡ world self.old) }
        ensures sound { IsSound self.new }
        ensures core { self.new.core.now ≡ self.old.core.now }
        ensures launch { self.new.launch.now ≡ self.old.launch.now }
    {
        if group >= product_of(self.launch.groups) {
            return Ok(Applied::NotPossible);
        }
        if !self.may_go(group) {
            return Ok(Applied::NotPossible);
        }
        let first = self.first_of(group);
        let count = group_size(self.core) as usize;
        if !self.have_epochs(first, count) {
            return Err(AllocError);
        }
        pass_all(&mut self.items, first, count);
        Ok(Applied::Done)
    }
}
