//! Barrier divergence.

ghost use Rattle.std.specs.Prelude.{◌≡◌, ◌<◌, ◌≤◌, ◌+◌, ◌*◌, ℕ, true, false, length, MatchOption};
ghost use Rattle.semantics.specs.Setup as setups;
ghost use Rattle.semantics.specs.Item as items;
ghost use Rattle.semantics.specs.World as meaning;
ghost use Rattle.work_item.specs.Items.{status as status_seen};
ghost use Rattle.machine.specs.Worlds.{setup, world, items_of, is_apart, IsSound};
ghost use Rattle.machine.specs.Divergences.{IsAmong, AreTogether, AreFirst, IsUndivided, IsFirst};

use crate::release::waits;
use crate::world::World;
use work_item::identity::{group_size, product_of};
use work_item::item::Status;
use work_item::trail::same_left;

fn has_ended(status: Status) -> bool
    ensures { result ≡ items.has_ended (status_seen status) }
{
    matches!(status, Status::Ended)
}

impl World<'_> {
    // Whether an item waits where another of its group has ended, or waits elsewhere.
    fn is_apart(&self, one: usize, other: usize) -> bool
        requires one { one < length self.now.items.items }
        requires other { other < length self.now.items.items }
        ensures { result ≡ is_apart (items_of self.now) one other }
    {
        let item = &self.items[one];
        let beside = &self.items[other];
        waits(item.status)
            && (has_ended(beside.status)
                || (waits(beside.status) && !same_left(&item.left, &beside.left)))
    }

    // Whether an item waits.
    fn is_waiting(&self, number: usize) -> bool
        requires { number < length self.now.items.items }
        ensures { result ≡ meaning.waits (items_of self.now number).status }
    {
        waits(self.items[number].status)
    }

    // The first of so many items that waits.
    fn first_waiting(&self, first: usize, count: usize) -> Option<usize>
        requires { first + count ≤ length self.now.items.items }
        ensures { MatchOption result ((k : ℕ) → k < count → meaning.waits (items_of self.now (first + k)).status ≡ false) (λ i. IsAmong first count i × (meaning.waits (items_of self.now i).status ≡ true) × ((k : ℕ) → first + k < i → meaning.waits (items_of self.now (first + k)).status ≡ false)) }
    {
        for k in 0..count {
            if self.is_waiting(first + k) {
                return Some(first + k);
            }
        }
        None
    }

    // The first of so many items that an item misses.
    fn first_missed(&self, one: usize, first: usize, count: usize) -> Option<usize>
        requires one { one < length self.now.items.items }
        requires within { first + count ≤ length self.now.items.items }
        ensures { MatchOption result ((k : ℕ) → k < count → is_apart (items_of self.now) one (first + k) ≡ false) (λ j. IsAmong first count j × (is_apart (items_of self.now) one j ≡ true) × ((k : ℕ) → first + k < j → is_apart (items_of self.now) one (first + k) ≡ false)) }
    {
        for k in 0..count {
            if self.is_apart(one, first + k) {
                return Some(first + k);
            }
        }
        None
    }

    // The first divergence among the items of a group.
    fn apart_in(&self, first: usize, count: usize) -> Option<(u64, u64)>
        requires { first + count ≤ length self.now.items.items }
        ensures { MatchOption result (AreTogether (items_of self.now) first count) (λ p. AreFirst (items_of self.now) first count p.0 p.1) }
    {
        match self.first_waiting(first, count) {
            Some(one) => self.apart_from(one, first, count),
            None => None,
        }
    }

    // The first one of which that item is apart, the first that waits.
    fn apart_from(&self, one: usize, first: usize, count: usize) -> Option<(u64, u64)>
        requires within { first + count ≤ length self.now.items.items }
        requires one { IsAmong first count one }
        requires waits { meaning.waits (items_of self.now one).status ≡ true }
        requires lowest { (k : ℕ) → first + k < one → meaning.waits (items_of self.now (first + k)).status ≡ false }
        ensures { MatchOption result (AreTogether (items_of self.now) first count) (λ p. AreFirst (items_of self.now) first count p.0 p.1) }
    {
        match self.first_missed(one, first, count) {
            Some(other) => Some((one as u64, other as u64)),
            None => None,
        }
    }

    /// The first barrier divergence: the lowest waiting item of which another of its group has ended, or waits with another list left;
    /// and the lowest such other.
    pub fn divergence(&self) -> Option<(u64, u64)>
        requires { IsSound self.now }
        ensures { MatchOption result (IsUndivided (setup self.now) (world self.now)) (λ p. IsFirst (setup self.now) (world self.now) p.0 p.1) }
    {
        let count = group_size(self.core) as usize;
        for group in 0..product_of(self.launch.groups) {
            if let Some(found) = self.apart_in(self.first_of(group), count) {
                return Some(found);
            }
        }
        None
    }
}
