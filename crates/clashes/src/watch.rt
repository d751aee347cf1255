//! The first clash of a history, found as its accesses come.

ghost use Rattle.std.specs.Prelude.{◌≡◌, ◌<◌, ◌++◌, ◌∷◌, [], ℕ, List, true, false, cond, map, length, OnOk, IfSome, MatchOption};
ghost use Rattle.semantics.specs.Setup.{Setup, group_size};
ghost use Rattle.semantics.specs.Memory as memory;
ghost use Rattle.semantics.specs.Solo as solo;
ghost use Rattle.work_item.specs.Asks.{cell as cell_seen};
ghost use Rattle.clashes.specs.View.{access as access_seen};
ghost use Rattle.clashes.specs.Elements.{key, seen_of, HasRoom};
ghost use Rattle.clashes.specs.Histories.{HasNoClash, IsFirstClash, IsNext, Watches, clash_at};
ghost use Rattle.clashes.specs.declared.access.Access.{Access};

use crate::access::Access;
use crate::seen::Seen;
use std::alloc::{AllocError, Global};
use std::collections::HashMap;
use work_item::ask::{Cell, Owner};

/// An element: the group that has its array, if it is a local one, the array's number and the index.
type Element = (Option<u64>, u32, u32);

/// The elements' accesses as far as they are known up to the first one that clashes with an earlier one, and the place of that access in
/// the history.
#[derive(Drop)]
pub struct Watch {
    seen: HashMap<Element, Seen>,
    first: Option<usize>,
}

fn element(at: Cell) -> Element
    ensures { result ≡ key (cell_seen at) }
{
    match at.owner {
        Owner::Launch => (None, at.array, at.index),
        Owner::Group(group) => (Some(group), at.array, at.index),
    }
}

/// The first of the accesses before a place that clashes with the one there.
fn earlier(history: &[Access], place: usize, size: u64) -> Option<usize>
    requires place { place < length history.now }
    requires some { 0 < size }
    ensures below { IfSome result (λ i. i < place) }
    ensures first { (s : Setup) (d : Access) → group_size s ≡ size → MatchOption result ((k : ℕ) → k < place → clash_at s history.now d k place ≡ false) (λ i. (clash_at s history.now d i place ≡ true) × ((k : ℕ) → k < i → clash_at s history.now d k place ≡ false)) }
{
    let later = &history[place];
    for k in 0..place {
        if history[k].clashes(later, size) {
            return Some(k);
        }
    }
    None
}

impl Watch {
    /// The watch of a history without accesses.
    pub fn new(alloc: Global) -> Watch
        ensures { (s : Setup) → Watches s [] result }
    {
        Watch {
            seen: HashMap::new(alloc),
            first: None,
        }
    }

    // What is known of an element.
    fn seen_at(&self, at: Cell) -> Seen
        ensures { result ≡ seen_of self.now (cell_seen at) }
    {
        match self.seen.get(&element(at)) {
            Some(seen) => *seen,
            None => Seen::nothing(),
        }
    }

    /// Makes room for an access of an element; what is watched stays.
    pub fn reserve(&mut self, at: Cell) -> Result<(), AllocError>
        ensures seen { (c : memory.Cell) → seen_of self.new c ≡ seen_of self.old c }
        ensures first { self.new.first ≡ self.old.first }
        ensures room { OnOk result (HasRoom self.new (cell_seen at)) }
    {
        let element = element(at);
        if self.seen.get(&element).is_none() {
            self.seen.insert(element, Seen::nothing())?;
        }
        Ok(())
    }

    // What is known of an element from now on.
    fn put(&mut self, at: Cell, seen: Seen)
        requires { HasRoom self.old (cell_seen at) }
        ensures seen { (c : memory.Cell) → seen_of self.new c ≡ cond (memory.same_cell c (cell_seen at)) seen (seen_of self.old c) }
        ensures first { self.new.first ≡ self.old.first }
    {
        let _old = self.seen.insert(element(at), seen);
    }

    /// Notes an access with its place in the history; a group has so many items.
    pub fn note(&mut self, access: Access, place: usize, size: u64)
        requires room { HasRoom self.old (cell_seen access.at) }
        requires some { 0 < size }
        ensures { (s : Setup) (history : List solo.Access) → group_size s ≡ size → length history ≡ place → Watches s history self.old → IsNext s history (access_seen access) → Watches s (history ++ access_seen access ∷ []) self.new }
    {
        if self.first.is_none() {
            let seen = self.seen_at(access.at);
            let mark = access.mark();
            if seen.meets(mark, access.is_store, size) {
                self.first = Some(place);
            } else {
                self.put(access.at, seen.with(mark, access.is_store, size));
            }
        }
    }

    /// The first clash of the history: in time linear in its length.
    pub fn clash(&self, history: &[Access], size: u64) -> Option<(Access, Access)>
        requires { 0 < size }
        ensures { (s : Setup) → group_size s ≡ size → Watches s (map access_seen history.now) self.now → MatchOption result (HasNoClash s (map access_seen history.now)) (λ p. IsFirstClash s (map access_seen history.now) (access_seen p.0) (access_seen p.1)) }
    {
        let place = self.first?;
        if place >= history.len() {
            return None;
        }
        match earlier(history, place, size) {
            Some(before) => Some((history[before], history[place])),
            None => None,
        }
    }
}
