//! What a lane's work-item stored in a round.

ghost use Rattle.std.specs.Prelude.{◌≡◌, ◌++◌, ◌∷◌, [], None, nat_eq, drop, map, true, OnOk, MatchOption};
ghost use Rattle.std.specs.Option.{option_map};
ghost use Rattle.semantics.specs.Memory as memories;
ghost use Rattle.semantics.specs.Rounds.{log_of};
ghost use Rattle.words.specs.View.{value_of};
ghost use Rattle.work_item.specs.Asks.{cell as cell_seen, owner as owner_seen};
ghost use Rattle.lane_groups.specs.Overlays.{kept};
ghost use Rattle.lane_groups.specs.Stores.{store as store_seen, is_new, are_distinct, IsPlace, LeaveSame};

use crate::overlay::Overlay;
use std::alloc::{AllocError, Global};
use words::Word;
use work_item::ask::{Cell, Owner};

/// A store: an element, and the word that was put into it.
#[derive(Clone, Copy)]
pub struct Store {
    pub at: Cell,
    pub word: Word,
}

/// Of each element that an item stored to, the last store, in some order. The first few are looked through; a map tells where those past
/// them may stand.
#[derive(Drop)]
pub struct Own {
    pub stores: Vec<Store>,
    places: Overlay,
    is_found: bool,
    ghost distinct: { are_distinct (map store_seen stores.items) ≡ true },
    ghost found: { is_found ≡ true → (c : memories.Cell) → kept places c ≡ None → is_new (map store_seen (drop 16 stores.items)) c ≡ true },
}

/// Two owners of arrays are the same: the launch, or one group.
pub fn same_owner(a: Owner, b: Owner) -> bool
    ensures { result ≡ nat_eq (owner_seen a) (owner_seen b) }
{
    match (a, b) {
        (Owner::Launch, Owner::Launch) => true,
        (Owner::Group(a), Owner::Group(b)) => a == b,
        _ => false,
    }
}

/// Two cells are the same element of one array of one owner.
pub fn same_cell(a: Cell, b: Cell) -> bool
    ensures { result ≡ memories.same_cell (cell_seen a) (cell_seen b) }
{
    same_owner(a.owner, b.owner) && a.array == b.array && a.index == b.index
}

/// The place of a store to an element.
fn place_among(stores: &[Store], at: Cell) -> Option<usize>
    ensures { MatchOption result (is_new (map store_seen stores.now) (cell_seen at) ≡ true) (λ p. IsPlace (map store_seen stores.now) p (cell_seen at)) }
{
    for place in 0..stores.len() {
        if same_cell(at, stores[place].at) {
            return Some(place);
        }
    }
    None
}

impl Own {
    /// The stores of an item that has stored nothing.
    pub fn new(alloc: Global) -> Own
        ensures { result.stores.items ≡ [] }
    {
        Own {
            stores: Vec::new(alloc),
            places: Overlay::new(alloc),
            is_found: true,
        }
    }

    // Whether a store to this element stands at a place.
    fn is_at(&self, place: usize, at: Cell) -> bool
        ensures { result ≡ true → IsPlace (map store_seen self.now.stores.items) place (cell_seen at) }
    {
        match self.stores.get(place) {
            Some(store) => same_cell(at, store.at),
            None => false,
        }
    }

    // The place of the store to an element, of those past the first few.
    fn later_place(&self, at: Cell) -> Option<usize>
        requires { self.now.is_found ≡ true }
        ensures { MatchOption result (is_new (map store_seen (drop 16 self.now.stores.items)) (cell_seen at) ≡ true) (λ p. IsPlace (map store_seen self.now.stores.items) p (cell_seen at)) }
    {
        let Some(word) = self.places.word(at) else {
            return None;
        };
        let place = word.bits() as usize;
        if self.is_at(place, at) {
            return Some(place);
        }
        place_among(self.stores.as_slice(), at)
    }

    // The place of the store to an element.
    fn place_of(&self, at: Cell) -> Option<usize>
        ensures { MatchOption result (is_new (map store_seen self.now.stores.items) (cell_seen at) ≡ true) (λ p. IsPlace (map store_seen self.now.stores.items) p (cell_seen at)) }
    {
        if !self.is_found || self.stores.len() <= 16 {
            return place_among(self.stores.as_slice(), at);
        }
        match place_among(&self.stores.as_slice()[..16], at) {
            Some(place) => Some(place),
            None => self.later_place(at),
        }
    }

    // Adds a store to an element that is new.
    fn add(&mut self, store: Store) -> Result<(), AllocError>
        requires { is_new (map store_seen self.old.stores.items) (cell_seen store.at) ≡ true }
        ensures { OnOk result (map store_seen self.new.stores.items ≡ map store_seen self.old.stores.items ++ store_seen store ∷ []) }
    {
        if self.is_found && self.stores.len() >= 16 {
            let place = u32::try_from(self.stores.len()).unwrap_or(0);
            self.is_found = false;
            self.places.note(store.at, Word::Uint(place))?;
            self.stores.push(store)?;
            self.is_found = true;
            return Ok(());
        }
        self.stores.push(store)?;
        Ok(())
    }

    /// Keeps a store, in the place of an earlier one to its element.
    pub fn push(&mut self, store: Store) -> Result<(), AllocError>
        ensures { OnOk result (LeaveSame (map store_seen self.new.stores.items) (map store_seen self.old.stores.items ++ store_seen store ∷ [])) }
    {
        match self.place_of(store.at) {
            Some(place) => {
                self.stores[place] = store;
                Ok(())
            }
            None => self.add(store),
        }
    }

    /// Forgets all stores of the item.
    pub fn clear(&mut self, alloc: Global)
        ensures { self.new.stores.items ≡ [] }
    {
        if self.stores.len() > 16 {
            *self = Own::new(alloc);
        } else {
            self.stores.clear();
        }
    }

    /// The word that was stored to an element last.
    pub fn last(&self, at: Cell) -> Option<Word>
        ensures { option_map value_of result ≡ log_of (map store_seen self.now.stores.items) (cell_seen at) None }
    {
        match self.place_of(at) {
            Some(place) => Some(self.stores[place].word),
            None => None,
        }
    }
}
