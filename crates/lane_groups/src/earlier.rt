//! What a work-group stored in earlier rounds.

ghost use Rattle.std.specs.Prelude.{◌≡◌, ◌<◌, ◌≤◌, ◌&&◌, ◌+◌, ℕ, true, Some, None, cond, nat_eq, length, map, slice_index_or, OnOk, IfOk, IfSome};
ghost use Rattle.std.specs.Option.{option_map};
ghost use Rattle.semantics.specs.Memory as memories;
ghost use Rattle.semantics.specs.Rounds.{log_of};
ghost use Rattle.words.specs.View.{value_of};
ghost use Rattle.work_item.specs.Asks.{cell as cell_seen, owner as owner_seen};
ghost use Rattle.lane_groups.specs.Stores.{store as store_seen};
ghost use Rattle.lane_groups.specs.Strips.{one_of};
ghost use Rattle.lane_groups.specs.Earlier.{kept, is_in_rows, in_rows, row_at, stored_in};
ghost use Rattle.write_log.specs.Elements.{read_words};
ghost use Rattle.lane_groups.specs.Runs.{laid};

use crate::overlay::Overlay;
use crate::own::Store;
use core_code::tree::LocalArray;
use std::alloc::{AllocError, Global};
use words::{Kind, Word};
use work_item::ask::{Cell, Owner};

/// The elements that were stored, each with the word that it got last: those of the group's own local arrays in rows as long as the
/// arrays, and all others.
#[derive(Drop)]
pub struct Earlier {
    pub group: u64,
    pub rows: Vec<Vec<Option<Word>>>,
    pub others: Overlay,
}

/// A row for each array; nothing is stored.
fn empty_rows(alloc: Global, arrays: &[LocalArray]) -> Result<Vec<Vec<Option<Word>>>, AllocError>
    ensures { IfOk result (λ v. (array index : ℕ) → stored_in v.items array index ≡ None) }
{
    let mut rows = Vec::new(alloc);
    for array in arrays {
        rows.push(Vec::from_elem(alloc, None, array.length as usize)?)?;
    }
    Ok(rows)
}

/// An element of a row gets a word.
fn put(rows: &mut Vec<Vec<Option<Word>>>, array: u32, index: u32, word: Word)
    requires { index < length (row_at rows.old.items array) }
    ensures { (a k : ℕ) → stored_in rows.new.items a k ≡ cond (nat_eq a array && nat_eq k index) (Some (value_of word)) (stored_in rows.old.items a k) }
{
    if let Some(row) = rows.get_mut(array as usize) {
        if let Some(place) = row.get_mut(index as usize) {
            *place = Some(word);
        }
    }
}

/// Whether an owner is a group.
fn is_group(owner: Owner, group: u64) -> bool
    ensures { result ≡ nat_eq (owner_seen owner) (1 + group) }
{
    match owner {
        Owner::Launch => false,
        Owner::Group(number) => number == group,
    }
}

impl Earlier {
    /// The memory of a group in which nothing is stored yet, with an empty row for each local array.
    pub fn new(alloc: Global, group: u64, arrays: &[LocalArray]) -> Result<Earlier, AllocError>
        ensures { IfOk result (λ e. (c : memories.Cell) → kept e c ≡ None) }
    {
        let rows = empty_rows(alloc, arrays)?;
        Ok(Earlier {
            group,
            rows,
            others: Overlay::new(alloc),
        })
    }

    // Whether an element stands in the rows.
    #[inline(always)]
    fn has(&self, at: Cell) -> bool
        ensures { result ≡ is_in_rows self.now (cell_seen at) }
    {
        if !is_group(at.owner, self.group) {
            return false;
        }
        match self.rows.get(at.array as usize) {
            Some(row) => (at.index as usize) < row.len(),
            None => false,
        }
    }

    // The word that was stored to an element of the rows.
    #[inline(always)]
    fn in_rows(&self, at: Cell) -> Option<Word>
        ensures { option_map value_of result ≡ in_rows self.now (cell_seen at) }
    {
        if !is_group(at.owner, self.group) {
            return None;
        }
        let Some(row) = self.rows.get(at.array as usize) else {
            return None;
        };
        match row.get(at.index as usize) {
            Some(word) => *word,
            None => None,
        }
    }

    /// The word that was stored to an element.
    #[inline(always)]
    pub fn word(&self, at: Cell) -> Option<Word>
        ensures { option_map value_of result ≡ kept self.now (cell_seen at) }
    {
        match self.in_rows(at) {
            Some(word) => Some(word),
            None => self.others.word(at),
        }
    }

    /// The row of an array of this owner, where it is known that nothing was stored to its elements but what the row has.
    pub fn row(&self, owner: Owner, array: u32) -> Option<&[Option<Word>]>
        ensures words { IfSome result (λ row. (index : ℕ) → kept self.now (record { owner = owner_seen owner; array = array; index = index }) ≡ option_map value_of (slice_index_or row.now index None)) }
        ensures group { IfSome result (λ _. owner_seen owner ≡ 1 + self.now.group) }
    {
        if !is_group(owner, self.group) {
            return None;
        }
        if !self.others.locals.is_empty() {
            return None;
        }
        let Some(row) = self.rows.get(array as usize) else {
            return None;
        };
        Some(row.as_slice())
    }

    /// True only if the group has stored nothing to any buffer in earlier rounds; false says nothing.
    pub fn has_no_buffers(&self) -> bool
        ensures { result ≡ true → (array index : ℕ) → kept self.now (record { owner = 0; array = array; index = index }) ≡ None }
    {
        self.others.buffers.is_empty()
    }

    /// Makes room for so many elements more of an owner's arrays.
    pub fn reserve(&mut self, owner: Owner, more: usize) -> Result<(), AllocError>
        ensures { (c : memories.Cell) → kept self.new c ≡ kept self.old c }
    {
        if !is_group(owner, self.group) {
            self.others.buffers.reserve(more)?;
        }
        Ok(())
    }

    /// An element gets a word, in the place of what it had.
    #[inline(always)]
    pub fn note(&mut self, at: Cell, word: Word) -> Result<(), AllocError>
        ensures { OnOk result ((c : memories.Cell) → kept self.new c ≡ cond (memories.same_cell c (cell_seen at)) (Some (value_of word)) (kept self.old c)) }
    {
        if self.has(at) {
            put(&mut self.rows, at.array, at.index, word);
            return Ok(());
        }
        self.others.note(at, word)
    }

    /// Elements of a buffer get words of one kind, by their bits, one after another from an index on; the last index has 32 bits.
    pub fn note_run(
        &mut self,
        buffer: u32,
        first: u32,
        kind: Kind,
        bits: &[u32],
    ) -> Result<(), AllocError>
        requires { first + length bits.now ≤ 4294967296 }
        ensures { OnOk result ((c : memories.Cell) → kept self.new c ≡ laid buffer first (read_words kind bits.now) (length bits.now) c (kept self.old c)) }
    {
        self.others.note_run(buffer, first, kind, bits)
    }

    /// An element gets a word, where there is a store.
    #[inline(always)]
    pub fn note_some(&mut self, store: Option<Store>) -> Result<(), AllocError>
        ensures { OnOk result ((c : memories.Cell) → kept self.new c ≡ log_of (one_of store) c (kept self.old c)) }
    {
        match store {
            Some(store) => self.note(store.at, store.word),
            None => Ok(()),
        }
    }

    /// Elements get words, in the order of the stores.
    pub fn note_all(&mut self, stores: &[Store]) -> Result<(), AllocError>
        ensures { OnOk result ((c : memories.Cell) → kept self.new c ≡ log_of (map store_seen stores.now) c (kept self.old c)) }
    {
        for store in stores {
            self.note(store.at, store.word)?;
        }
        Ok(())
    }
}
