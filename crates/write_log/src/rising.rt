//! Entries whose elements rise, as a list: to add one at the end costs no search.

ghost use Rattle.std.specs.Prelude.{◌≡◌, ◌≤◌, ◌<◌, ◌+◌, ◌-◌, ◌∷◌, ◌++◌, [], ℕ, true, false, OnErr, OnOk, IfOk, IsTrue, length};
ghost use Rattle.std.specs.BTreeMap.{is_at, IsFromIterResult};
ghost use Rattle.std.specs.List.Sorted.{IsStrictlySortedBy};
ghost use Rattle.std.specs.Map.{keys_of, lookup};
ghost use Rattle.std.specs.Ordering.{is_lt};
ghost use Rattle.write_log.specs.Elements.{AreApart, GoesOn, IsLaid, IsLaid-prop, border, by_element, entries_in, entry_at, first_entries, head_of, read_words, run};

use crate::stretch::{Stretch, parts_of, read_word};
use std::alloc::{AllocError, Global};
use std::collections::BTreeMap;
use words::{Kind, Word};

/// Elements with their words. Each element is above the one before it, by buffer and then by index. Elements that stand side by side are a
/// stretch; of their words the bits alone are kept, 4 bytes each.
#[derive(Drop)]
pub struct RisingList {
    pub stretches: Vec<Stretch>,
    pub bits: Vec<u32>,
    pub ghost laid: { IsLaid stretches.items bits.items } by { IsLaid-prop stretches.items bits.items },
}

/// Whether the last stretch goes on with an element at the next place.
fn is_followed(stretches: &[Stretch], at: (u32, u32), places: usize, kind: Kind) -> bool
    requires begins { border stretches.now places 0 ≡ 0 }
    requires apart { AreApart stretches.now places }
    ensures { IsTrue result → GoesOn stretches.now stretches.now places at kind }
{
    match stretches.last() {
        Some(last) => last.is_followed_by(at, places, kind),
        None => false,
    }
}

/// Goes on with an element at the next place, in the last stretch or in a new one. A stretch starts below place 4294967296: where there are
/// more places than that, memory is taken to be wanting.
fn go_on(
    stretches: &mut Vec<Stretch>,
    places: usize,
    at: (u32, u32),
    kind: Kind,
) -> Result<(), AllocError>
    requires begins { border stretches.old.items places 0 ≡ 0 }
    requires apart { AreApart stretches.old.items places }
    ensures ok { OnOk result (GoesOn stretches.old.items stretches.new.items places at kind) }
    ensures err { OnErr result (stretches.new.items ≡ stretches.old.items) }
{
    if is_followed(stretches.as_slice(), at, places, kind) {
        return Ok(());
    }
    let Ok(start) = u32::try_from(places) else {
        return Err(AllocError);
    };
    stretches.push(Stretch {
        buffer: at.0,
        first: at.1,
        start,
        kind,
    })?;
    Ok(())
}

impl RisingList {
    /// A list without entries.
    pub fn new(alloc: Global) -> RisingList
        ensures { entries_in result.stretches.items result.bits.items ≡ [] }
    {
        RisingList {
            stretches: Vec::new(alloc),
            bits: Vec::new(alloc),
        }
    }

    /// The start of the stretch of a number, in words; past the last stretch, the number of all words.
    pub fn border(&self, number: usize) -> usize
        ensures { result ≡ border self.now.stretches.items (length self.now.bits.items) number }
    {
        match self.stretches.get(number) {
            Some(stretch) => stretch.start as usize,
            None => self.bits.len(),
        }
    }

    /// Whether an element is above all that the list has.
    pub fn ends_below(&self, at: (u32, u32)) -> bool
        ensures { IsTrue result → IsStrictlySortedBy by_element (keys_of (entries_in self.now.stretches.items self.now.bits.items) ++ at ∷ []) }
    {
        match self.stretches.last() {
            Some(last) => {
                let place = self.bits.len() - 1;
                let (end, _word) = last.entry(place, self.bits[place]);
                is_below(end, at)
            }
            None => true,
        }
    }

    /// Makes room in the list for so many entries more.
    pub fn reserve(&mut self, more: usize) -> Result<(), AllocError>
        ensures { entries_in self.new.stretches.items self.new.bits.items ≡ entries_in self.old.stretches.items self.old.bits.items }
    {
        self.bits.reserve(more)?;
        Ok(())
    }

    /// Adds an entry at the end.
    pub fn push(&mut self, at: (u32, u32), word: Word) -> Result<(), AllocError>
        requires { IsStrictlySortedBy by_element (keys_of (entries_in self.old.stretches.items self.old.bits.items) ++ at ∷ []) }
        ensures { OnOk result (entries_in self.new.stretches.items self.new.bits.items ≡ entries_in self.old.stretches.items self.old.bits.items ++ (at, word) ∷ []) }
    {
        let (kind, bits) = parts_of(word);
        let places = self.bits.len();
        self.bits.push(bits)?;
        if go_on(&mut self.stretches, places, at, kind).is_err() {
            self.bits.truncate(places);
            return Err(AllocError);
        }
        Ok(())
    }

    /// Adds elements that stand side by side at the end, by the bits of their words, which are of one kind; the last index has 32 bits.
    pub fn push_run(&mut self, at: (u32, u32), kind: Kind, bits: &[u32]) -> Result<(), AllocError>
        requires fits { at.1 + length bits.now ≤ 4294967296 }
        requires above { IsStrictlySortedBy by_element (keys_of (entries_in self.old.stretches.items self.old.bits.items) ++ at ∷ []) }
        ensures { OnOk result (entries_in self.new.stretches.items self.new.bits.items ≡ entries_in self.old.stretches.items self.old.bits.items ++ run at.0 at.1 (read_words kind bits.now) (length bits.now)) }
    {
        if bits.is_empty() {
            return Ok(());
        }
        let places = self.bits.len();
        self.bits.extend_from_slice(bits)?;
        if go_on(&mut self.stretches, places, at, kind).is_err() {
            self.bits.truncate(places);
            return Err(AllocError);
        }
        Ok(())
    }

    // How many stretches begin at an element or below it.
    fn heads_up_to(&self, at: (u32, u32)) -> usize
        ensures count { result ≤ length self.now.stretches.items }
        ensures below { 0 < result → is_lt (by_element at (head_of self.now.stretches.items (result - 1))) ≡ false }
        ensures above { result < length self.now.stretches.items → IsTrue (is_lt (by_element at (head_of self.now.stretches.items result))) }
    {
        let mut low = 0;
        let mut high = self.stretches.len();
        while low < high {
            let middle = low + (high - low) / 2;
            let stretch = &self.stretches[middle];
            if is_below(at, (stretch.buffer, stretch.first)) {
                high = middle;
            } else {
                low = middle + 1;
            }
        }
        low
    }

    /// The word of an element, if the list has one.
    pub fn word(&self, at: (u32, u32)) -> Option<Word>
        ensures { result ≡ lookup (is_at (by_element at)) (entries_in self.now.stretches.items self.now.bits.items) }
    {
        let heads = self.heads_up_to(at);
        if heads == 0 {
            return None;
        }
        let stretch = self.stretches[heads - 1];
        match stretch.place_of(at, self.border(heads)) {
            Some(place) => Some(read_word(stretch.kind, self.bits[place])),
            None => None,
        }
    }

    // Adds the entries of a stretch to those before it.
    fn push_records(
        &self,
        number: usize,
        records: &mut Vec<((u32, u32), Word)>,
    ) -> Result<(), AllocError>
        requires number { number < length self.now.stretches.items }
        requires before { records.old.items ≡ first_entries self.now.stretches.items self.now.bits.items (border self.now.stretches.items (length self.now.bits.items) number) }
        ensures { OnOk result (records.new.items ≡ first_entries self.now.stretches.items self.now.bits.items (border self.now.stretches.items (length self.now.bits.items) (number + 1))) }
    {
        let stretch = &self.stretches[number];
        let start = stretch.start as usize;
        for place in start..self.border(number + 1) {
            records.push(stretch.entry(place, self.bits[place]))?;
        }
        Ok(())
    }

    /// All entries, in their order: each with its buffer, its element and its word. The error is want of memory.
    pub fn records(&self, alloc: Global) -> Result<Vec<((u32, u32), Word)>, AllocError>
        ensures { IfOk result (λ records. records.items ≡ entries_in self.now.stretches.items self.now.bits.items) }
    {
        let mut records = Vec::new(alloc);
        for number in 0..self.stretches.len() {
            self.push_records(number, &mut records)?;
        }
        Ok(records)
    }

    /// A map that has the list's entries.
    pub fn as_map(&self) -> Result<BTreeMap<(u32, u32), Word>, AllocError>
        ensures { IfOk result (λ map. (q : ℕ × ℕ) → lookup (is_at (by_element q)) map.entries ≡ lookup (is_at (by_element q)) (entries_in self.now.stretches.items self.now.bits.items)) }
    {
        let alloc = *self.bits.allocator();
        let records = self.records(alloc)?;
        map_of(alloc, records.as_slice())
    }
}

/// Whether one element is below another.
fn is_below(low: (u32, u32), high: (u32, u32)) -> bool
    ensures { result ≡ is_lt (by_element low high) }
{
    low.0 < high.0 || (low.0 == high.0 && low.1 < high.1)
}

/// A map of the entries; of two for one element the later one stands.
fn map_of(
    alloc: Global,
    entries: &[((u32, u32), Word)],
) -> Result<BTreeMap<(u32, u32), Word>, AllocError>
    ensures { IfOk result (IsFromIterResult by_element entries.now) }
{
    entries.iter().copied().collect(alloc)
}
