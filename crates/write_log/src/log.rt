//! The log, and writing it.

ghost use Rattle.std.specs.Prelude.{◌≡◌, ◌<◌, ◌≤◌, ◌+◌, ◌-◌, ◌&&◌, ℕ, ℤ, List, true, Some, None, IfOk, OnOk, cond, length, map, nat_eq, slice_index_or, []};
ghost use Rattle.std.specs.Option.{option_map};
ghost use Rattle.std.specs.List.Sorted.{IsStrictlySortedBy};
ghost use Rattle.std.specs.Map.{keys_of};
ghost use Rattle.semantics.specs.Rounds.{logged};
ghost use Rattle.words.specs.View.{value_of};
ghost use Rattle.write_log.specs.Elements.{border, entries_in, first_entries};
ghost use Rattle.write_log.specs.Written.{written, entries, found, by_element, noted, put_all, put_bits, put_word, read_words, words_of, element};

use crate::rising::RisingList;
use crate::stretch::{Stretch, read_word};
use launch::launches::Buffers;
use std::alloc::{AllocError, Global};
use std::collections::BTreeMap;
use words::{Kind, Word};

/// The elements of buffers that a work-group wrote, by buffer and then by index, each with the word that it wrote last.
#[derive(Drop)]
pub struct WriteLog {
    // Whether each element that was noted was above the one before: then the list has the words, and otherwise the map.
    rises: bool,
    list: RisingList,
    map: BTreeMap<(u32, u32), Word>,
}

/// A map of a list's entries, with a word at an element.
fn map_with(
    list: &RisingList,
    at: (u32, u32),
    word: Word,
) -> Result<BTreeMap<(u32, u32), Word>, AllocError>
    ensures { IfOk result (λ map. (b i : ℕ) → found map.entries b i ≡ cond (nat_eq b at.0 && nat_eq i at.1) (Some (value_of word)) (found (entries_in list.now.stretches.items list.now.bits.items) b i)) }
{
    let mut map = list.as_map()?;
    map.insert(at, word)?;
    Ok(map)
}

impl WriteLog {
    /// A log without entries.
    pub fn new(alloc: Global) -> WriteLog
        ensures { (buffer index : ℕ) → written result buffer index ≡ None }
    {
        WriteLog {
            rises: true,
            list: RisingList::new(alloc),
            map: BTreeMap::new(alloc),
        }
    }

    /// Makes room for so many elements more, where each is above the one before.
    pub fn reserve(&mut self, more: usize) -> Result<(), AllocError>
        ensures { (b i : ℕ) → written self.new b i ≡ written self.old b i }
    {
        if self.rises {
            self.list.reserve(more)?;
        }
        Ok(())
    }

    /// Notes a word at an element, in the place of what was noted there.
    pub fn note(&mut self, buffer: u32, index: u32, word: Word) -> Result<(), AllocError>
        ensures { OnOk result ((b i : ℕ) → written self.new b i ≡ cond (nat_eq b buffer && nat_eq i index) (Some (value_of word)) (written self.old b i)) }
    {
        let at = (buffer, index);
        if !self.rises {
            self.map.insert(at, word)?;
            return Ok(());
        }
        if self.list.ends_below(at) {
            return self.list.push(at, word);
        }
        self.map = map_with(&self.list, at, word)?;
        self.rises = false;
        Ok(())
    }

    // Notes elements one by one.
    fn note_each(
        &mut self,
        buffer: u32,
        first: u32,
        kind: Kind,
        bits: &[u32],
    ) -> Result<(), AllocError>
        requires { first + length bits.now ≤ 4294967296 }
        ensures { OnOk result ((b i : ℕ) → written self.new b i ≡ noted buffer first (read_words kind bits.now) (length bits.now) b i (written self.old b i)) }
    {
        for place in 0..bits.len() {
            self.note(buffer, first + place as u32, read_word(kind, bits[place]))?;
        }
        Ok(())
    }

    /// Notes elements that stand side by side, from an index on, by the bits of their words, which are of one kind; the last index has 32
    /// bits.
    pub fn note_run(
        &mut self,
        buffer: u32,
        first: u32,
        kind: Kind,
        bits: &[u32],
    ) -> Result<(), AllocError>
        requires { first + length bits.now ≤ 4294967296 }
        ensures { OnOk result ((b i : ℕ) → written self.new b i ≡ noted buffer first (read_words kind bits.now) (length bits.now) b i (written self.old b i)) }
    {
        let at = (buffer, first);
        if self.rises && self.list.ends_below(at) {
            return self.list.push_run(at, kind, bits);
        }
        self.note_each(buffer, first, kind, bits)
    }

    /// The word that the log has of an element.
    pub fn word(&self, buffer: u32, index: u32) -> Option<Word>
        ensures { option_map value_of result ≡ written self.now buffer index }
    {
        if self.rises {
            return self.list.word((buffer, index));
        }
        self.map.get(&(buffer, index)).copied()
    }

    /// Whether the log is known to have nothing.
    pub fn is_empty(&self) -> bool
        ensures { result ≡ true → (buffer index : ℕ) → written self.now buffer index ≡ None }
    {
        self.rises && self.list.bits.is_empty()
    }

    /// Each element that was written, as its buffer and index, with its word: in rising order.
    pub fn records(&self, alloc: Global) -> Result<Vec<((u32, u32), Word)>, AllocError>
        ensures entries { IfOk result (λ records. records.items ≡ entries self.now) }
        ensures rising { IsStrictlySortedBy by_element (keys_of (entries self.now)) }
    {
        if self.rises {
            return self.list.records(alloc);
        }
        list_of(alloc, &self.map)
    }
}

/// The entries of a map as a list.
fn list_of(
    alloc: Global,
    map: &BTreeMap<(u32, u32), Word>,
) -> Result<Vec<((u32, u32), Word)>, AllocError>
    ensures entries { IfOk result (λ list. list.items ≡ map.now.entries) }
    ensures rising { IsStrictlySortedBy by_element (keys_of map.now.entries) }
{
    let mut list = Vec::new(alloc);
    for (at, word) in map {
        list.push((*at, *word))?;
    }
    Ok(list)
}

/// Puts a word at an element; past the end of the buffers nothing changes.
fn put(buffers: &mut Buffers, buffer: u32, index: u32, word: Word)
    ensures { words_of buffers.new ≡ put_word (words_of buffers.old) buffer index (value_of word) }
{
    if let Some(words) = buffers.words.get_mut(buffer as usize) {
        if let Some(place) = words.get_mut(index as usize) {
            *place = word;
        }
    }
}

/// Writes the words of a stretch to the elements of its buffer that are there.
fn write_bits(words: &mut [Word], stretch: &Stretch, end: usize, bits: &[u32])
    requires { (stretch.now.start ≤ end) × (end ≤ length bits.now) }
    ensures { map value_of words.new ≡ put_bits stretch.now bits.now (end - stretch.now.start) (map value_of words.old) }
{
    let first = stretch.first as usize;
    let start = stretch.start as usize;
    let inside = words.len().saturating_sub(first);
    for step in 0..inside.min(end - start) {
        words[first + step] = read_word(stretch.kind, bits[start + step]);
    }
}

/// Writes the entries of a stretch of a list, after those before it.
fn write_stretch(buffers: &mut Buffers, list: &RisingList, number: usize)
    requires { number < length list.now.stretches.items }
    ensures { (bs : List (List ℤ)) → words_of buffers.old ≡ put_all (first_entries list.now.stretches.items list.now.bits.items (border list.now.stretches.items (length list.now.bits.items) number)) bs → words_of buffers.new ≡ put_all (first_entries list.now.stretches.items list.now.bits.items (border list.now.stretches.items (length list.now.bits.items) (number + 1))) bs }
{
    let stretch = &list.stretches[number];
    let end = list.border(number + 1);
    if let Some(words) = buffers.words.get_mut(stretch.buffer as usize) {
        write_bits(words.as_mut_slice(), stretch, end, list.bits.as_slice());
    }
}

/// Writes the entries of a list one after another.
fn write_list(buffers: &mut Buffers, list: &RisingList)
    ensures { words_of buffers.new ≡ put_all (entries_in list.now.stretches.items list.now.bits.items) (words_of buffers.old) }
{
    for number in 0..list.stretches.len() {
        write_stretch(buffers, list, number);
    }
}

/// Writes the entries of a map one after another.
fn write_map(buffers: &mut Buffers, map: &BTreeMap<(u32, u32), Word>)
    ensures written { words_of buffers.new ≡ put_all map.now.entries (words_of buffers.old) }
    ensures rising { IsStrictlySortedBy by_element (keys_of map.now.entries) }
{
    for (at, word) in map {
        put(buffers, at.0, at.1, *word);
    }
}

/// Writes the entries of a log into buffers, in the order of buffers and elements.
fn write(buffers: &mut Buffers, log: &WriteLog)
    ensures written { words_of buffers.new ≡ put_all (entries log.now) (words_of buffers.old) }
    ensures rising { IsStrictlySortedBy by_element (keys_of (entries log.now)) }
{
    if log.rises {
        write_list(buffers, &log.list);
    } else {
        write_map(buffers, &log.map);
    }
}

/// Writes what a work-group wrote: each element of the buffers that the log has gets its word, and no other changes. What lies
/// outside the buffers is passed over.
pub fn apply(buffers: &mut Buffers, log: &WriteLog)
    ensures elements { (b i : ℕ) → i < length (slice_index_or (words_of buffers.old) b []) → element (words_of buffers.new) b i ≡ logged (written log.now b i) (element (words_of buffers.old) b i) }
    ensures lengths { map length (words_of buffers.new) ≡ map length (words_of buffers.old) }
{
    write(buffers, log);
}
