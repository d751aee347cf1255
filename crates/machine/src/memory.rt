//! Global and local memory.

ghost use Rattle.std.specs.Prelude.{◌≡◌, ◌<◌, ℕ, [], pos, map, length, replicate, slice_index_or, IfOk};
ghost use Rattle.semantics.specs.Setup.{group_count};
ghost use Rattle.semantics.specs.Memory as meaning;
ghost use Rattle.words.specs.View.{value_of};
ghost use Rattle.core_code.specs.View.{kernel as kernel_seen};
ghost use Rattle.launch.specs.View.{buffer as buffer_seen, launch as launch_seen};
ghost use Rattle.write_log.specs.Written.{words_of, put_word};
ghost use Rattle.work_item.specs.Asks.{cell as cell_seen};
ghost use Rattle.work_item.specs.View.{setup_of};
ghost use Rattle.machine.specs.Memories.{memory, arrays_of, past_of, group_shapes, element_or, Inside, HasShape};

use core_code::tree::{Core, LocalArray};
use launch::launches::{Buffers, Launch};
use std::alloc::{AllocError, Global};
use words::Word;
use work_item::ask::{Cell, Owner};

/// The buffers of a launch, the local arrays of each group, and the word that fills them.
#[derive(Drop)]
pub struct Memory {
    pub buffers: Buffers,
    pub groups: Vec<Buffers>,
    pub fill: u32,
}

/// An element, or what there is past the end.
fn element(arrays: &Buffers, array: u32, index: u32, past: Word) -> Word
    ensures { value_of result ≡ element_or (words_of arrays.now) array index (value_of past) }
{
    let Some(words) = arrays.words.get(array as usize) else {
        return past;
    };
    match words.get(index as usize) {
        Some(word) => *word,
        None => past,
    }
}

/// Puts a word at an element; past the end nothing changes.
fn put(arrays: &mut Buffers, array: u32, index: u32, word: Word)
    ensures { words_of arrays.new ≡ put_word (words_of arrays.old) array index (value_of word) }
{
    if let Some(words) = arrays.words.get_mut(array as usize) {
        if let Some(place) = words.get_mut(index as usize) {
            *place = word;
        }
    }
}

/// The words of each buffer once more.
fn copy(alloc: Global, buffers: &Buffers) -> Result<Buffers, AllocError>
    ensures { IfOk result (λ b. words_of b ≡ words_of buffers.now) }
{
    let mut words = Vec::with_capacity(alloc, buffers.words.len())?;
    for row in &buffers.words {
        words.push(Vec::from_slice(alloc, row.as_slice())?)?;
    }
    Ok(Buffers { words })
}

/// Local arrays, filled with a word.
fn filled(alloc: Global, arrays: &[LocalArray], fill: u32) -> Result<Buffers, AllocError>
    ensures { IfOk result (λ b. words_of b ≡ map (λ a. replicate a.length (pos fill)) arrays.now) }
{
    let mut words = Vec::with_capacity(alloc, arrays.len())?;
    for array in arrays {
        words.push(row(alloc, array.length, fill)?)?;
    }
    Ok(Buffers { words })
}

/// A row of so many elements, each with the bits of one word.
fn row(alloc: Global, length: u32, fill: u32) -> Result<Vec<Word>, AllocError>
    ensures { IfOk result (λ v. buffer_seen v ≡ replicate length (pos fill)) }
{
    let mut words = Vec::with_capacity(alloc, length as usize)?;
    for _index in 0..length {
        words.push(Word::Uint(fill))?;
    }
    Ok(words)
}

/// The local arrays of each group.
fn all_filled(
    alloc: Global,
    arrays: &[LocalArray],
    fill: u32,
    groups: u64,
) -> Result<Vec<Buffers>, AllocError>
    ensures { IfOk result (λ v. map words_of v.items ≡ replicate groups (map (λ a. replicate a.length (pos fill)) arrays.now)) }
{
    let mut all = Vec::new(alloc);
    for _group in 0..groups {
        all.push(filled(alloc, arrays, fill)?)?;
    }
    Ok(all)
}

impl Memory {
    /// The memory as a launch begins: its buffers, and for each of so many groups the local arrays with the fill word.
    pub fn open(
        alloc: Global,
        core: &Core,
        launch: &Launch,
        groups: u64,
    ) -> Result<Memory, AllocError>
        requires { groups ≡ group_count (setup_of core.now launch.now) }
        ensures memory { IfOk result (λ m. memory m ≡ meaning.opening_memory (setup_of core.now launch.now)) }
        ensures shape { IfOk result (λ m. HasShape (setup_of core.now launch.now) m) }
    {
        Ok(Memory {
            buffers: copy(alloc, &launch.buffers)?,
            groups: all_filled(alloc, core.arrays.as_slice(), launch.fill, groups)?,
            fill: launch.fill,
        })
    }

    /// The word of an element.
    pub fn read(&self, at: Cell) -> Word
        ensures { value_of result ≡ memory self.now (cell_seen at) }
    {
        match at.owner {
            Owner::Launch => element(&self.buffers, at.array, at.index, Word::Int(0)),
            Owner::Group(group) => {
                let fill = Word::Uint(self.fill);
                if (group as usize) < self.groups.len() {
                    element(&self.groups[group as usize], at.array, at.index, fill)
                } else {
                    fill
                }
            }
        }
    }

    /// Puts a word into an element, in place of what it has.
    pub fn write(&mut self, at: Cell, word: Word)
        requires { Inside self.old (cell_seen at) }
        ensures memory { memory self.new ≡ meaning.put (cell_seen at) (value_of word) (memory self.old) }
        ensures buffers { map length (words_of self.new.buffers) ≡ map length (words_of self.old.buffers) }
        ensures groups { group_shapes self.new ≡ group_shapes self.old }
        ensures fill { self.new.fill ≡ self.old.fill }
    {
        match at.owner {
            Owner::Launch => put(&mut self.buffers, at.array, at.index, word),
            Owner::Group(group) => {
                if (group as usize) < self.groups.len() {
                    put(&mut self.groups[group as usize], at.array, at.index, word);
                }
            }
        }
    }
}
