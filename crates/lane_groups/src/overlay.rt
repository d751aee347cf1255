//! What is stored over a launch's memory.

ghost use Rattle.std.specs.Prelude.{◌≡◌, ◌≤◌, ◌+◌, ℕ, Some, None, OnOk, cond, length};
ghost use Rattle.std.specs.Option.{option_map};
ghost use Rattle.semantics.specs.Setup.{at_launch};
ghost use Rattle.semantics.specs.Launch as launches;
ghost use Rattle.semantics.specs.Memory as meaning;
ghost use Rattle.words.specs.View.{value_of};
ghost use Rattle.launch.specs.View.{launch as launch_seen};
ghost use Rattle.work_item.specs.Asks.{cell as cell_seen};
ghost use Rattle.lane_groups.specs.Overlays.{kept, local_at};
ghost use Rattle.write_log.specs.Elements.{read_words};
ghost use Rattle.lane_groups.specs.Runs.{laid};

use launch::launches::Launch;
use std::alloc::{AllocError, Global};
use std::collections::BTreeMap;
use words::{Kind, Word};
use work_item::ask::{Cell, Owner};
use write_log::WriteLog;

/// The elements that were stored, each with the word that it got last: those of buffers, and those of the local arrays of groups.
#[derive(Drop)]
pub struct Overlay {
    pub buffers: WriteLog,
    pub locals: BTreeMap<(u64, (u32, u32)), Word>,
}

impl Overlay {
    /// An overlay in which nothing is stored.
    pub fn new(alloc: Global) -> Overlay
        ensures { (c : meaning.Cell) → kept result c ≡ None }
    {
        Overlay {
            buffers: WriteLog::new(alloc),
            locals: BTreeMap::new(alloc),
        }
    }

    // An element of a group's local array.
    fn local(&self, group: u64, array: u32, index: u32) -> Option<Word>
        ensures { option_map value_of result ≡ local_at self.now group array index }
    {
        match self.locals.get(&(group, (array, index))) {
            Some(word) => Some(*word),
            None => None,
        }
    }

    /// The word that was stored to an element.
    #[inline(always)]
    pub fn word(&self, at: Cell) -> Option<Word>
        ensures { option_map value_of result ≡ kept self.now (cell_seen at) }
    {
        match at.owner {
            Owner::Launch => self.buffers.word(at.array, at.index),
            Owner::Group(group) => self.local(group, at.array, at.index),
        }
    }

    // An element of a group's local array gets a word.
    fn note_local(
        &mut self,
        group: u64,
        array: u32,
        index: u32,
        word: Word,
    ) -> Result<(), AllocError>
        ensures locals { OnOk result ((g a k : ℕ) → local_at self.new g a k ≡ cond (meaning.same_cell (record { owner = g; array = a; index = k }) (record { owner = group; array = array; index = index })) (Some (value_of word)) (local_at self.old g a k)) }
        ensures buffers { self.new.buffers ≡ self.old.buffers }
    {
        self.locals.insert((group, (array, index)), word)?;
        Ok(())
    }

    /// An element gets a word, in the place of what it had.
    #[inline(always)]
    pub fn note(&mut self, at: Cell, word: Word) -> Result<(), AllocError>
        ensures { OnOk result ((c : meaning.Cell) → kept self.new c ≡ cond (meaning.same_cell c (cell_seen at)) (Some (value_of word)) (kept self.old c)) }
    {
        match at.owner {
            Owner::Launch => self.buffers.note(at.array, at.index, word),
            Owner::Group(group) => self.note_local(group, at.array, at.index, word),
        }
    }

    /// Elements of a buffer get words of one kind, by their bits, one after another from an index on; the last index has 32 bits.
    pub fn note_run(
        &mut self,
        buffer: u32,
        first: u32,
        kind: Kind,
        bits: &[u32],
    ) -> Result<(), AllocError>
        requires { first + length bits.now ≤ 4294967296 }
        ensures { OnOk result ((c : meaning.Cell) → kept self.new c ≡ laid buffer first (read_words kind bits.now) (length bits.now) c (kept self.old c)) }
    {
        self.buffers.note_run(buffer, first, kind, bits)
    }
}

/// An element of a buffer as the launch has it.
#[inline(always)]
fn buffer_word(launch: &Launch, buffer: u32, index: u32) -> Word
    ensures { (k : launches.Kernel) → value_of result ≡ meaning.opening_at (at_launch k (launch_seen launch.now)) 0 buffer index }
{
    let Some(words) = launch.buffers.words.get(buffer as usize) else {
        return Word::Int(0);
    };
    match words.get(index as usize) {
        Some(word) => *word,
        None => Word::Int(0),
    }
}

/// An element as a launch begins.
#[inline(always)]
pub fn opening_word(launch: &Launch, at: Cell) -> Word
    ensures { (k : launches.Kernel) → value_of result ≡ meaning.opening_memory (at_launch k (launch_seen launch.now)) (cell_seen at) }
{
    match at.owner {
        Owner::Launch => buffer_word(launch, at.array, at.index),
        Owner::Group(_) => Word::Uint(launch.fill),
    }
}
