//! Elements that stand side by side, with words of one kind, and the bits of words.

ghost use Rattle.std.specs.Prelude.{◌≡◌, ◌<◌, ◌≤◌, ◌+◌, ◌-◌, IsTrue, MatchOption};
ghost use Rattle.write_log.specs.Elements.{read_word, entry_of};

use words::{Kind, Word};

/// Elements of a buffer that stand side by side, with words of one kind: the index of the first one, and the place where its bits stand
/// among those of all elements. It goes on until the next stretch starts.
#[derive(Clone, Copy)]
pub struct Stretch {
    pub buffer: u32,
    pub first: u32,
    pub start: u32,
    pub kind: Kind,
}

/// The word of a kind that has these bits.
#[inline(always)]
pub fn read_word(kind: Kind, bits: u32) -> Word
    ensures { result ≡ read_word kind bits }
{
    match kind {
        Kind::Int => Word::Int(bits.cast_signed()),
        Kind::Uint => Word::Uint(bits),
        Kind::Size => Word::Size(bits),
    }
}

/// A word's kind and its bits.
#[inline(always)]
pub fn parts_of(word: Word) -> (Kind, u32)
    ensures { read_word result.0 result.1 ≡ word }
{
    match word {
        Word::Int(value) => (Kind::Int, value.cast_unsigned()),
        Word::Uint(value) => (Kind::Uint, value),
        Word::Size(value) => (Kind::Size, value),
    }
}

impl Stretch {
    /// The place of an element's bits, if it is one of the elements up to the place where the stretch ends.
    pub fn place_of(&self, at: (u32, u32), end: usize) -> Option<usize>
        ensures { MatchOption result (at.0 ≡ self.now.buffer → self.now.first ≤ at.1 → end ≤ self.now.start + (at.1 - self.now.first)) (λ place. (at.0 ≡ self.now.buffer) × (self.now.first + (place - self.now.start) ≡ at.1) × (self.now.start ≤ place) × (place < end)) }
    {
        if at.0 != self.buffer || at.1 < self.first {
            return None;
        }
        let place = self.start as usize + (at.1 - self.first) as usize;
        if place < end { Some(place) } else { None }
    }

    /// Whether an element with words of a kind follows the stretch, if that goes on up to the place given.
    pub fn is_followed_by(&self, at: (u32, u32), places: usize, kind: Kind) -> bool
        ensures { IsTrue result → (self.now.buffer ≡ at.0) × (self.now.kind ≡ kind) × (self.now.first ≤ at.1) × (self.now.start + (at.1 - self.now.first) ≡ places) }
    {
        if self.buffer != at.0 || self.kind != kind || at.1 < self.first {
            return false;
        }
        self.start as usize + (at.1 - self.first) as usize == places
    }

    /// The entry whose bits stand at a place of the stretch.
    pub fn entry(&self, place: usize, bits: u32) -> ((u32, u32), Word)
        requires from { self.now.start ≤ place }
        requires fits { self.now.first + (place - self.now.start) < 4294967296 }
        ensures { result ≡ entry_of self.now place bits }
    {
        let index = self.first + (place - self.start as usize) as u32;
        ((self.buffer, index), read_word(self.kind, bits))
    }
}
