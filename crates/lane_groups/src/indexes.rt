//! Indexes of elements.

ghost use Rattle.std.specs.Prelude.{◌≡◌, ◌<◌, ◌≤◌, ℕ, true, MatchOption};
ghost use Rattle.semantics.specs.Evaluation.{within, At, Outside};
ghost use Rattle.words.specs.View.{value_of, word as word_seen};
ghost use Rattle.lane_groups.specs.Registers.{lane_word, HasLanes};
ghost use Rattle.lane_groups.specs.Sources.{IsAmong};

use crate::row::Lanes;
use words::Word;
use work_item::evaluation::index_within;

/// An index that lies among so many elements. Of at most 2^31 elements it is told by its bits: those of a number below 0 are past them.
#[inline(always)]
pub fn index_among(length: usize, index: Word) -> Option<u32>
    ensures { MatchOption result (within length (value_of index) ≡ Outside) (λ k. within length (value_of index) ≡ At k) }
{
    if length > 2147483648 {
        return index_within(length, index);
    }
    let place = index.bits();
    if (place as usize) < length {
        Some(place)
    } else {
        None
    }
}

/// Whether there are at most 2^31 elements, so that an index is told by its bits.
#[inline(always)]
pub fn are_few(length: usize) -> bool
    ensures { result ≡ true → length ≤ 2147483648 }
{
    length <= 2147483648
}

/// Whether an index lies among so many elements, at most 2^31: those of a number below 0 are past them.
#[inline(always)]
fn is_among(length: u32, index: Word) -> bool
    requires { length ≤ 2147483648 }
    ensures { result ≡ true → IsAmong length (word_seen index) }
{
    index.bits() < length
}

/// Whether an index is this one, which lies among so many elements, at most 2^31.
#[inline(always)]
pub fn is_index(length: usize, index: Word, place: u32) -> bool
    requires few { length ≤ 2147483648 }
    requires inside { place < length }
    ensures { result ≡ true → within length (value_of index) ≡ At place }
{
    index.bits() == place
}

/// The place of an element, by the bits of its index.
#[inline(always)]
pub fn place_among(length: usize, index: Word) -> u32
    requires { IsAmong length (word_seen index) }
    ensures within { within length (value_of index) ≡ At result }
    ensures inside { result < length }
{
    index.bits()
}

/// Whether the indexes of so many lanes are known to lie all among so many elements.
#[inline(always)]
pub fn are_among(length: usize, indexes: Lanes<'_>, count: usize) -> bool
    requires { HasLanes count indexes }
    ensures { result ≡ true → (k : ℕ) → k < count → IsAmong length (lane_word indexes.entry k) }
{
    if !are_few(length) {
        return false;
    }
    let limit = length as u32;
    let mut all = true;
    for lane in 0..count {
        all &= is_among(limit, indexes.own(lane));
    }
    all
}
