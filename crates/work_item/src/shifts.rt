//! Shifts as far as words say.

ghost use Rattle.std.specs.Prelude.{◌≡◌, ◌≤◌, true};
ghost use Rattle.semantics.specs.Word as meaning;
ghost use Rattle.semantics.specs.Evaluation as evaluation;
ghost use Rattle.words.specs.View.{kind as kind_seen, word as word_seen, kind_of, value_of};
ghost use Rattle.core_code.specs.View.{direction as direction_seen};
ghost use Rattle.work_item.specs.Proper.{is_shift_kind};

use core_code::tree::Direction;
use words::{Kind, Word, power, read_as};

/// The distance of a shift by a word: its lowest five bits (OpenCL 1.2, 6.3 j).
#[inline(always)]
fn count_of(word: Word) -> u32
    ensures value { result ≡ meaning.count_of (value_of word) }
    ensures few { result ≤ 31 }
{
    word.bits() % 32
}

/// The `int` that has the 32 bits of a product with 2^count.
#[inline(always)]
fn int_to_left(value: i32, count: u32) -> Word
    requires { count ≤ 31 }
    ensures { word_seen result ≡ meaning.shift meaning.Leftward meaning.Int value count }
{
    let product = value as i64 * power(count) as i64;
    Word::from_bits(Kind::Int, product.rem_euclid(1 << 32) as u32)
}

/// The 32 bits of a word times 2^count, as a number of its kind (C99 6.5.7; of an `int` too, where C99 leaves some undefined).
#[inline(always)]
fn to_left(word: Word, count: u32) -> Word
    requires { count ≤ 31 }
    ensures { word_seen result ≡ meaning.shift meaning.Leftward (kind_of word) (value_of word) count }
{
    match word {
        Word::Int(value) => int_to_left(value, count),
        Word::Uint(value) => Word::Uint(value << count),
        Word::Size(value) => Word::Size(value << count),
    }
}

/// A word divided by 2^count, rounded down (C99 6.5.7; a negative number stays one).
#[inline(always)]
#[tactic(auto, using(crate::proofs::RoundedDown::shifted_down))]
fn to_right(word: Word, count: u32) -> Word
    requires { count ≤ 31 }
    ensures { word_seen result ≡ meaning.shift meaning.Rightward (kind_of word) (value_of word) count }
{
    match word {
        Word::Int(value) => Word::Int(value >> count),
        Word::Uint(value) => Word::Uint(value >> count),
        Word::Size(value) => Word::Size(value >> count),
    }
}

/// A word, brought to a kind and shifted as far as another says.
#[inline(always)]
pub fn shifted(direction: Direction, kind: Kind, value: Word, count: Word) -> Word
    requires { is_shift_kind (kind_seen kind) ≡ true }
    ensures { word_seen result ≡ evaluation.shifted (direction_seen direction) (kind_seen kind) (word_seen value) (word_seen count) }
{
    let value = read_as(value, kind);
    let count = count_of(count);
    match direction {
        Direction::Leftward => to_left(value, count),
        Direction::Rightward => to_right(value, count),
    }
}
