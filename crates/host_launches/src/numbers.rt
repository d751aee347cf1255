//! The words of the values among arguments, and the lengths of the buffers.

ghost use Rattle.std.specs.Prelude.{◌≡◌, ◌≤◌, ◌<◌, ◌^◌, ◌++◌, length, map, IfOk, OnOk};
ghost use Rattle.words.specs.View.{word as word_seen};
ghost use Rattle.host_launches.specs.Numbers as rules;

use crate::given::Argument;
use crate::shapes::{Element, Scalar, Shape};
use std::alloc::{AllocError, Global};
use words::{Kind, Word};

fn byte_at(words: &[u32; 16], place: u32) -> u32
    requires { place < 16 }
    ensures value { result ≡ rules.byte_at words.now place }
    ensures few { result < 256 }
{
    (words[(place / 4) as usize] >> (8 * (place % 4))) % 256
}

fn pair_at(words: &[u32; 16], place: u32) -> u32
    requires { place < 16 }
    ensures value { result ≡ rules.pair_at words.now place }
    ensures few { result < 65536 }
{
    (words[(place / 2) as usize] >> (16 * (place % 2))) % 65_536
}

fn whole_at(words: &[u32; 16], place: u32) -> u32
    requires { place < 16 }
    ensures { result ≡ rules.whole_at words.now place }
{
    words[place as usize]
}

fn narrow_char(bits: u32) -> Word
    requires { bits < 256 }
    ensures { word_seen result ≡ rules.narrow 128 bits }
{
    if bits < 128 {
        Word::Int(bits as i32)
    } else {
        Word::Int(bits as i32 - 256)
    }
}

fn narrow_short(bits: u32) -> Word
    requires { bits < 65536 }
    ensures { word_seen result ≡ rules.narrow 32768 bits }
{
    if bits < 32_768 {
        Word::Int(bits as i32)
    } else {
        Word::Int(bits as i32 - 65_536)
    }
}

fn unsigned(bits: u32) -> Word
    requires { bits < 65536 }
    ensures { word_seen result ≡ rules.unsigned bits }
{
    Word::Int(bits as i32)
}

// Whether the higher half repeats the sign of the lower one.
fn is_int(words: &[u32; 16]) -> bool
    ensures { result ≡ rules.is_int words.now }
{
    whole_at(words, 1)
        == if whole_at(words, 0) < 2_147_483_648 {
            0
        } else {
            u32::MAX
        }
}

/// Whether a value has a word: a `long` has one where its number is an `int`.
pub fn has_word(scalar: Scalar, words: &[u32; 16]) -> bool
    ensures { result ≡ rules.has_word scalar words.now }
{
    match scalar {
        Scalar::Long => is_int(words),
        _ => true,
    }
}

/// The word of the component at a place of a value.
fn component(scalar: Scalar, words: &[u32; 16], place: u32) -> Word
    requires { place < 16 }
    ensures { word_seen result ≡ rules.component scalar words.now place }
{
    match scalar {
        Scalar::Char => narrow_char(byte_at(words, place)),
        Scalar::Uchar => unsigned(byte_at(words, place)),
        Scalar::Short => narrow_short(pair_at(words, place)),
        Scalar::Ushort => unsigned(pair_at(words, place)),
        Scalar::Int | Scalar::Long => Word::from_bits(Kind::Int, whole_at(words, place)),
        Scalar::Uint | Scalar::Float => Word::from_bits(Kind::Uint, whole_at(words, place)),
    }
}

fn push_components(of: Element, words: &[u32; 16], found: &mut Vec<Word>) -> Result<(), AllocError>
    ensures { OnOk result (map word_seen found.new.items ≡ map word_seen found.old.items ++ rules.components of.scalar words.now 0 of.width) }
{
    for place in 0..of.width {
        found.push(component(of.scalar, words, place))?;
    }
    Ok(())
}

fn push_words(shape: Shape, one: &Argument, found: &mut Vec<Word>) -> Result<(), AllocError>
    ensures { OnOk result (map word_seen found.new.items ≡ map word_seen found.old.items ++ rules.words_at shape one.now) }
{
    match shape {
        Shape::Value(of) => push_components(of, &one.words, found),
        Shape::Buffer(_) | Shape::Local { .. } => Ok(()),
    }
}

/// The words of the values, component by component.
pub fn words_of(
    alloc: Global,
    shapes: &[Shape],
    arguments: &[Argument],
) -> Result<Vec<Word>, AllocError>
    requires { length shapes.now ≡ length arguments.now }
    ensures { IfOk result (λ v. map word_seen v.items ≡ rules.words_of shapes.now arguments.now) }
{
    let mut found = Vec::new(alloc);
    for (at, shape) in shapes.iter().enumerate() {
        push_words(*shape, &arguments[at], &mut found)?;
    }
    Ok(found)
}

fn push_length(shape: Shape, one: &Argument, found: &mut Vec<u64>) -> Result<(), AllocError>
    ensures { OnOk result (found.new.items ≡ found.old.items ++ rules.lengths_at shape one.now) }
{
    match shape {
        Shape::Buffer(of) => {
            found.push(one.bytes / of.scalar.size() as u64)?;
            Ok(())
        }
        Shape::Value(_) | Shape::Local { .. } => Ok(()),
    }
}

/// The lengths of the buffers, in components.
pub fn lengths_of(
    alloc: Global,
    shapes: &[Shape],
    arguments: &[Argument],
) -> Result<Vec<u64>, AllocError>
    requires { length shapes.now ≡ length arguments.now }
    ensures { IfOk result (λ v. v.items ≡ rules.lengths_of shapes.now arguments.now) }
{
    let mut found = Vec::new(alloc);
    for (at, shape) in shapes.iter().enumerate() {
        push_length(*shape, &arguments[at], &mut found)?;
    }
    Ok(found)
}
