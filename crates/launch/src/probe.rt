//! The launch at the least values.

ghost use Rattle.std.specs.Prelude.{◌≡◌, ◌≤◌, ◌<◌, ◌^◌, IfOk, IfSome, Some, map, replicate, length, [], pos};
ghost use Rattle.std.specs.Option.{option_map};
ghost use Rattle.semantics.specs.Conditions.{Meets};
ghost use Rattle.words.specs.View.{kind as kind_of, word as word_seen};
ghost use Rattle.launch.specs.Differences.{difference};
ghost use Rattle.launch.specs.View.{conditions as conditions_of, launch as launch_of};
ghost use Rattle.launch.specs.Unmet.{unmet_contents};
ghost use Rattle.launch.specs.Least as least;
ghost use Rattle.launch.specs.Least.{least_with, words, words_seen};

use crate::conditions::{ArgumentRange, Conditions, Content, Length};
use crate::launches::{Buffers, Counts, Launch};
use crate::meets::{contents_meet, may_hold, requirements_meet};
use crate::sums::Difference;
use crate::values::sum_of;
use std::alloc::{AllocError, Global};
use words::{Kind, Word};

/// The most words that the buffers of a launch text have in all.
pub const MOST_WORDS: u128 = 1_048_576;

fn low_arguments(alloc: Global, ranges: &[ArgumentRange]) -> Result<Vec<Word>, AllocError>
    ensures { IfOk result (λ v. v.items ≡ map least.low ranges.now) }
{
    ranges.iter().map(|range| range.low).collect(alloc)
}

// The least counts and arguments, without buffers.
fn without_buffers(alloc: Global, conditions: &Conditions) -> Result<Launch, AllocError>
    ensures { IfOk result (λ l. launch_of l ≡ least_with conditions.now []) }
{
    let groups = conditions.groups;
    let arguments = low_arguments(alloc, &conditions.arguments)?;
    Ok(Launch {
        groups: Counts {
            x: groups.x.low,
            y: groups.y.low,
            z: groups.z.low,
        },
        arguments,
        buffers: Buffers {
            words: Vec::new(alloc),
        },
        fill: 0,
    })
}

fn least_length(launch: &Launch, length: &Length) -> u128
    ensures value { result ≡ least.least_length (launch_of launch.now) length.now }
    ensures bound { result < 2 ^ 100 }
{
    sum_of(launch, &length.least).above_zero()
}

/// A number, or the sum where the line does not let its buffer hold that number.
fn nearest(is_upper: bool, sum: Difference, number: Difference) -> Difference
    ensures { difference result ≡ least.nearest is_upper (difference sum) (difference number) }
{
    if may_hold(is_upper, sum, number) {
        return number;
    }
    sum
}

/// The number nearest to this one that a line lets a buffer hold, where the line is of that buffer.
fn next(launch: &Launch, content: &Content, buffer: usize, number: Difference) -> Difference
    ensures { difference result ≡ least.next (launch_of launch.now) buffer content.now (difference number) }
{
    if content.buffer as usize == buffer {
        return nearest(content.is_upper, sum_of(launch, &content.sum), number);
    }
    number
}

/// The number nearest to this one that each line of a buffer lets it hold, in the order of the lines.
fn brought(launch: &Launch, contents: &[Content], buffer: usize, number: Difference) -> Difference
    ensures { difference result ≡ least.brought (launch_of launch.now) buffer contents.now (difference number) }
{
    match contents {
        [] => number,
        [content, others @ ..] => {
            let number = next(launch, content, buffer, number);
            brought(launch, others, buffer, number)
        }
    }
}

fn nothing() -> Difference
    ensures { difference result ≡ pos 0 }
{
    Difference { plus: 0, minus: 0 }
}

/// A number as a word of a kind, where the kind has it.
fn word_within(kind: Kind, number: Difference) -> Option<Word>
    ensures { option_map word_seen result ≡ least.word_within (kind_of kind) (difference number) }
{
    let number = number.plus as i128 - number.minus as i128;
    match kind {
        Kind::Int => match i32::try_from(number) {
            Ok(value) => Some(Word::Int(value)),
            Err(_) => None,
        },
        Kind::Uint => match u32::try_from(number) {
            Ok(value) => Some(Word::Uint(value)),
            Err(_) => None,
        },
        Kind::Size => match u32::try_from(number) {
            Ok(value) => Some(Word::Size(value)),
            Err(_) => None,
        },
    }
}

#[tactic(auto, using(crate::proofs::Least::copies))]
fn filled_with(alloc: Global, word: Word, count: usize) -> Result<Vec<Word>, AllocError>
    ensures { IfOk result (λ v. words v ≡ replicate count (word_seen word)) }
{
    Ok(vec![in alloc; word; count]?)
}

/// A buffer as short as its condition allows, where there is room for it, filled with what its lines let it hold.
fn one_filled(
    alloc: Global,
    launch: &Launch,
    contents: &[Content],
    buffer: usize,
    room: u128,
    length: &Length,
) -> Result<Option<Vec<Word>>, AllocError>
    requires { room ≤ 1048576 }
    ensures { IfOk result (λ found. option_map words found ≡ least.one_filled (launch_of launch.now) contents.now buffer room length.now) }
{
    let count = least_length(launch, length);
    if count > room {
        return Ok(None);
    }
    let Some(word) = word_within(length.kind, brought(launch, contents, buffer, nothing())) else {
        return Ok(None);
    };
    Ok(Some(filled_with(alloc, word, count as usize)?))
}

fn filled(
    alloc: Global,
    launch: &Launch,
    contents: &[Content],
    lengths: &[Length],
) -> Result<Option<Vec<Vec<Word>>>, AllocError>
    ensures { IfOk result (λ found. option_map words_seen found ≡ least.filled (launch_of launch.now) contents.now 0 1048576 lengths.now) }
{
    let mut left = MOST_WORDS;
    let mut buffers = Vec::new(alloc);
    for (at, length) in lengths.iter().enumerate() {
        let Some(words) = one_filled(alloc, launch, contents, at, left, length)? else {
            return Ok(None);
        };
        left = left.saturating_sub(words.len() as u128);
        buffers.push(words)?;
    }
    Ok(Some(buffers))
}

/// The launch, where its buffers hold what their lines let them hold.
fn held(launch: Launch, contents: &[Content]) -> Option<Launch>
    ensures value { option_map launch_of result ≡ least.met (unmet_contents (launch_of launch) contents.now) (launch_of launch) }
    ensures buffers { IfSome result (λ l. l.buffers ≡ launch.buffers) }
{
    if contents_meet(&launch, contents).is_err() {
        return None;
    }
    Some(launch)
}

fn least_launch(alloc: Global, conditions: &Conditions) -> Result<Option<Launch>, AllocError>
    ensures least { IfOk result (λ found. option_map launch_of found ≡ least.probe conditions.now) }
    ensures words { IfOk result (λ found. IfSome found (λ l. least.filled (least_with conditions.now []) conditions.now.contents.items 0 1048576 conditions.now.lengths.items ≡ Some (words_seen l.buffers.words))) }
{
    let mut launch = without_buffers(alloc, conditions)?;
    if requirements_meet(&launch, &conditions.requirements).is_err() {
        return Ok(None);
    }
    let Some(words) = filled(alloc, &launch, &conditions.contents, &conditions.lengths)? else {
        return Ok(None);
    };
    launch.buffers = Buffers { words };
    Ok(held(launch, &conditions.contents))
}

/// The launch at the least counts and arguments, each buffer as short as its condition allows and filled with the number nearest to 0 that
/// its lines let it hold; nothing where a requirement is not met there, where the lengths together pass 1,048,576, or where no number of
/// its kind is one that all lines of a buffer let it hold.
#[tactic(auto, using(crate::proofs::Least::least))]
pub fn probe(alloc: Global, conditions: &Conditions) -> Result<Option<Launch>, AllocError>
    ensures least { IfOk result (λ found. option_map launch_of found ≡ least.probe conditions.now) }
    ensures words { IfOk result (λ found. IfSome found (λ l. least.filled (least_with conditions.now []) conditions.now.contents.items 0 1048576 conditions.now.lengths.items ≡ Some (words_seen l.buffers.words))) }
    ensures met { IfOk result (λ found. IfSome found (λ l. Meets (conditions_of conditions.now) (launch_of l))) }
{
    let found = least_launch(alloc, conditions)?;
    Ok(found)
}
