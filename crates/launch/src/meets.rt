//! Whether a launch meets its conditions.

ghost use Rattle.std.specs.Prelude.{◌≡◌, ℕ, ℤ, List, length, map, pos, int_le, vec_len, IsOk, ◌↔◌};
ghost use Rattle.semantics.specs.Conditions as meaning;
ghost use Rattle.semantics.specs.Conditions.{Meets, IsHeld};
ghost use Rattle.semantics.specs.Launch.{Machine};
ghost use Rattle.std.specs.List.{All};
ghost use Rattle.words.specs.View.{value_of, word as word_of};
ghost use Rattle.launch.specs.View.{conditions as conditions_of, launch as launch_of, buffer as buffer_of, count_range, argument_range, length_sum, requirement as requirement_of, content as content_of};
ghost use Rattle.launch.specs.Differences.{difference};
ghost use Rattle.launch.specs.Unmet.{unmet_counts, unmet_by, with_buffers, answer, is_in, is_held, may_hold, may_hold_all, unmet, unmet_groups, unmet_arguments, unmet_lengths, unmet_requirements, unmet_contents};

use crate::conditions::{ArgumentRange, Conditions, Content, CountRange, Length, Requirement};
use crate::error::ConditionError;
use crate::launches::Launch;
use crate::sums::Difference;
use crate::values::{of_number, sum_of};
use words::Word;

fn is_count(range: CountRange, count: u32) -> bool
    ensures { result ≡ is_in (count_range range) (pos count) }
{
    range.low <= count && count <= range.high
}

fn is_argument(range: &ArgumentRange, word: Word) -> bool
    ensures { result ≡ is_in (argument_range range.now) (value_of word) }
{
    range.low.value() <= word.value() && word.value() <= range.high.value()
}

fn groups_meet(conditions: &Conditions, launch: &Launch) -> Result<(), ConditionError>
    ensures { answer result ≡ unmet_groups conditions.now (launch_of launch.now) }
{
    let (ranges, counts) = (conditions.groups, launch.groups);
    if is_count(ranges.x, counts.x)
        && is_count(ranges.y, counts.y)
        && is_count(ranges.z, counts.z)
    {
        return Ok(());
    }
    Err(ConditionError {
        line: conditions.groups_line,
    })
}

fn arguments_meet(ranges: &[ArgumentRange], words: &[Word]) -> Result<(), ConditionError>
    requires { length ranges.now ≡ length words.now }
    ensures { answer result ≡ unmet_arguments ranges.now (map word_of words.now) }
{
    for (at, range) in ranges.iter().enumerate() {
        if !is_argument(range, words[at]) {
            return Err(ConditionError { line: range.line });
        }
    }
    Ok(())
}

fn is_long_enough(launch: &Launch, least: &Length, buffer: &Vec<Word>) -> bool
    ensures { result ≡ int_le (meaning.sum_value (launch_of launch.now) (length_sum least.now)) (pos (length (buffer_of buffer.now))) }
{
    let length = Difference {
        plus: buffer.len() as u128,
        minus: 0,
    };
    length.at_least(sum_of(launch, &least.least))
}

fn lengths_meet(
    launch: &Launch,
    lengths: &[Length],
    buffers: &[Vec<Word>],
) -> Result<(), ConditionError>
    requires { length lengths.now ≡ length buffers.now }
    ensures { answer result ≡ unmet_lengths (launch_of launch.now) lengths.now (map buffer_of buffers.now) }
{
    for (at, length) in lengths.iter().enumerate() {
        if !is_long_enough(launch, length, &buffers[at]) {
            return Err(ConditionError { line: length.line });
        }
    }
    Ok(())
}

fn is_met(launch: &Launch, requirement: &Requirement) -> bool
    ensures { result ≡ int_le (meaning.sum_value (launch_of launch.now) (requirement_of requirement.now).right) (meaning.sum_value (launch_of launch.now) (requirement_of requirement.now).left) }
{
    sum_of(launch, &requirement.left).at_least(sum_of(launch, &requirement.right))
}

/// Whether each requirement is met; else the line of the first that is not.
pub fn requirements_meet(
    launch: &Launch,
    requirements: &[Requirement],
) -> Result<(), ConditionError>
    ensures { answer result ≡ unmet_requirements (launch_of launch.now) requirements.now }
{
    for requirement in requirements {
        if !is_met(launch, requirement) {
            return Err(ConditionError {
                line: requirement.line,
            });
        }
    }
    Ok(())
}

/// Whether a line lets its buffer hold a number: at most the sum, or at least.
pub fn may_hold(is_upper: bool, sum: Difference, number: Difference) -> bool
    ensures { result ≡ may_hold is_upper (difference sum) (difference number) }
{
    if is_upper {
        sum.at_least(number)
    } else {
        number.at_least(sum)
    }
}

fn may_hold_all(is_upper: bool, sum: Difference, words: &[Word]) -> bool
    ensures { result ≡ may_hold_all is_upper (difference sum) (map value_of words.now) }
{
    for word in words {
        if !may_hold(is_upper, sum, of_number(*word)) {
            return false;
        }
    }
    true
}

fn is_held(launch: &Launch, content: &Content) -> bool
    ensures { result ≡ is_held (launch_of launch.now) (content_of content.now) }
{
    let at = content.buffer as usize;
    let buffers = &launch.buffers.words;
    if at < buffers.len() {
        return may_hold_all(content.is_upper, sum_of(launch, &content.sum), &buffers[at]);
    }
    true
}

/// Whether each buffer holds what its lines let it hold; else the first line that is not met.
pub fn contents_meet(launch: &Launch, contents: &[Content]) -> Result<(), ConditionError>
    ensures { answer result ≡ unmet_contents (launch_of launch.now) contents.now }
{
    for content in contents {
        if !is_held(launch, content) {
            return Err(ConditionError { line: content.line });
        }
    }
    Ok(())
}

fn first_unmet(conditions: &Conditions, launch: &Launch) -> Result<(), ConditionError>
    requires arguments { vec_len conditions.now.arguments ≡ vec_len launch.now.arguments }
    requires buffers { vec_len conditions.now.lengths ≡ vec_len launch.now.buffers.words }
    ensures { answer result ≡ unmet conditions.now (launch_of launch.now) }
{
    groups_meet(conditions, launch)?;
    arguments_meet(&conditions.arguments, &launch.arguments)?;
    lengths_meet(launch, &conditions.lengths, &launch.buffers.words)?;
    requirements_meet(launch, &conditions.requirements)?;
    contents_meet(launch, &conditions.contents)
}

/// Whether a launch meets its conditions; else the line of the first that it does not meet, in the order of the text.
pub fn meets(conditions: &Conditions, launch: &Launch) -> Result<(), ConditionError>
    requires arguments { vec_len conditions.now.arguments ≡ vec_len launch.now.arguments }
    requires buffers { vec_len conditions.now.lengths ≡ vec_len launch.now.buffers.words }
    ensures first { answer result ≡ unmet conditions.now (launch_of launch.now) }
    ensures met { IsOk result ↔ Meets (conditions_of conditions.now) (launch_of launch.now) }
{
    first_unmet(conditions, launch)
}

fn is_count_enough(launch: &Launch, least: &Length, count: u64) -> bool
    ensures { result ≡ int_le (meaning.sum_value (launch_of launch.now) (length_sum least.now)) (pos count) }
{
    let length = Difference {
        plus: count as u128,
        minus: 0,
    };
    length.at_least(sum_of(launch, &least.least))
}

fn counts_meet(launch: &Launch, lengths: &[Length], counts: &[u64]) -> Result<(), ConditionError>
    requires { length lengths.now ≡ length counts.now }
    ensures { answer result ≡ unmet_counts (launch_of launch.now) lengths.now counts.now }
{
    for (at, length) in lengths.iter().enumerate() {
        if !is_count_enough(launch, length, counts[at]) {
            return Err(ConditionError { line: length.line });
        }
    }
    Ok(())
}

fn first_unmet_by(
    conditions: &Conditions,
    launch: &Launch,
    counts: &[u64],
) -> Result<(), ConditionError>
    requires arguments { vec_len conditions.now.arguments ≡ vec_len launch.now.arguments }
    requires buffers { vec_len conditions.now.lengths ≡ length counts.now }
    ensures { answer result ≡ unmet_by conditions.now (launch_of launch.now) counts.now }
{
    groups_meet(conditions, launch)?;
    arguments_meet(&conditions.arguments, &launch.arguments)?;
    counts_meet(launch, &conditions.lengths, counts)?;
    requirements_meet(launch, &conditions.requirements)
}

/// Whether launches with these group counts and arguments, whose buffers have so many elements, meet the conditions, as long as the buffers
/// hold what they may; else the line of the first that none of them meets.
pub fn meets_by_counts(
    conditions: &Conditions,
    launch: &Launch,
    counts: &[u64],
) -> Result<(), ConditionError>
    requires arguments { vec_len conditions.now.arguments ≡ vec_len launch.now.arguments }
    requires buffers { vec_len conditions.now.lengths ≡ length counts.now }
    ensures first { answer result ≡ unmet_by conditions.now (launch_of launch.now) counts.now }
    ensures met { IsOk result → (bs : List (List ℤ)) (f : ℕ) (m : Machine) → map (λ (b : List ℤ). length b) bs ≡ counts.now → All (IsHeld (with_buffers (launch_of launch.now) bs f m)) (map content_of conditions.now.contents.items) → Meets (conditions_of conditions.now) (with_buffers (launch_of launch.now) bs f m) }
{
    first_unmet_by(conditions, launch, counts)
}
