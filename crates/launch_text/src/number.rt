//! Numbers at the front of what is left.

ghost use Rattle.std.specs.Prelude.{◌≡◌, ◌≤◌, IfOk, MatchOption, length, None, Some};
ghost use Rattle.std.specs.Option.{option_map};
ghost use Rattle.std.specs.List.{prefix_len};
ghost use Rattle.words.specs.View.{kind as kind_of, word as word_seen};
ghost use Rattle.launch.specs.Numbers.{number as number_seen};
ghost use Rattle.lines.specs.Bytes.{is_decimal_digit};
ghost use Rattle.launch_text.specs.LaunchWords as meaning;
ghost use Rattle.launch_text.specs.Answers.{cursor, read, same, Gives};

use crate::cursor::Cursor;
use crate::error::{LaunchFault, LaunchTextError};
use launch::number::Number;
use lines::number::{NumberFault, integer};
use words::{Kind, Word};

fn digits_length(bytes: &[u8]) -> usize
    ensures digits { result ≡ prefix_len is_decimal_digit bytes.now }
    ensures within { result ≤ length bytes.now }
{
    for (i, b) in bytes.iter().enumerate() {
        if !b.is_ascii_digit() {
            return i;
        }
    }
    bytes.len()
}

fn number_length(bytes: &[u8]) -> usize
    ensures value { result ≡ meaning.number_length bytes.now }
    ensures within { result ≤ length bytes.now }
{
    if bytes.starts_with(b"-") {
        return 1 + digits_length(&bytes[1..]);
    }
    digits_length(bytes)
}

#[tactic(auto, unfolding(crate::specs::LaunchWords::number_at))]
fn number(at: Cursor<'_>) -> Result<(i64, Cursor<'_>), LaunchTextError>
    ensures { Gives (read same) result (meaning.number_at (cursor at.entry)) }
{
    let count = number_length(at.rest);
    let after = at.past(count);
    match integer(&at.rest[..count]) {
        Ok(number) => Ok((number, after)),
        Err(NumberFault::NoDecimal) => Err(at.refused(LaunchFault::Expected)),
        Err(NumberFault::TooLarge) => Err(at.refused(LaunchFault::LimitPassed)),
    }
}

fn natural_within(least: u64, most: u64, number: i64) -> Option<u64>
    ensures { result ≡ meaning.natural_within least most number }
{
    let Ok(natural) = u64::try_from(number) else {
        return None;
    };
    if least <= natural && natural <= most {
        Some(natural)
    } else {
        None
    }
}

/// A number from `least` to `most`.
#[tactic(auto, unfolding(crate::specs::LaunchWords::natural_at))]
pub fn natural(at: Cursor<'_>, least: u64, most: u64) -> Result<(u64, Cursor<'_>), LaunchTextError>
    ensures value { Gives (read same) result (meaning.natural_at least most (cursor at.entry)) }
    ensures above { IfOk result (λ r. least ≤ r.0) }
    ensures below { IfOk result (λ r. r.0 ≤ most) }
{
    let (number, after) = number(at)?;
    let Some(natural) = natural_within(least, most, number) else {
        return Err(after.refused(LaunchFault::LimitPassed));
    };
    Ok((natural, after))
}

fn word_within(kind: Kind, number: i64) -> Option<Word>
    ensures { option_map word_seen result ≡ meaning.word_within (kind_of kind) number }
{
    match kind {
        Kind::Int => match i32::try_from(number) {
            Ok(value) => Some(Word::Int(value)),
            Err(_) => None,
        },
        Kind::Uint => match u32::try_from(number) {
            Ok(value) => Some(Word::Uint(value)),
            Err(_) => None,
        },
        Kind::Size => match u32::try_from(number) {
            Ok(value) => Some(Word::Size(value)),
            Err(_) => None,
        },
    }
}

/// Reads a number of a kind as a word; a fault where none stands there or it is out of the kind's range.
#[tactic(auto, unfolding(crate::specs::LaunchWords::word_at))]
pub fn word(at: Cursor<'_>, kind: Kind) -> Result<(Word, Cursor<'_>), LaunchTextError>
    ensures { Gives (read word_seen) result (meaning.word_at (kind_of kind) (cursor at.entry)) }
{
    let (number, after) = number(at)?;
    let Some(word) = word_within(kind, number) else {
        return Err(after.refused(LaunchFault::LimitPassed));
    };
    Ok((word, after))
}

fn factor_within(number: i64) -> Option<Number>
    ensures { option_map number_seen result ≡ meaning.factor_within number }
{
    let Ok(size) = u32::try_from(number.unsigned_abs()) else {
        return None;
    };
    Some(Number {
        negative: number < 0,
        size,
    })
}

/// Reads a number of a sum; a fault where none stands there or it is too large.
#[tactic(auto, unfolding(crate::specs::LaunchWords::factor_at))]
pub fn factor(at: Cursor<'_>) -> Result<(Number, Cursor<'_>), LaunchTextError>
    ensures { Gives (read number_seen) result (meaning.factor_at (cursor at.entry)) }
{
    let (number, after) = number(at)?;
    let Some(factor) = factor_within(number) else {
        return Err(after.refused(LaunchFault::LimitPassed));
    };
    Ok((factor, after))
}
