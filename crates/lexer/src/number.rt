//! Numbers as they are written.

ghost use Rattle.std.specs.Prelude.{◌≡◌, ◌≤◌, ◌^◌, length, nat_eq, MatchOption};
ghost use Rattle.std.specs.List.{prefix_len};
ghost use Rattle.texts.specs.Numbers.{is_digit, digit_value, value_of, sized, with_suffix, number_in, number_of};
ghost use Rattle.lines.specs.Bytes.{is_decimal_digit, is_well_spelt};
ghost use Rattle.texts.specs.Tokens.{is_exponent, is_sum_sign, goes_on, number_before};
ghost use Rattle.lexer.specs.Seen.{number_seen};

use crate::{Literal, TextFault};

pub fn is_decimal_digit(b: u8) -> bool
    ensures { result ≡ is_decimal_digit b }
{
    48 <= b && b <= 57
}

fn is_digit(hexadecimal: bool, b: u8) -> bool
    ensures { result ≡ is_digit hexadecimal b }
{
    is_decimal_digit(b) || hexadecimal && (97 <= b && b <= 102 || 65 <= b && b <= 70)
}

fn digit_value(b: u8) -> u8
    ensures { result ≡ digit_value b }
{
    if is_decimal_digit(b) {
        b.saturating_sub(48)
    } else if 97 <= b {
        b.saturating_sub(87)
    } else {
        b.saturating_sub(55)
    }
}

/// A byte with which an exponent would begin (C99 6.4.4.2).
fn is_exponent(b: u8) -> bool
    ensures { result ≡ is_exponent b }
{
    b == b'e' || b == b'E' || (b == b'p' || b == b'P')
}

fn is_sum_sign(b: u8) -> bool
    ensures { result ≡ is_sum_sign b }
{
    b == b'+' || b == b'-'
}

/// A sign behind a number is part of it (C99 6.4.8).
fn goes_on(word: &[u8], rest: &[u8]) -> bool
    ensures { result ≡ goes_on word.now rest.now }
{
    match (word.last(), rest.first()) {
        (Some(last), Some(sign)) => is_exponent(*last) && is_sum_sign(*sign),
        _ => false,
    }
}

/// A whole word read as a number, with the bytes behind it.
pub fn literal_before(word: &[u8], rest: &[u8]) -> Result<Literal, TextFault>
    ensures { number_seen result ≡ number_before word.now rest.now }
{
    if goes_on(word, rest) {
        Err(TextFault::BadNumber)
    } else {
        literal_of(word)
    }
}

/// A whole word read as a number.
fn literal_of(word: &[u8]) -> Result<Literal, TextFault>
    ensures { number_seen result ≡ number_of word.now }
{
    if word.starts_with(b"0x") || word.starts_with(b"0X") {
        literal_in(true, &word[2..])
    } else {
        literal_in(false, word)
    }
}

fn literal_in(hexadecimal: bool, bytes: &[u8]) -> Result<Literal, TextFault>
    ensures { number_seen result ≡ number_in hexadecimal bytes.now }
{
    let count = digits_len(hexadecimal, bytes);
    let digits = &bytes[..count];
    if is_well_spelt(hexadecimal, digits) {
        with_suffix(hexadecimal, digits, &bytes[count..])
    } else {
        Err(TextFault::BadNumber)
    }
}

fn digits_len(hexadecimal: bool, bytes: &[u8]) -> usize
    ensures digits { result ≡ prefix_len (is_digit hexadecimal) bytes.now }
    ensures within { result ≤ length bytes.now }
{
    for (i, b) in bytes.iter().enumerate() {
        if !is_digit(hexadecimal, *b) {
            return i;
        }
    }
    bytes.len()
}

fn is_well_spelt(hexadecimal: bool, digits: &[u8]) -> bool
    ensures { result ≡ is_well_spelt hexadecimal digits.now }
{
    match digits {
        [] => false,
        [_] => true,
        [first, ..] => hexadecimal || *first != b'0',
    }
}

fn with_suffix(hexadecimal: bool, digits: &[u8], suffix: &[u8]) -> Result<Literal, TextFault>
    ensures { number_seen result ≡ with_suffix hexadecimal (value_of hexadecimal digits.now) suffix.now }
{
    match suffix {
        [] => sized(hexadecimal, false, digits),
        [b'u' | b'U'] => sized(hexadecimal, true, digits),
        _ => Err(TextFault::BadNumber),
    }
}

fn sized(hexadecimal: bool, suffixed: bool, digits: &[u8]) -> Result<Literal, TextFault>
    ensures { number_seen result ≡ sized hexadecimal suffixed (value_of hexadecimal digits.now) }
{
    match value_of(hexadecimal, digits) {
        Some(n) if !suffixed && n < 1 << 31 => Ok(Literal::Int(n)),
        Some(n) if suffixed || hexadecimal => Ok(Literal::Uint(n)),
        _ => Err(TextFault::NumberTooLarge),
    }
}

/// The number that digits stand for, where 32 bits hold it.
fn value_of(hexadecimal: bool, digits: &[u8]) -> Option<u32>
    ensures { MatchOption result (2 ^ 32 ≤ value_of hexadecimal digits.now) (λ n. n ≡ value_of hexadecimal digits.now) }
{
    let base = if hexadecimal { 16 } else { 10 };
    let mut n: u32 = 0;
    for b in digits {
        let Some(higher) = n.checked_mul(base) else {
            return None;
        };
        let Some(sum) = higher.checked_add(u32::from(digit_value(*b))) else {
            return None;
        };
        n = sum;
    }
    Some(n)
}
