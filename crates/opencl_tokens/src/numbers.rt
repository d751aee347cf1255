//! Numbers as they are written.

ghost use Rattle.std.specs.Prelude.{◌≡◌, ◌≤◌, ◌^◌, length, map, true, MatchOption};
ghost use Rattle.texts.specs.Numbers.{digit_value, is_prefixed};
ghost use Rattle.lines.specs.Bytes.{is_decimal_digit};
ghost use Rattle.opencl_tokens.specs.Numbers.{suffixes, suffix_of, digits_len, is_digit, value_of, base_of, may_be_uint, Plain, Unsigned, sized, integer_of, number_in, number_of};
ghost use Rattle.opencl_tokens.specs.Seen.{radix, suffix, suffix_entry, suffix_seen, kind_seen};

use crate::reals::real_of;
use crate::{LexemeKind, Literal, TextFault, Word};

#[derive(Clone, Copy)]
pub enum Radix {
    Octal,
    Decimal,
    Hexadecimal,
}

/// The suffix of an integer; `Long` is any of 64 bits.
#[derive(Clone, Copy)]
pub enum Suffix {
    Plain,
    Unsigned,
    Long,
}

/// The suffixes of integers, as they are written.
static SUFFIXES: [(&[u8], Suffix); 23] = [
    (b"", Suffix::Plain),
    (b"u", Suffix::Unsigned),
    (b"U", Suffix::Unsigned),
    (b"l", Suffix::Long),
    (b"L", Suffix::Long),
    (b"ll", Suffix::Long),
    (b"LL", Suffix::Long),
    (b"ul", Suffix::Long),
    (b"uL", Suffix::Long),
    (b"ull", Suffix::Long),
    (b"uLL", Suffix::Long),
    (b"Ul", Suffix::Long),
    (b"UL", Suffix::Long),
    (b"Ull", Suffix::Long),
    (b"ULL", Suffix::Long),
    (b"lu", Suffix::Long),
    (b"Lu", Suffix::Long),
    (b"llu", Suffix::Long),
    (b"LLu", Suffix::Long),
    (b"lU", Suffix::Long),
    (b"LU", Suffix::Long),
    (b"llU", Suffix::Long),
    (b"LLU", Suffix::Long),
];

/// The suffixes of integers, as they are written.
#[tactic(auto, unfolding(crate::specs::Numbers::suffixes))]
fn suffixes() -> &'static [(&'static [u8], Suffix)]
    ensures { map suffix_entry result.now ≡ suffixes }
{
    &SUFFIXES
}

fn suffix_of(bytes: &[u8]) -> Option<Suffix>
    ensures { suffix_seen result ≡ suffix_of bytes.now }
{
    for (text, suffix) in suffixes() {
        if *text == bytes {
            return Some(*suffix);
        }
    }
    None
}

pub fn is_decimal_digit(b: u8) -> bool
    ensures { result ≡ is_decimal_digit b }
{
    48 <= b && b <= 57
}

pub fn is_digit(base: Radix, b: u8) -> bool
    ensures { result ≡ is_digit (radix base) b }
{
    match base {
        Radix::Octal => 48 <= b && b <= 55,
        Radix::Decimal => is_decimal_digit(b),
        Radix::Hexadecimal => is_decimal_digit(b) || (97 <= b && b <= 102 || 65 <= b && b <= 70),
    }
}

/// The number of digits at the front.
pub fn digits_len(base: Radix, bytes: &[u8]) -> usize
    ensures digits { result ≡ digits_len (radix base) bytes.now }
    ensures within { result ≤ length bytes.now }
{
    for (i, b) in bytes.iter().enumerate() {
        if !is_digit(base, *b) {
            return i;
        }
    }
    bytes.len()
}

fn digit_value(b: u8) -> u8
    ensures { result ≡ digit_value b }
{
    if is_decimal_digit(b) {
        b.saturating_sub(48)
    } else if 97 <= b {
        b.saturating_sub(87)
    } else {
        b.saturating_sub(55)
    }
}

fn base_of(base: Radix) -> u32
    ensures { result ≡ base_of (radix base) }
{
    match base {
        Radix::Octal => 8,
        Radix::Decimal => 10,
        Radix::Hexadecimal => 16,
    }
}

/// The number that digits stand for, where 32 bits hold it.
pub fn value_of(base: Radix, digits: &[u8]) -> Option<u32>
    ensures { MatchOption result (2 ^ 32 ≤ value_of (radix base) digits.now) (λ n. n ≡ value_of (radix base) digits.now) }
{
    let times = base_of(base);
    let mut n: u32 = 0;
    for b in digits {
        let Some(higher) = n.checked_mul(times) else {
            return None;
        };
        let Some(sum) = higher.checked_add(u32::from(digit_value(*b))) else {
            return None;
        };
        n = sum;
    }
    Some(n)
}

/// A whole number, past `0x` hexadecimal, with a first digit 0 octal; or a floating constant.
pub fn number_of(spelling: &[u8]) -> Result<LexemeKind<'_>, TextFault>
    ensures { kind_seen result ≡ number_of spelling.now }
{
    if is_prefixed(spelling) {
        number_in(Radix::Hexadecimal, spelling, &spelling[2..])
    } else if spelling.starts_with(b"0") {
        number_in(Radix::Octal, spelling, spelling)
    } else {
        number_in(Radix::Decimal, spelling, spelling)
    }
}

pub fn is_prefixed(spelling: &[u8]) -> bool
    ensures prefixed { result ≡ is_prefixed spelling.now }
    ensures long { result ≡ true → 2 ≤ length spelling.now }
{
    spelling.starts_with(b"0x") || spelling.starts_with(b"0X")
}

fn number_in<'a>(base: Radix, spelling: &'a [u8], bytes: &[u8]) -> Result<LexemeKind<'a>, TextFault>
    ensures { kind_seen result ≡ number_in (radix base) spelling.now bytes.now }
{
    let count = digits_len(base, bytes);
    match suffix_of(&bytes[count..]) {
        Some(suffix) => integer_of(base, &bytes[..count], suffix),
        None => real_of(spelling),
    }
}

/// An integer of these digits.
fn integer_of(base: Radix, digits: &[u8], end: Suffix) -> Result<LexemeKind<'static>, TextFault>
    ensures { kind_seen result ≡ integer_of (radix base) digits.now (suffix end) }
{
    if digits.is_empty() {
        return Err(TextFault::BadNumber);
    }
    sized(base, end, digits)
}

fn may_be_uint(base: Radix) -> bool
    ensures { result ≡ may_be_uint (radix base) }
{
    match base {
        Radix::Octal | Radix::Hexadecimal => true,
        Radix::Decimal => false,
    }
}

fn sized(base: Radix, end: Suffix, digits: &[u8]) -> Result<LexemeKind<'static>, TextFault>
    ensures { kind_seen result ≡ sized (radix base) (suffix end) (value_of (radix base) digits.now) }
{
    match end {
        Suffix::Plain => plain(base, digits),
        Suffix::Unsigned => unsigned(base, digits),
        Suffix::Long => Err(TextFault::LeftOut(Word::Long)),
    }
}

/// A number without suffix.
fn plain(base: Radix, digits: &[u8]) -> Result<LexemeKind<'static>, TextFault>
    ensures { kind_seen result ≡ sized (radix base) Plain (value_of (radix base) digits.now) }
{
    match value_of(base, digits) {
        Some(n) if n < 1 << 31 => Ok(LexemeKind::Integer(Literal::Int(n))),
        Some(n) if may_be_uint(base) => Ok(LexemeKind::Integer(Literal::Uint(n))),
        _ => Err(TextFault::NumberTooLarge),
    }
}

/// A number with the suffix `u`.
fn unsigned(base: Radix, digits: &[u8]) -> Result<LexemeKind<'static>, TextFault>
    ensures { kind_seen result ≡ sized (radix base) Unsigned (value_of (radix base) digits.now) }
{
    match value_of(base, digits) {
        Some(n) => Ok(LexemeKind::Integer(Literal::Uint(n))),
        None => Err(TextFault::NumberTooLarge),
    }
}
