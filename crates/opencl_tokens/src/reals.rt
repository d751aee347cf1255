//! Floating constants as they are written.

ghost use Rattle.std.specs.Prelude.{◌≡◌, ◌<◌, length, nat_lt, true};
ghost use Rattle.opencl_tokens.specs.Numbers.{ended, begins_sum_sign, exponent, signed_exponent, is_exponent, begins_exponent, is_decimal, behind_digits, behind_point, behind_whole, real_in, real_of};
ghost use Rattle.opencl_tokens.specs.Seen.{radix, kind_seen};

use crate::numbers::{Radix, digits_len, is_prefixed};
use crate::pieces::is_sum_sign;
use crate::{LexemeKind, TextFault, Word};

/// Reads the spelling of a floating constant (C99 6.4.4.2), or its fault.
pub fn real_of(spelling: &[u8]) -> Result<LexemeKind<'_>, TextFault>
    ensures { kind_seen result ≡ real_of spelling.now }
{
    if is_prefixed(spelling) {
        real_in(Radix::Hexadecimal, spelling, &spelling[2..])
    } else {
        real_in(Radix::Decimal, spelling, spelling)
    }
}

fn real_in<'a>(base: Radix, spelling: &'a [u8], bytes: &[u8]) -> Result<LexemeKind<'a>, TextFault>
    ensures { kind_seen result ≡ real_in (radix base) spelling.now bytes.now }
{
    let count = digits_len(base, bytes);
    behind_whole(base, spelling, count > 0, &bytes[count..])
}

/// What stands behind the digits before a point.
fn behind_whole<'a>(
    base: Radix,
    spelling: &'a [u8],
    some: bool,
    rest: &[u8],
) -> Result<LexemeKind<'a>, TextFault>
    ensures { kind_seen result ≡ behind_whole (radix base) spelling.now some rest.now }
{
    if rest.starts_with(b".") {
        behind_point(base, spelling, some, &rest[1..])
    } else {
        behind_digits(base, spelling, some, false, rest)
    }
}

/// The digits behind a point.
fn behind_point<'a>(
    base: Radix,
    spelling: &'a [u8],
    some: bool,
    rest: &[u8],
) -> Result<LexemeKind<'a>, TextFault>
    ensures { kind_seen result ≡ behind_point (radix base) spelling.now some rest.now }
{
    let count = digits_len(base, rest);
    behind_digits(
        base,
        spelling,
        some || count > 0,
        is_decimal(base),
        &rest[count..],
    )
}

fn is_decimal(base: Radix) -> bool
    ensures { result ≡ is_decimal (radix base) }
{
    match base {
        Radix::Octal | Radix::Hexadecimal => false,
        Radix::Decimal => true,
    }
}

/// What stands behind all digits, of which there are some: an exponent, or none where it may be missing.
fn behind_digits<'a>(
    base: Radix,
    spelling: &'a [u8],
    some: bool,
    can_end: bool,
    rest: &[u8],
) -> Result<LexemeKind<'a>, TextFault>
    ensures { kind_seen result ≡ behind_digits (radix base) spelling.now some can_end rest.now }
{
    if some && begins_exponent(base, rest) {
        signed_exponent(spelling, &rest[1..])
    } else if some && can_end {
        ended(spelling, rest)
    } else {
        Err(TextFault::BadNumber)
    }
}

fn is_exponent(base: Radix, b: u8) -> bool
    ensures { result ≡ is_exponent (radix base) b }
{
    match base {
        Radix::Octal => false,
        Radix::Decimal => b == b'e' || b == b'E',
        Radix::Hexadecimal => b == b'p' || b == b'P',
    }
}

fn begins_exponent(base: Radix, bytes: &[u8]) -> bool
    ensures value { result ≡ begins_exponent (radix base) bytes.now }
    ensures some { result ≡ true → 0 < length bytes.now }
{
    match bytes {
        [] => false,
        [b, ..] => is_exponent(base, *b),
    }
}

fn begins_sum_sign(bytes: &[u8]) -> bool
    ensures value { result ≡ begins_sum_sign bytes.now }
    ensures some { result ≡ true → 0 < length bytes.now }
{
    match bytes {
        [] => false,
        [b, ..] => is_sum_sign(*b),
    }
}

/// What stands behind the letter of an exponent.
fn signed_exponent<'a>(spelling: &'a [u8], rest: &[u8]) -> Result<LexemeKind<'a>, TextFault>
    ensures { kind_seen result ≡ signed_exponent spelling.now rest.now }
{
    if begins_sum_sign(rest) {
        exponent(spelling, &rest[1..])
    } else {
        exponent(spelling, rest)
    }
}

/// The digits of an exponent, one or more.
fn exponent<'a>(spelling: &'a [u8], rest: &[u8]) -> Result<LexemeKind<'a>, TextFault>
    ensures { kind_seen result ≡ exponent spelling.now rest.now }
{
    let count = digits_len(Radix::Decimal, rest);
    if count > 0 {
        ended(spelling, &rest[count..])
    } else {
        Err(TextFault::BadNumber)
    }
}

/// What may follow a floating constant.
fn ended<'a>(spelling: &'a [u8], suffix: &[u8]) -> Result<LexemeKind<'a>, TextFault>
    ensures { kind_seen result ≡ ended spelling.now suffix.now }
{
    match suffix {
        [] | [b'f' | b'F'] => Ok(LexemeKind::Real(spelling)),
        [b'h' | b'H'] => Err(TextFault::LeftOut(Word::Half)),
        _ => Err(TextFault::BadNumber),
    }
}
