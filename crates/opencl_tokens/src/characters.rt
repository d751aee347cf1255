//! Character constants as they are written.

ghost use Rattle.std.specs.Prelude.{◌≡◌, ◌≤◌, length, nat_eq};
ghost use Rattle.std.specs.List.{find};
ghost use Rattle.opencl_tokens.specs.Characters.{character, byte, numbered, escapes, simple, escape, plain, character_in, character_of};
ghost use Rattle.opencl_tokens.specs.Numbers.{value_of};
ghost use Rattle.opencl_tokens.specs.Seen.{radix, lexeme_kind, kind_seen};

use crate::numbers::{Radix, digits_len, is_digit, value_of};
use crate::{LexemeKind, Literal, TextFault};

/// The character constant with its quotes.
pub fn character_of(spelling: &[u8]) -> Result<LexemeKind<'static>, TextFault>
    ensures { kind_seen result ≡ character_of spelling.now }
{
    if spelling.len() < 2 {
        return Err(TextFault::BadNumber);
    }
    let count = spelling.len() - 2;
    let behind = &spelling[1..];
    character_in(&behind[..count])
}

/// What stands between the quotes.
fn character_in(bytes: &[u8]) -> Result<LexemeKind<'static>, TextFault>
    ensures { kind_seen result ≡ character_in bytes.now }
{
    match bytes {
        [] => Err(TextFault::BadNumber),
        [b] => plain(*b),
        [b, c, ..] => {
            if *b == b'\\' {
                escape(*c, &bytes[1..])
            } else {
                Err(TextFault::BadNumber)
            }
        }
    }
}

/// One byte for itself.
fn plain(b: u8) -> Result<LexemeKind<'static>, TextFault>
    ensures { kind_seen result ≡ plain b }
{
    if b < 128 && b != b'\\' {
        Ok(character(b))
    } else {
        Err(TextFault::BadNumber)
    }
}

/// The 32 bits of a signed `char`.
fn character(n: u8) -> LexemeKind<'static>
    ensures { lexeme_kind result ≡ character n }
{
    if n < 128 {
        LexemeKind::Integer(Literal::Int(u32::from(n)))
    } else {
        LexemeKind::Integer(Literal::Int(u32::from(n) + 4_294_967_040))
    }
}

/// An escape: what stands behind its `\`, of which `c` is the first byte.
fn escape(c: u8, bytes: &[u8]) -> Result<LexemeKind<'static>, TextFault>
    requires { 1 ≤ length bytes.now }
    ensures { kind_seen result ≡ escape c bytes.now }
{
    if c == b'x' {
        numbered(Radix::Hexadecimal, &bytes[1..])
    } else if is_digit(Radix::Octal, c) && bytes.len() <= 3 {
        numbered(Radix::Octal, bytes)
    } else if bytes.len() == 1 {
        simple(c)
    } else {
        Err(TextFault::BadNumber)
    }
}

/// An escape by its digits.
fn numbered(base: Radix, digits: &[u8]) -> Result<LexemeKind<'static>, TextFault>
    ensures { kind_seen result ≡ numbered (radix base) digits.now }
{
    if !digits.is_empty() && digits_len(base, digits) == digits.len() {
        byte_of(base, digits)
    } else {
        Err(TextFault::BadNumber)
    }
}

/// The number of a byte.
fn byte_of(base: Radix, digits: &[u8]) -> Result<LexemeKind<'static>, TextFault>
    ensures { kind_seen result ≡ byte (value_of (radix base) digits.now) }
{
    match value_of(base, digits) {
        Some(n) if n < 256 => Ok(character(n as u8)),
        _ => Err(TextFault::BadNumber),
    }
}

/// The characters behind the `\` of simple escapes, each with its number.
static ESCAPES: [(u8, u8); 11] = [
    (b'\'', 39),
    (b'"', 34),
    (b'?', 63),
    (b'\\', 92),
    (b'a', 7),
    (b'b', 8),
    (b'f', 12),
    (b'n', 10),
    (b'r', 13),
    (b't', 9),
    (b'v', 11),
];

/// The characters behind the `\` of simple escapes, each with its number.
#[tactic(auto, unfolding(crate::specs::Characters::escapes))]
fn escapes() -> &'static [(u8, u8)]
    ensures { result.now ≡ escapes }
{
    &ESCAPES
}

fn simple(c: u8) -> Result<LexemeKind<'static>, TextFault>
    ensures { kind_seen result ≡ simple (find (λ entry. nat_eq entry.0 c) escapes) }
{
    for (letter, number) in escapes() {
        if *letter == c {
            return Ok(character(*number));
        }
    }
    Err(TextFault::BadNumber)
}
