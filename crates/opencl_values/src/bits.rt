//! Numbers, and elements of memory, by their bits.

ghost use Rattle.std.specs.Prelude.{◌≡◌, IfOk};
ghost use Rattle.core_code.specs.View.{site, term};
ghost use Rattle.opencl_terms.specs.Conversions as conversions;
ghost use Rattle.opencl_terms.specs.View.{scalar as scalar_seen};
ghost use Rattle.opencl_values.specs.Bits as rules;

use core_code::tree::{Direction, Operator, Site, Term};
use core_pieces::copies::copy_of;
use core_pieces::pieces::{binary, convert, literal, shift};
use opencl_terms::narrowing::{bits_as_uint, masked, narrowed};
use opencl_terms::scalars::Scalar;
use std::alloc::{AllocError, Global};
use words::Kind;

fn upper_half(alloc: Global, at: Site, of: Term) -> Result<Term, AllocError>
    ensures { IfOk result (λ t. term t ≡ rules.upper_half (site at) (term of)) }
{
    let half = shift(
        alloc,
        Direction::Rightward,
        Kind::Uint,
        of,
        literal(Kind::Uint, 16),
    )?;
    narrowed(alloc, Scalar::Short, at, half)
}

fn lower_half(alloc: Global, at: Site, of: Term) -> Result<Term, AllocError>
    ensures { IfOk result (λ t. term t ≡ conversions.low_bits (site at) 65535 (term of)) }
{
    let low = masked(alloc, at, 65535, of)?;
    convert(alloc, Kind::Int, at, low)
}

/// The `int` that has the bits of a `uint` (OpenCL 1.2, 6.2.4.2).
pub fn bits_as_int(alloc: Global, at: Site, of: Term) -> Result<Term, AllocError>
    ensures { IfOk result (λ t. term t ≡ rules.bits_as_int (site at) (term of)) }
{
    let again = copy_of(alloc, &of)?;
    let upper = upper_half(alloc, at, of)?;
    let halves = literal(Kind::Int, 65536);
    let upper = binary(alloc, Operator::Multiply, Kind::Int, at, upper, halves)?;
    let lower = lower_half(alloc, at, again)?;
    binary(alloc, Operator::Add, Kind::Int, at, upper, lower)
}

/// Whether a scalar has elements in memory.
pub fn is_in_memory(of: Scalar) -> bool
    ensures { result ≡ rules.is_in_memory (scalar_seen of) }
{
    !matches!(of, Scalar::Boolean | Scalar::Size | Scalar::Long)
}

/// What an element's word is: its bits as a `uint`, but for an `int`.
pub fn word_of(of: Scalar) -> Scalar
    ensures { scalar_seen result ≡ rules.word_of (scalar_seen of) }
{
    match of {
        Scalar::Int => Scalar::Int,
        _ => Scalar::Uint,
    }
}

fn lowest(alloc: Global, of: Scalar, at: Site, bits: Term) -> Result<Term, AllocError>
    ensures { IfOk result (λ t. term t ≡ rules.lowest (scalar_seen of) (site at) (term bits)) }
{
    match of {
        Scalar::Char | Scalar::Uchar => masked(alloc, at, 255, bits),
        Scalar::Short | Scalar::Ushort => masked(alloc, at, 65535, bits),
        _ => Ok(bits),
    }
}

/// The bits of an element, by its word, as a `uint`.
pub fn bits_of_word(alloc: Global, of: Scalar, at: Site, word: Term) -> Result<Term, AllocError>
    ensures { IfOk result (λ t. term t ≡ rules.bits_of_word (scalar_seen of) (site at) (term word)) }
{
    match of {
        Scalar::Int => bits_as_uint(alloc, at, word),
        _ => lowest(alloc, of, at, word),
    }
}

/// The word of an element that has the lowest bits of a `uint`.
pub fn word_of_bits(alloc: Global, of: Scalar, at: Site, bits: Term) -> Result<Term, AllocError>
    ensures { IfOk result (λ t. term t ≡ rules.word_of_bits (scalar_seen of) (site at) (term bits)) }
{
    match of {
        Scalar::Int => bits_as_int(alloc, at, bits),
        _ => lowest(alloc, of, at, bits),
    }
}

/// The number of a scalar that has these bits.
pub fn number_of_bits(alloc: Global, of: Scalar, at: Site, bits: Term) -> Result<Term, AllocError>
    ensures { IfOk result (λ t. term t ≡ rules.number_of_bits (scalar_seen of) (site at) (term bits)) }
{
    match of {
        Scalar::Int => bits_as_int(alloc, at, bits),
        _ => narrowed(alloc, of, at, bits),
    }
}

/// The bits of a number, of which the lowest are its own.
pub fn bits_of_number(alloc: Global, of: Scalar, at: Site, number: Term) -> Result<Term, AllocError>
    ensures { IfOk result (λ t. term t ≡ rules.bits_of_number (scalar_seen of) (site at) (term number)) }
{
    match of {
        Scalar::Uint | Scalar::Size | Scalar::Float => Ok(number),
        _ => bits_as_uint(alloc, at, number),
    }
}
