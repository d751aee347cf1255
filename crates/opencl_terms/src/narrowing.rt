//! Elements and numbers of few bits.

ghost use Rattle.std.specs.Prelude.{◌≡◌, IfOk};
ghost use Rattle.semantics.specs.Core as core;
ghost use Rattle.semantics.specs.Word as word;
ghost use Rattle.core_code.specs.View.{site, term};
ghost use Rattle.opencl_terms.specs.Conversions as rules;
ghost use Rattle.opencl_terms.specs.View.{scalar};

use crate::pieces::{binary, convert, literal};
use crate::scalars::Scalar;
use core_code::tree::{Operator, Site, Term};
use std::alloc::{AllocError, Global};
use words::Kind;

/// The bits of a `uint` that a mask has.
pub fn masked(alloc: Global, at: Site, mask: u32, of: Term) -> Result<Term, AllocError>
    ensures { IfOk result (λ t. term t ≡ rules.masked (site at) mask (term of)) }
{
    binary(
        alloc,
        Operator::BitAnd,
        Kind::Uint,
        at,
        of,
        literal(Kind::Uint, mask),
    )
}

fn low_bits(alloc: Global, at: Site, mask: u32, of: Term) -> Result<Term, AllocError>
    ensures { IfOk result (λ t. term t ≡ rules.low_bits (site at) mask (term of)) }
{
    let of = masked(alloc, at, mask, of)?;
    convert(alloc, Kind::Int, at, of)
}

fn signed_bits(
    alloc: Global,
    at: Site,
    mask: u32,
    highest: u32,
    of: Term,
) -> Result<Term, AllocError>
    ensures { IfOk result (λ t. term t ≡ rules.signed_bits (site at) mask highest (term of)) }
{
    let low = low_bits(alloc, at, mask, of)?;
    let turned = binary(
        alloc,
        Operator::BitXor,
        Kind::Int,
        at,
        low,
        literal(Kind::Int, highest),
    )?;
    binary(
        alloc,
        Operator::Subtract,
        Kind::Int,
        at,
        turned,
        literal(Kind::Int, highest),
    )
}

/// The low bits of a `uint` as a number of a narrow scalar (C99 6.3.1.3p2); of another scalar the term itself.
pub fn narrowed(alloc: Global, to: Scalar, at: Site, of: Term) -> Result<Term, AllocError>
    ensures { IfOk result (λ t. term t ≡ rules.narrowed (scalar to) (site at) (term of)) }
{
    match to {
        Scalar::Char => signed_bits(alloc, at, 255, 128, of),
        Scalar::Uchar => low_bits(alloc, at, 255, of),
        Scalar::Short => signed_bits(alloc, at, 65535, 32768, of),
        Scalar::Ushort => low_bits(alloc, at, 65535, of),
        Scalar::Boolean
        | Scalar::Int
        | Scalar::Uint
        | Scalar::Long
        | Scalar::Size
        | Scalar::Float => Ok(of),
    }
}

/// The value of a load of an element of a scalar, by the word that memory has (OpenCL 1.2, 6.1.1).
pub fn loaded(alloc: Global, from: Scalar, at: Site, of: Term) -> Result<Term, AllocError>
    ensures { IfOk result (λ t. term t ≡ rules.loaded (scalar from) (site at) (term of)) }
{
    narrowed(alloc, from, at, of)
}

fn kept(alloc: Global, at: Site, mask: u32, of: Term) -> Result<Term, AllocError>
    ensures { IfOk result (λ t. term t ≡ rules.masked (site at) mask (core.Convert word.Uint (site at) (term of))) }
{
    let of = convert(alloc, Kind::Uint, at, of)?;
    masked(alloc, at, mask, of)
}

/// The word that a store of a value of a scalar keeps.
pub fn stored(alloc: Global, to: Scalar, at: Site, of: Term) -> Result<Term, AllocError>
    ensures { IfOk result (λ t. term t ≡ rules.stored (scalar to) (site at) (term of)) }
{
    match to {
        Scalar::Char | Scalar::Uchar => kept(alloc, at, 255, of),
        Scalar::Short | Scalar::Ushort => kept(alloc, at, 65535, of),
        Scalar::Boolean
        | Scalar::Int
        | Scalar::Uint
        | Scalar::Long
        | Scalar::Size
        | Scalar::Float => Ok(of),
    }
}

/// The `uint` that has the bits of an `int` (6.2.4.2).
pub fn bits_as_uint(alloc: Global, at: Site, of: Term) -> Result<Term, AllocError>
    ensures { IfOk result (λ t. term t ≡ rules.bits_as_uint (site at) (term of)) }
{
    convert(alloc, Kind::Uint, at, of)
}
