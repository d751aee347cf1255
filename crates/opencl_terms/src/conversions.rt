//! Conversions of a component from scalar to scalar.

ghost use Rattle.std.specs.Prelude.{◌≡◌, IfOk};
ghost use Rattle.core_code.specs.View.{site, term};
ghost use Rattle.opencl_terms.specs.Conversions as rules;
ghost use Rattle.opencl_terms.specs.View.{scalar};
ghost use Rattle.words.specs.View.{kind as kind_seen};

use crate::narrowing::narrowed;
use crate::operations::{Operation, is_not_zero, of_one};
use crate::pieces::{compare, convert, literal};
use crate::scalars::Scalar;
use core_code::tree::{Relation, Site, Term};
use std::alloc::{AllocError, Global};
use words::Kind;

// Whether each number of a scalar is one of another, which is narrow.
fn fits_in(from: Scalar, to: Scalar) -> bool
    ensures { result ≡ rules.fits_in (scalar from) (scalar to) }
{
    match (from, to) {
        (Scalar::Boolean, _)
        | (Scalar::Char, Scalar::Char | Scalar::Short)
        | (Scalar::Uchar, Scalar::Uchar | Scalar::Short | Scalar::Ushort)
        | (Scalar::Short, Scalar::Short)
        | (Scalar::Ushort, Scalar::Ushort) => true,
        _ => false,
    }
}

/// A value as a test (C99 6.8.4.1p2).
pub fn tested(alloc: Global, from: Scalar, of: Term) -> Result<Term, AllocError>
    ensures { IfOk result (λ t. term t ≡ rules.tested (scalar from) (term of)) }
{
    match from {
        Scalar::Float => is_not_zero(alloc, of),
        _ => Ok(of),
    }
}

/// A value as a `bool` (C99 6.3.1.2).
pub fn truth(alloc: Global, ids: Kind, from: Scalar, of: Term) -> Result<Term, AllocError>
    ensures { IfOk result (λ t. term t ≡ rules.truth (kind_seen ids) (scalar from) (term of)) }
{
    match from {
        Scalar::Boolean => Ok(of),
        Scalar::Float => is_not_zero(alloc, of),
        Scalar::Uint => compare(
            alloc,
            Relation::Unequal,
            Kind::Uint,
            of,
            literal(Kind::Uint, 0),
        ),
        Scalar::Size => compare(alloc, Relation::Unequal, ids, of, literal(Kind::Uint, 0)),
        _ => compare(
            alloc,
            Relation::Unequal,
            Kind::Int,
            of,
            literal(Kind::Int, 0),
        ),
    }
}

fn as_int(alloc: Global, from: Scalar, at: Site, of: Term) -> Result<Term, AllocError>
    ensures { IfOk result (λ t. term t ≡ rules.as_int (scalar from) (site at) (term of)) }
{
    match from {
        Scalar::Float => of_one(alloc, Operation::ToInt, Kind::Int, of),
        Scalar::Uint | Scalar::Size => convert(alloc, Kind::Int, at, of),
        _ => Ok(of),
    }
}

/// A component as a `uint`: an integer modulo 2^32 (C99 6.3.1.3p2).
pub fn as_uint(alloc: Global, from: Scalar, at: Site, of: Term) -> Result<Term, AllocError>
    ensures { IfOk result (λ t. term t ≡ rules.as_uint (scalar from) (site at) (term of)) }
{
    match from {
        Scalar::Float => of_one(alloc, Operation::ToUint, Kind::Uint, of),
        Scalar::Uint => Ok(of),
        _ => convert(alloc, Kind::Uint, at, of),
    }
}

fn as_size(alloc: Global, ids: Kind, from: Scalar, at: Site, of: Term) -> Result<Term, AllocError>
    ensures { IfOk result (λ t. term t ≡ rules.as_size (kind_seen ids) (scalar from) (site at) (term of)) }
{
    match from {
        Scalar::Float => {
            let of = of_one(alloc, Operation::ToUint, Kind::Uint, of)?;
            convert(alloc, ids, at, of)
        }
        Scalar::Size => Ok(of),
        _ => convert(alloc, ids, at, of),
    }
}

/// A component as a `long`, which is an `int` term: what is no `int` is a fault.
pub fn as_long(alloc: Global, from: Scalar, at: Site, of: Term) -> Result<Term, AllocError>
    ensures { IfOk result (λ t. term t ≡ rules.as_long (scalar from) (site at) (term of)) }
{
    match from {
        Scalar::Float => {
            let of = of_one(alloc, Operation::ToUint, Kind::Uint, of)?;
            convert(alloc, Kind::Int, at, of)
        }
        _ => as_int(alloc, from, at, of),
    }
}

/// A component as a float (C99 6.3.1.4p2).
pub fn as_float(alloc: Global, from: Scalar, of: Term) -> Result<Term, AllocError>
    ensures { IfOk result (λ t. term t ≡ rules.as_float (scalar from) (term of)) }
{
    match from {
        Scalar::Float => Ok(of),
        Scalar::Uint => of_one(alloc, Operation::OfUint, Kind::Uint, of),
        Scalar::Size => of_one(alloc, Operation::OfSize, Kind::Uint, of),
        _ => of_one(alloc, Operation::OfInt, Kind::Uint, of),
    }
}

fn bits_to_keep(alloc: Global, from: Scalar, at: Site, of: Term) -> Result<Term, AllocError>
    ensures { IfOk result (λ t. term t ≡ rules.bits_to_keep (scalar from) (site at) (term of)) }
{
    match from {
        Scalar::Float => {
            let of = of_one(alloc, Operation::ToInt, Kind::Int, of)?;
            convert(alloc, Kind::Uint, at, of)
        }
        _ => as_uint(alloc, from, at, of),
    }
}

fn as_narrow(
    alloc: Global,
    from: Scalar,
    to: Scalar,
    at: Site,
    of: Term,
) -> Result<Term, AllocError>
    ensures { IfOk result (λ t. term t ≡ rules.as_narrow (scalar from) (scalar to) (site at) (term of)) }
{
    if fits_in(from, to) {
        return Ok(of);
    }
    let of = bits_to_keep(alloc, from, at, of)?;
    narrowed(alloc, to, at, of)
}

/// The term of a component, converted (C99 6.3.1; OpenCL 1.2, 6.2).
pub fn converted(
    alloc: Global,
    ids: Kind,
    from: Scalar,
    to: Scalar,
    at: Site,
    of: Term,
) -> Result<Term, AllocError>
    ensures { IfOk result (λ t. term t ≡ rules.converted (kind_seen ids) (scalar from) (scalar to) (site at) (term of)) }
{
    match to {
        Scalar::Boolean => truth(alloc, ids, from, of),
        Scalar::Char | Scalar::Uchar | Scalar::Short | Scalar::Ushort => {
            as_narrow(alloc, from, to, at, of)
        }
        Scalar::Int => as_int(alloc, from, at, of),
        Scalar::Uint => as_uint(alloc, from, at, of),
        Scalar::Long => as_long(alloc, from, at, of),
        Scalar::Size => as_size(alloc, ids, from, at, of),
        Scalar::Float => as_float(alloc, from, of),
    }
}
