//! Conversions to the closest number, and bits as another type.

ghost use Rattle.std.specs.Prelude.{◌≡◌, ◌≤◌, IfOk};
ghost use Rattle.core_code.specs.View.{site, term};
ghost use Rattle.opencl_terms.specs.View.{scalar as scalar_seen};
ghost use Rattle.opencl_values.specs.Saturation as rules;
ghost use Rattle.words.specs.View.{kind as kind_seen};

use crate::bits::bits_as_int;
use core_code::tree::{Site, Term, UnaryOperator};
use core_pieces::pieces::{convert, literal, maximum, minimum, unary};
use opencl_terms::conversions::converted;
use opencl_terms::narrowing::bits_as_uint;
use opencl_terms::operations::{Operation, of_one};
use opencl_terms::scalars::Scalar;
use std::alloc::{AllocError, Global};
use words::Kind;

fn greatest(of: Scalar) -> u32
    ensures { result ≡ rules.greatest (scalar_seen of) }
{
    match of {
        Scalar::Char => 127,
        Scalar::Uchar => 255,
        Scalar::Short => 32767,
        Scalar::Ushort => 65535,
        _ => 2147483647,
    }
}

fn least(alloc: Global, at: Site, of: Scalar) -> Result<Term, AllocError>
    ensures { IfOk result (λ t. term t ≡ rules.least (site at) (scalar_seen of)) }
{
    match of {
        Scalar::Char => unary(
            alloc,
            UnaryOperator::Negate,
            Kind::Int,
            at,
            literal(Kind::Int, 128),
        ),
        Scalar::Short => unary(
            alloc,
            UnaryOperator::Negate,
            Kind::Int,
            at,
            literal(Kind::Int, 32768),
        ),
        _ => Ok(literal(Kind::Int, 0)),
    }
}

fn closest(alloc: Global, at: Site, to: Scalar, of: Term) -> Result<Term, AllocError>
    ensures { IfOk result (λ t. term t ≡ rules.closest (site at) (scalar_seen to) (term of)) }
{
    let least = least(alloc, at, to)?;
    let above = maximum(alloc, of, least)?;
    minimum(alloc, above, literal(Kind::Int, greatest(to)))
}

fn saturated_int(alloc: Global, at: Site, to: Scalar, of: Term) -> Result<Term, AllocError>
    ensures { IfOk result (λ t. term t ≡ rules.saturated_int (site at) (scalar_seen to) (term of)) }
{
    match to {
        Scalar::Int => Ok(of),
        Scalar::Uint => {
            let above = maximum(alloc, of, literal(Kind::Int, 0))?;
            convert(alloc, Kind::Uint, at, above)
        }
        _ => closest(alloc, at, to, of),
    }
}

fn saturated_uint(alloc: Global, at: Site, to: Scalar, of: Term) -> Result<Term, AllocError>
    ensures { IfOk result (λ t. term t ≡ rules.saturated_uint (site at) (scalar_seen to) (term of)) }
{
    match to {
        Scalar::Uint => Ok(of),
        _ => {
            let below = minimum(alloc, of, literal(Kind::Uint, greatest(to)))?;
            convert(alloc, Kind::Int, at, below)
        }
    }
}

// The smaller of a size and a number.
fn size_below(
    alloc: Global,
    ids: Kind,
    at: Site,
    greatest: u32,
    of: Term,
) -> Result<Term, AllocError>
    ensures { IfOk result (λ t. term t ≡ rules.size_below (kind_seen ids) (site at) greatest (term of)) }
{
    let greatest = convert(alloc, ids, at, literal(Kind::Uint, greatest))?;
    minimum(alloc, of, greatest)
}

fn saturated_size(
    alloc: Global,
    ids: Kind,
    at: Site,
    to: Scalar,
    of: Term,
) -> Result<Term, AllocError>
    ensures { IfOk result (λ t. term t ≡ rules.saturated_size (kind_seen ids) (site at) (scalar_seen to) (term of)) }
{
    match to {
        Scalar::Uint => {
            let below = size_below(alloc, ids, at, 4294967295, of)?;
            convert(alloc, Kind::Uint, at, below)
        }
        _ => {
            let below = size_below(alloc, ids, at, greatest(to), of)?;
            convert(alloc, Kind::Int, at, below)
        }
    }
}

fn saturated_float(alloc: Global, at: Site, to: Scalar, of: Term) -> Result<Term, AllocError>
    ensures { IfOk result (λ t. term t ≡ rules.saturated_float (site at) (scalar_seen to) (term of)) }
{
    match to {
        Scalar::Int => of_one(alloc, Operation::ToInt, Kind::Int, of),
        Scalar::Uint => of_one(alloc, Operation::ToUint, Kind::Uint, of),
        _ => {
            let whole = of_one(alloc, Operation::ToInt, Kind::Int, of)?;
            closest(alloc, at, to, whole)
        }
    }
}

/// The closest number of a scalar (OpenCL 1.2, 6.2.3.3).
pub fn saturated_from(
    alloc: Global,
    ids: Kind,
    at: Site,
    from: Scalar,
    to: Scalar,
    of: Term,
) -> Result<Term, AllocError>
    ensures { IfOk result (λ t. term t ≡ rules.saturated_from (kind_seen ids) (site at) (scalar_seen from) (scalar_seen to) (term of)) }
{
    match from {
        Scalar::Uint => saturated_uint(alloc, at, to, of),
        Scalar::Size => saturated_size(alloc, ids, at, to, of),
        Scalar::Float => saturated_float(alloc, at, to, of),
        _ => saturated_int(alloc, at, to, of),
    }
}

/// The same bits as another scalar of as many (6.2.4.2).
pub fn reread(
    alloc: Global,
    ids: Kind,
    at: Site,
    from: Scalar,
    to: Scalar,
    of: Term,
) -> Result<Term, AllocError>
    ensures { IfOk result (λ t. term t ≡ rules.reread (kind_seen ids) (site at) (scalar_seen from) (scalar_seen to) (term of)) }
{
    match (from, to) {
        (Scalar::Int, Scalar::Int) => Ok(of),
        (_, Scalar::Int) => bits_as_int(alloc, at, of),
        (Scalar::Int, Scalar::Uint | Scalar::Float) => bits_as_uint(alloc, at, of),
        (_, Scalar::Uint | Scalar::Float) => Ok(of),
        _ => converted(alloc, ids, from, to, at, of),
    }
}

// A size and a `bool` have no bits that each device agrees on, and a `long` has more than its term.
fn has_own_bits(of: Scalar) -> bool
    ensures { result ≡ rules.has_own_bits (scalar_seen of) }
{
    matches!(of, Scalar::Boolean | Scalar::Size | Scalar::Long)
}

/// Whether a scalar may be read as another, bit by bit.
pub fn has_bits_of(from: Scalar, to: Scalar) -> bool
    ensures { result ≡ rules.has_bits_of (scalar_seen from) (scalar_seen to) }
{
    !has_own_bits(from) && from.bits() == to.bits()
}
