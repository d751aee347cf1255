//! Numbers that names stand for.

ghost use Rattle.std.specs.Prelude.{◌≡◌, map, IfOk, Ok};
ghost use Rattle.std.specs.Option.{option_map};
ghost use Rattle.core_code.specs.View.{site, term};
ghost use Rattle.opencl_values.specs.Constants as rules;
ghost use Rattle.opencl_values.specs.ConstantsView.{integer_entry, number_in, number_seen, text_seen};
ghost use Rattle.opencl_values.specs.Faults as faults;
ghost use Rattle.opencl_values.specs.View.{single, Gives};
ghost use Rattle.words.specs.View.{kind as kind_seen};

use crate::error::{Fault, ValueError, refused};
use crate::singles::Single;
use core_code::tree::{Operator, Site, Term, UnaryOperator};
use core_pieces::pieces::{binary, literal, unary};
use opencl_terms::operations::{Operation, of_one};
use opencl_terms::scalars::Scalar;
use std::alloc::{AllocError, Global};
use words::Kind;

/// Constants that are integers, each with its kind and its 32 bits (OpenCL 1.2, 6.12.2.1 and 6.12.3; C99 7.16).
static INTEGERS: [(&[u8], Kind, u32); 19] = [
    (b"true", Kind::Int, 1),
    (b"false", Kind::Int, 0),
    (b"CHAR_BIT", Kind::Int, 8),
    (b"CHAR_MAX", Kind::Int, 127),
    (b"CHAR_MIN", Kind::Int, 4294967168),
    (b"SCHAR_MAX", Kind::Int, 127),
    (b"SCHAR_MIN", Kind::Int, 4294967168),
    (b"UCHAR_MAX", Kind::Int, 255),
    (b"SHRT_MAX", Kind::Int, 32767),
    (b"SHRT_MIN", Kind::Int, 4294934528),
    (b"USHRT_MAX", Kind::Int, 65535),
    (b"INT_MAX", Kind::Int, 2147483647),
    (b"INT_MIN", Kind::Int, 2147483648),
    (b"UINT_MAX", Kind::Uint, 4294967295),
    (b"FLT_DIG", Kind::Int, 6),
    (b"FLT_MANT_DIG", Kind::Int, 24),
    (b"FLT_RADIX", Kind::Int, 2),
    (b"FLT_MAX_EXP", Kind::Int, 128),
    (b"FLT_MAX_10_EXP", Kind::Int, 38),
];

/// Constants that are floats.
static REALS: [&[u8]; 20] = [
    b"FLT_MAX",
    b"FLT_MIN",
    b"FLT_EPSILON",
    b"MAXFLOAT",
    b"INFINITY",
    b"HUGE_VALF",
    b"NAN",
    b"M_E_F",
    b"M_LOG2E_F",
    b"M_LOG10E_F",
    b"M_LN2_F",
    b"M_LN10_F",
    b"M_PI_F",
    b"M_PI_2_F",
    b"M_PI_4_F",
    b"M_1_PI_F",
    b"M_2_PI_F",
    b"M_2_SQRTPI_F",
    b"M_SQRT2_F",
    b"M_SQRT1_2_F",
];

#[tactic(auto, unfolding(crate::specs::Constants::integers))]
fn integers() -> &'static [(&'static [u8], Kind, u32)]
    ensures { map integer_entry result.now ≡ rules.integers }
{
    &INTEGERS
}

#[tactic(auto, unfolding(crate::specs::Constants::reals))]
fn reals() -> &'static [&'static [u8]]
    ensures { map text_seen result.now ≡ rules.reals }
{
    &REALS
}

// The negative number of 32 bits, of which the highest is set.
fn negative_term(alloc: Global, at: Site, bits: u32) -> Result<Term, AllocError>
    ensures { IfOk result (λ t. term t ≡ rules.negative_term (site at) bits) }
{
    let above = literal(Kind::Int, 4294967295 - bits);
    let negated = unary(alloc, UnaryOperator::Negate, Kind::Int, at, above)?;
    binary(
        alloc,
        Operator::Subtract,
        Kind::Int,
        at,
        negated,
        literal(Kind::Int, 1),
    )
}

/// The `int` of 32 bits.
pub fn int_term(alloc: Global, at: Site, bits: u32) -> Result<Term, AllocError>
    ensures { IfOk result (λ t. term t ≡ rules.int_term (site at) bits) }
{
    if bits < 2147483648 {
        Ok(literal(Kind::Int, bits))
    } else {
        negative_term(alloc, at, bits)
    }
}

/// A number of a kind, by its 32 bits.
pub fn number_value(alloc: Global, at: Site, kind: Kind, bits: u32) -> Result<Single, ValueError>
    ensures { Gives single result (Ok (rules.number_value (site at) (kind_seen kind) bits)) }
{
    match kind {
        Kind::Int => Ok(Single {
            scalar: Scalar::Int,
            term: int_term(alloc, at, bits)?,
        }),
        Kind::Uint | Kind::Size => Ok(Single {
            scalar: Scalar::Uint,
            term: literal(Kind::Uint, bits),
        }),
    }
}

/// A floating constant, whose value is not reckoned (C99 6.4.4.2).
pub fn real_value(alloc: Global) -> Result<Single, ValueError>
    ensures { Gives single result (Ok rules.real_value) }
{
    Ok(Single {
        scalar: Scalar::Float,
        term: of_one(
            alloc,
            Operation::Constant,
            Kind::Uint,
            literal(Kind::Uint, 0),
        )?,
    })
}

fn integer_named(name: &str) -> Option<(Kind, u32)>
    ensures { option_map number_seen result ≡ option_map number_in (rules.integer_named name.now) }
{
    let name = name.as_bytes();
    for (text, kind, bits) in integers() {
        if *text == name {
            return Some((*kind, *bits));
        }
    }
    None
}

fn is_real(name: &str) -> bool
    ensures { result ≡ rules.is_one_of rules.reals name.now }
{
    let name = name.as_bytes();
    for text in reals() {
        if *text == name {
            return true;
        }
    }
    false
}

/// The value of a name that is no variable's.
pub fn constant_named(alloc: Global, at: Site, name: &str) -> Result<Single, ValueError>
    ensures { Gives single result (faults.found (rules.constant_named (site at) name.now) faults.UnknownName (site at)) }
{
    if let Some((kind, bits)) = integer_named(name) {
        return number_value(alloc, at, kind, bits);
    }
    if is_real(name) {
        return real_value(alloc);
    }
    refused(Fault::UnknownName, at)
}
