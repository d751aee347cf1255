//! Values of one component.

ghost use Rattle.std.specs.Prelude.{◌≡◌, IfOk};
ghost use Rattle.core_code.specs.View.{site, term};
ghost use Rattle.opencl_terms.specs.Answers.{value_type};
ghost use Rattle.opencl_terms.specs.Types as types;
ghost use Rattle.opencl_terms.specs.View.{scalar as scalar_seen};
ghost use Rattle.opencl_values.specs.Singles as rules;
ghost use Rattle.opencl_values.specs.View.{single};
ghost use Rattle.words.specs.View.{kind as kind_seen};

use core_code::tree::{Site, Term};
use opencl_terms::conversions::converted;
use opencl_terms::operators::{OfOne, of_one_component};
use opencl_terms::scalars::{Scalar, ValueType, common};
use std::alloc::{AllocError, Global};
use words::Kind;

/// A value of one component: its scalar, and its term.
#[derive(Drop)]
pub struct Single {
    pub scalar: Scalar,
    pub term: Term,
}

/// The type of a scalar alone.
pub fn alone(scalar: Scalar) -> ValueType
    ensures { value_type result ≡ rules.alone (scalar_seen scalar) }
{
    ValueType { scalar, width: 1 }
}

/// The scalar to which two operands are converted (C99 6.3.1.8).
pub fn scalar_of_both(left: Scalar, right: Scalar) -> Scalar
    ensures { scalar_seen result ≡ types.common (types.promoted (scalar_seen left)) (types.promoted (scalar_seen right)) }
{
    common(left.promoted(), right.promoted())
}

/// A value as another scalar (6.3.1).
pub fn as_scalar(
    alloc: Global,
    ids: Kind,
    to: Scalar,
    at: Site,
    of: Single,
) -> Result<Term, AllocError>
    ensures { IfOk result (λ t. term t ≡ rules.as_scalar (kind_seen ids) (scalar_seen to) (site at) (single of)) }
{
    converted(alloc, ids, of.scalar, to, at, of.term)
}

/// A value as an operand of an operator.
pub fn as_operand(
    alloc: Global,
    ids: Kind,
    to: Scalar,
    at: Site,
    of: Single,
) -> Result<Term, AllocError>
    ensures { IfOk result (λ t. term t ≡ rules.as_operand (kind_seen ids) (scalar_seen to) (site at) (single of)) }
{
    of_one_component(
        alloc,
        ids,
        alone(of.scalar),
        OfOne::Bringing(to),
        at,
        of.term,
    )
}

/// A value as a test.
pub fn as_test(alloc: Global, ids: Kind, at: Site, of: Single) -> Result<Term, AllocError>
    ensures { IfOk result (λ t. term t ≡ rules.as_test (kind_seen ids) (site at) (single of)) }
{
    of_one_component(alloc, ids, alone(of.scalar), OfOne::Testing, at, of.term)
}
