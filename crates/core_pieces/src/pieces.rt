//! Terms, put together.

ghost use Rattle.std.specs.Prelude.{◌≡◌, IfOk, pos};
ghost use Rattle.semantics.specs.Core as core;
ghost use Rattle.core_code.specs.View.{array as array_seen, direction as direction_seen, operator as operator_seen, relation as relation_seen, site, term, unary_operator};
ghost use Rattle.words.specs.View.{kind as kind_seen};

use core_code::tree::{Array, Direction, Operator, Relation, Site, Term, UnaryOperator};
use std::alloc::{AllocError, Global};
use words::Kind;

/// A number of a kind, by its 32 bits.
pub fn literal(kind: Kind, value: u32) -> Term
    ensures { term result ≡ core.Literal (kind_seen kind) (pos value) }
{
    Term::Literal { kind, value }
}

/// Two terms on the heap.
pub fn boxes(alloc: Global, left: Term, right: Term) -> Result<(Box<Term>, Box<Term>), AllocError>
    ensures left { IfOk result (λ both. both.0.value ≡ left) }
    ensures right { IfOk result (λ both. both.1.value ≡ right) }
{
    let left = Box::new(alloc, left)?;
    let right = Box::new(alloc, right)?;
    Ok((left, right))
}

/// A load of an element.
pub fn load(alloc: Global, array: Array, at: Site, index: Term) -> Result<Term, AllocError>
    ensures { IfOk result (λ t. term t ≡ core.Load (array_seen array) (site at) (term index)) }
{
    Ok(Term::Load {
        array,
        site: at,
        index: Box::new(alloc, index)?,
    })
}

/// An operator of one operand.
pub fn unary(
    alloc: Global,
    operator: UnaryOperator,
    kind: Kind,
    at: Site,
    of: Term,
) -> Result<Term, AllocError>
    ensures { IfOk result (λ t. term t ≡ core.Unary (unary_operator operator) (kind_seen kind) (site at) (term of)) }
{
    Ok(Term::Unary {
        operator,
        kind,
        site: at,
        of: Box::new(alloc, of)?,
    })
}

/// An operator of two operands, which it brings to a kind.
pub fn binary(
    alloc: Global,
    operator: Operator,
    kind: Kind,
    at: Site,
    left: Term,
    right: Term,
) -> Result<Term, AllocError>
    ensures { IfOk result (λ t. term t ≡ core.Binary (operator_seen operator) (kind_seen kind) (site at) (term left) (term right)) }
{
    let (left, right) = boxes(alloc, left, right)?;
    Ok(Term::Binary {
        operator,
        kind,
        site: at,
        left,
        right,
    })
}

/// A conversion to a kind.
pub fn convert(alloc: Global, kind: Kind, at: Site, of: Term) -> Result<Term, AllocError>
    ensures { IfOk result (λ t. term t ≡ core.Convert (kind_seen kind) (site at) (term of)) }
{
    Ok(Term::Convert {
        kind,
        site: at,
        of: Box::new(alloc, of)?,
    })
}

/// A comparison of two operands, which it brings to a kind.
pub fn compare(
    alloc: Global,
    relation: Relation,
    kind: Kind,
    left: Term,
    right: Term,
) -> Result<Term, AllocError>
    ensures { IfOk result (λ t. term t ≡ core.Compare (relation_seen relation) (kind_seen kind) (term left) (term right)) }
{
    let (left, right) = boxes(alloc, left, right)?;
    Ok(Term::Compare {
        relation,
        kind,
        left,
        right,
    })
}

/// Whether a term is 0.
pub fn not(alloc: Global, of: Term) -> Result<Term, AllocError>
    ensures { IfOk result (λ t. term t ≡ core.Not (term of)) }
{
    Ok(Term::Not {
        of: Box::new(alloc, of)?,
    })
}

/// `&&` of two terms.
pub fn and(alloc: Global, left: Term, right: Term) -> Result<Term, AllocError>
    ensures { IfOk result (λ t. term t ≡ core.And (term left) (term right)) }
{
    let (left, right) = boxes(alloc, left, right)?;
    Ok(Term::And { left, right })
}

/// `||` of two terms.
pub fn or(alloc: Global, left: Term, right: Term) -> Result<Term, AllocError>
    ensures { IfOk result (λ t. term t ≡ core.Or (term left) (term right)) }
{
    let (left, right) = boxes(alloc, left, right)?;
    Ok(Term::Or { left, right })
}

/// One term or another, by a test.
pub fn select(alloc: Global, test: Term, taken: Term, skipped: Term) -> Result<Term, AllocError>
    ensures { IfOk result (λ t. term t ≡ core.Select (term test) (term taken) (term skipped)) }
{
    let (taken, skipped) = boxes(alloc, taken, skipped)?;
    Ok(Term::Select {
        test: Box::new(alloc, test)?,
        taken,
        skipped,
    })
}

/// The smaller of two terms.
pub fn minimum(alloc: Global, left: Term, right: Term) -> Result<Term, AllocError>
    ensures { IfOk result (λ t. term t ≡ core.Minimum (term left) (term right)) }
{
    let (left, right) = boxes(alloc, left, right)?;
    Ok(Term::Minimum { left, right })
}

/// The larger of two terms.
pub fn maximum(alloc: Global, left: Term, right: Term) -> Result<Term, AllocError>
    ensures { IfOk result (λ t. term t ≡ core.Maximum (term left) (term right)) }
{
    let (left, right) = boxes(alloc, left, right)?;
    Ok(Term::Maximum { left, right })
}

/// A term, shifted as far as another says.
pub fn shift(
    alloc: Global,
    direction: Direction,
    kind: Kind,
    value: Term,
    count: Term,
) -> Result<Term, AllocError>
    ensures { IfOk result (λ t. term t ≡ core.Shift (direction_seen direction) (kind_seen kind) (term value) (term count)) }
{
    let (value, count) = boxes(alloc, value, count)?;
    Ok(Term::Shift {
        direction,
        kind,
        value,
        count,
    })
}

/// An index that has to lie in so many elements.
pub fn within(alloc: Global, at: Site, length: u32, index: Term) -> Result<Term, AllocError>
    ensures { IfOk result (λ t. term t ≡ core.Within (site at) length (term index)) }
{
    Ok(Term::Within {
        site: at,
        length,
        index: Box::new(alloc, index)?,
    })
}

/// An operation that is not reckoned: its number, its place and its kind, with three operands.
pub fn opaque(
    alloc: Global,
    named: (u32, u32, Kind),
    first: Term,
    second: Term,
    third: Term,
) -> Result<Term, AllocError>
    ensures { IfOk result (λ t. term t ≡ core.Opaque named.0 named.1 (kind_seen named.2) (term first) (term second) (term third)) }
{
    let (operation, place, kind) = named;
    let (first, second) = boxes(alloc, first, second)?;
    Ok(Term::Opaque {
        operation,
        place,
        kind,
        first,
        second,
        third: Box::new(alloc, third)?,
    })
}
