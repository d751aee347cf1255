//! Builds terms of the core from smaller ones.

ghost use Rattle.std.specs.Prelude.{◌≡◌, IfOk, pos};
ghost use Rattle.semantics.specs.Core as core;
ghost use Rattle.core_code.specs.View.{direction as direction_seen, operator as operator_seen, relation as relation_seen, site, term, unary_operator};
ghost use Rattle.words.specs.View.{kind as kind_seen};

use core_code::tree::{Direction, Operator, Relation, Site, Term, UnaryOperator};
use std::alloc::{AllocError, Global};
use words::Kind;

pub fn literal(kind: Kind, value: u32) -> Term
    ensures { term result ≡ core.Literal (kind_seen kind) (pos value) }
{
    Term::Literal { kind, value }
}

pub fn boxes(alloc: Global, left: Term, right: Term) -> Result<(Box<Term>, Box<Term>), AllocError>
    ensures left { IfOk result (λ both. both.0.value ≡ left) }
    ensures right { IfOk result (λ both. both.1.value ≡ right) }
{
    let left = Box::new(alloc, left)?;
    let right = Box::new(alloc, right)?;
    Ok((left, right))
}

pub fn binary(
    alloc: Global,
    operator: Operator,
    kind: Kind,
    at: Site,
    left: Term,
    right: Term,
) -> Result<Term, AllocError>
    ensures { IfOk result (λ t. term t ≡ core.Binary (operator_seen operator) (kind_seen kind) (site at) (term left) (term right)) }
{
    let (left, right) = boxes(alloc, left, right)?;
    Ok(Term::Binary {
        operator,
        kind,
        site: at,
        left,
        right,
    })
}

pub fn compare(
    alloc: Global,
    relation: Relation,
    kind: Kind,
    left: Term,
    right: Term,
) -> Result<Term, AllocError>
    ensures { IfOk result (λ t. term t ≡ core.Compare (relation_seen relation) (kind_seen kind) (term left) (term right)) }
{
    let (left, right) = boxes(alloc, left, right)?;
    Ok(Term::Compare {
        relation,
        kind,
        left,
        right,
    })
}

pub fn convert(alloc: Global, kind: Kind, at: Site, of: Term) -> Result<Term, AllocError>
    ensures { IfOk result (λ t. term t ≡ core.Convert (kind_seen kind) (site at) (term of)) }
{
    Ok(Term::Convert {
        kind,
        site: at,
        of: Box::new(alloc, of)?,
    })
}

pub fn unary(
    alloc: Global,
    operator: UnaryOperator,
    kind: Kind,
    at: Site,
    of: Term,
) -> Result<Term, AllocError>
    ensures { IfOk result (λ t. term t ≡ core.Unary (unary_operator operator) (kind_seen kind) (site at) (term of)) }
{
    Ok(Term::Unary {
        operator,
        kind,
        site: at,
        of: Box::new(alloc, of)?,
    })
}

pub fn shift(
    alloc: Global,
    direction: Direction,
    kind: Kind,
    value: Term,
    count: Term,
) -> Result<Term, AllocError>
    ensures { IfOk result (λ t. term t ≡ core.Shift (direction_seen direction) (kind_seen kind) (term value) (term count)) }
{
    let (value, count) = boxes(alloc, value, count)?;
    Ok(Term::Shift {
        direction,
        kind,
        value,
        count,
    })
}

pub fn select(alloc: Global, test: Term, taken: Term, skipped: Term) -> Result<Term, AllocError>
    ensures { IfOk result (λ t. term t ≡ core.Select (term test) (term taken) (term skipped)) }
{
    let (taken, skipped) = boxes(alloc, taken, skipped)?;
    Ok(Term::Select {
        test: Box::new(alloc, test)?,
        taken,
        skipped,
    })
}

pub fn and(alloc: Global, left: Term, right: Term) -> Result<Term, AllocError>
    ensures { IfOk result (λ t. term t ≡ core.And (term left) (term right)) }
{
    let (left, right) = boxes(alloc, left, right)?;
    Ok(Term::And { left, right })
}

pub fn or(alloc: Global, left: Term, right: Term) -> Result<Term, AllocError>
    ensures { IfOk result (λ t. term t ≡ core.Or (term left) (term right)) }
{
    let (left, right) = boxes(alloc, left, right)?;
    Ok(Term::Or { left, right })
}
