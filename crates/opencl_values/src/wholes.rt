//! Values of one component and of more.

ghost use Rattle.std.specs.Prelude.{◌≡◌, map, take, IfOk};
ghost use Rattle.core_code.specs.View.{site, term};
ghost use Rattle.opencl_terms.specs.Answers.{value_type};
ghost use Rattle.opencl_terms.specs.Operations as operations;
ghost use Rattle.opencl_values.specs.View.{single, singles_seen, value as value_seen, values as values_seen, Gives};
ghost use Rattle.opencl_values.specs.Wholes as rules;

use crate::error::{Fault, ValueError, refused};
use crate::singles::{Single, alone};
use core_code::tree::{Operator, Site, Term};
use core_pieces::copies::copy_of;
use core_pieces::pieces::{binary, literal, select};
use opencl_terms::scalars::ValueType;
use std::alloc::{AllocError, Global};
use words::Kind;

/// A value: its type, and one term for each component.
#[derive(Drop)]
pub struct Value {
    pub of: ValueType,
    pub terms: Vec<Term>,
}

/// The places of components.
static COUNTING: [u32; 16] = [0, 1, 2, 3, 4, 5, 6, 7, 8, 9, 10, 11, 12, 13, 14, 15];

/// What stands for a term that there is not.
pub fn nothing() -> Term
    ensures { term result ≡ operations.nothing }
{
    literal(Kind::Uint, 0)
}

/// A scalar as a value.
pub fn whole(alloc: Global, of: Single) -> Result<Value, AllocError>
    ensures { IfOk result (λ v. value_seen v ≡ rules.whole (single of)) }
{
    let mut terms = Vec::new(alloc);
    terms.push(of.term)?;
    Ok(Value {
        of: alone(of.scalar),
        terms,
    })
}

// The last term.
#[tactic(auto, using(crate::proofs::Components::last_term))]
fn last_of(terms: Vec<Term>) -> Term
    ensures { term result ≡ rules.last_with operations.nothing (map term terms.items) }
{
    let mut terms = terms;
    match terms.pop() {
        Some(last) => last,
        None => nothing(),
    }
}

/// The single component of a scalar.
pub fn single_in(of: Value) -> Single
    ensures { single result ≡ rules.single_in (value_seen of) }
{
    Single {
        scalar: of.of.scalar,
        term: last_of(of.terms),
    }
}

/// A value that has to be a scalar.
pub fn only(at: Site, of: Value) -> Result<Single, ValueError>
    ensures { Gives single result (rules.only (site at) (value_seen of)) }
{
    if of.of.is_vector() {
        return refused(Fault::WrongType, at);
    }
    Ok(single_in(of))
}

// A copy of the term of a place, or else of the last one.
#[tactic(auto, using(crate::proofs::Components::one_term))]
fn term_at(alloc: Global, terms: &[Term], place: usize) -> Result<Term, AllocError>
    ensures { IfOk result (λ t. term t ≡ rules.nth_with operations.nothing (map term terms.now) place) }
{
    let count = terms.len();
    if count == 0 {
        return Ok(nothing());
    }
    if place < count {
        copy_of(alloc, &terms[place])
    } else {
        copy_of(alloc, &terms[count - 1])
    }
}

/// A copy of a component; of a scalar each one is the same.
pub fn component(alloc: Global, of: &Value, place: u32) -> Result<Single, AllocError>
    ensures { IfOk result (λ v. single v ≡ rules.component (value_seen of.now) place) }
{
    Ok(Single {
        scalar: of.of.scalar,
        term: term_at(alloc, of.terms.as_slice(), place as usize)?,
    })
}

/// One component of each value.
pub fn components_of(alloc: Global, of: &[Value], place: u32) -> Result<Vec<Single>, AllocError>
    ensures { IfOk result (λ vs. singles_seen vs.items ≡ rules.components_of (values_seen of.now) place) }
{
    let mut all = Vec::new(alloc);
    for value in of {
        all.push(component(alloc, value, place)?)?;
    }
    Ok(all)
}

/// Whether two types are the same.
pub fn is_same_type(left: ValueType, right: ValueType) -> bool
    ensures { result ≡ rules.is_same_type (value_type left) (value_type right) }
{
    left.scalar.number() == right.scalar.number() && left.width == right.width
}

/// The places of all components that a vector may have.
pub fn counting() -> &'static [u32]
    ensures { result.now ≡ rules.counting }
{
    &COUNTING
}

/// The places of the components of a vector.
pub fn places(width: u32) -> &'static [u32]
    ensures { result.now ≡ rules.places width }
{
    let all = counting();
    let width = width as usize;
    if width < all.len() {
        &all[..width]
    } else {
        all
    }
}

/// Whether a place is one of some.
pub fn is_among(picked: &[u32], place: u32) -> bool
    ensures { result ≡ rules.is_among picked.now place }
{
    for one in picked {
        if *one == place {
            return true;
        }
    }
    false
}

/// Whether a term may be left out where its value is not used.
fn is_idle(of: &Term) -> bool
    ensures { result ≡ rules.is_idle (term of.now) }
{
    matches!(
        of,
        Term::Literal { .. } | Term::Variable { .. } | Term::Id { .. }
    )
}

/// A term, behind one that is evaluated and whose value is not used.
pub fn behind(alloc: Global, at: Site, first: Term, of: Term) -> Result<Term, AllocError>
    ensures { IfOk result (λ t. term t ≡ rules.behind (site at) (term first) (term of)) }
{
    if is_idle(&first) {
        return Ok(of);
    }
    let none = literal(Kind::Uint, 0);
    let test = binary(alloc, Operator::Multiply, Kind::Uint, at, first, none)?;
    select(alloc, test, nothing(), of)
}

// A term, behind one component, unless that is picked.
fn behind_unpicked(
    alloc: Global,
    at: Site,
    whole: &Value,
    picked: &[u32],
    place: u32,
    of: Term,
) -> Result<Term, AllocError>
    ensures { IfOk result (λ t. term t ≡ rules.behind_unpicked (site at) (value_seen whole.now) picked.now place (term of)) }
{
    if is_among(picked, place) {
        return Ok(of);
    }
    let first = component(alloc, whole, place)?;
    behind(alloc, at, first.term, of)
}

/// A term, behind the components that are not picked.
pub fn behind_dropped(
    alloc: Global,
    at: Site,
    whole: &Value,
    picked: &[u32],
    places: &[u32],
    of: Term,
) -> Result<Term, AllocError>
    ensures { IfOk result (λ t. term t ≡ rules.behind_dropped (site at) (value_seen whole.now) picked.now places.now (term of)) }
{
    let mut so_far = of;
    for place in places {
        so_far = behind_unpicked(alloc, at, whole, picked, *place, so_far)?;
    }
    Ok(so_far)
}

/// How many elements of its scalar a vector has in memory (OpenCL 1.2, 6.1.5).
pub fn words(width: u32) -> u32
    ensures { result ≡ rules.words width }
{
    if width == 3 { 4 } else { width }
}

/// How many vectors of so many elements have indexes of 32 bits.
pub fn vectors_below(words: u32) -> u32
    ensures { result ≡ rules.vectors_below words }
{
    match words {
        2 => 2147483648,
        4 => 1073741824,
        8 => 536870912,
        _ => 268435456,
    }
}
