//! Which term of the core an expression is.

ghost use Rattle.std.specs.Prelude.{◌≡◌, [], None, IfOk, Ok};
ghost use Rattle.core_code.specs.View.{function as function_seen, site};
ghost use Rattle.opencl_terms.specs.Answers.{value_type};
ghost use Rattle.opencl_terms.specs.View.{scalar as scalar_seen};
ghost use Rattle.opencl_effects.specs.View.{sort as sort_seen};
ghost use Rattle.opencl_tree.specs.Tree as tree;
ghost use Rattle.opencl_tree.specs.View.{expression, expressions, type_name};
ghost use Rattle.opencl_values.specs.Calls as calls;
ghost use Rattle.opencl_values.specs.ElementsView.{element as element_seen, part as part_seen};
ghost use Rattle.opencl_values.specs.Faults as faults;
ghost use Rattle.opencl_values.specs.FunctionsView.{form as form_seen};
ghost use Rattle.opencl_values.specs.Names as types;
ghost use Rattle.opencl_values.specs.Scope as scope;
ghost use Rattle.opencl_values.specs.Constants as constants;
ghost use Rattle.opencl_values.specs.VectorCalls as vector_calls;
ghost use Rattle.opencl_values.specs.Vectors as vectors;
ghost use Rattle.opencl_values.specs.Wholes as wholes;
ghost use Rattle.opencl_values.specs.Values as rules;
ghost use Rattle.opencl_values.specs.View.{bindings, drawn as drawn_seen, maybe_drawn, meaning as meaning_seen, names as names_seen, value as value_seen, values as values_seen, Gives};
ghost use Rattle.opencl_values.specs.WidenedView.{wide as wide_seen};
ghost use Rattle.syntax.specs.View.{infix_sign};
ghost use Rattle.words.specs.View.{kind as kind_seen};

use crate::calls::dimension_of;
use crate::constants::{constant_named, number_value, real_value};
use crate::elements::{Element, Part, part_meant};
use crate::error::{Construct, Fault, ValueError, refused};
use crate::functions::{Form, construct_called, form_named};
use crate::members::member_of;
use crate::names::{bytes_of, type_of_name};
use crate::pointers::{
    converted_part, first_element, is_address, is_behind, is_indirection, moving, null_compared,
    null_value, shifted_by, type_pointed,
};
use crate::reads::{element_at, element_value, indexed_by, vector_at};
use crate::scope::{Binding, Drawn, Meaning, Names, drawn_at, meaning_of};
use crate::singles::Single;
use crate::vector_calls::{result_of, wide_result};
use crate::vectors::{
    Made, conditional_of, converted_to, infix_of, literal_of, prefix_of, vector_made,
};
use crate::wholes::{Value, whole};
use crate::widened::{Wide, read_width, wide_named};
use core_code::tree::{Function, Operator, Site, Term};
use core_pieces::pieces::literal;
use opencl_effects::marks::Sort;
use opencl_terms::scalars::{Scalar, ValueType};
use opencl_tree::tree::Expr;
use opencl_tree::types::TypeName;
use std::alloc::{AllocError, Global};
use syntax::tree::InfixSign;
use words::Kind;

/// The value of a variable, which has a slot for each component.
pub fn variable_value(
    alloc: Global,
    at: Site,
    of: ValueType,
    slot: u32,
) -> Result<Value, AllocError>
    ensures { IfOk result (λ v. value_seen v ≡ rules.variable_value (site at) (value_type of) slot) }
{
    if of.is_vector() {
        return vector_made(alloc, Kind::Int, at, Made::Kept(slot), of);
    }
    let one = Single {
        scalar: of.scalar,
        term: Term::Variable { slot },
    };
    whole(alloc, one)
}

fn number(alloc: Global, at: Site, kind: Kind, bits: u32) -> Result<Value, ValueError>
    ensures { Gives value_seen result (Ok (wholes.whole (constants.number_value (site at) (kind_seen kind) bits))) }
{
    let one = number_value(alloc, at, kind, bits)?;
    Ok(whole(alloc, one)?)
}

fn real(alloc: Global) -> Result<Value, ValueError>
    ensures { Gives value_seen result (Ok (wholes.whole constants.real_value)) }
{
    let one = real_value(alloc)?;
    Ok(whole(alloc, one)?)
}

fn constant(alloc: Global, at: Site, name: &str) -> Result<Value, ValueError>
    ensures { Gives value_seen result (rules.value_named (site at) name.now None) }
{
    let one = constant_named(alloc, at, name)?;
    Ok(whole(alloc, one)?)
}

fn value_meant(alloc: Global, at: Site, meaning: &Meaning) -> Result<Value, ValueError>
    ensures { Gives value_seen result (rules.value_meant (site at) (meaning_seen meaning.now)) }
{
    match meaning {
        Meaning::Variable { of, slot, .. } => Ok(variable_value(alloc, at, *of, *slot)?),
        Meaning::Array { .. } | Meaning::Own { .. } | Meaning::Pointer { .. } => {
            refused(Fault::LeftOut(Construct::Pointer), at)
        }
        Meaning::Number(bits) => number(alloc, at, Kind::Int, *bits),
        Meaning::Type(_) => refused(Fault::WrongType, at),
        Meaning::Unread => refused(Fault::LeftOut(Construct::Outside), at),
    }
}

fn value_named(
    alloc: Global,
    visible: &[Binding],
    at: Site,
    name: &str,
) -> Result<Value, ValueError>
    ensures { Gives value_seen result (rules.value_named (site at) name.now (scope.meaning_of (bindings visible.now) name.now)) }
{
    match meaning_of(visible, name) {
        Some(meaning) => value_meant(alloc, at, meaning),
        None => constant(alloc, at, name),
    }
}

fn sizeof_type(alloc: Global, ids: Kind, at: Site, of: ValueType) -> Result<Value, ValueError>
    ensures { Gives value_seen result (rules.sizeof_type (kind_seen ids) (site at) (value_type of)) }
{
    let one = Single {
        scalar: Scalar::Size,
        term: literal(ids, bytes_of(at, of)?),
    };
    Ok(whole(alloc, one)?)
}

fn id_of(
    alloc: Global,
    ids: Kind,
    function: Function,
    at: Site,
    arguments: &[Expr],
) -> Result<Value, ValueError>
    ensures { Gives value_seen result (faults.then (calls.dimension_of (site at) (expressions arguments.now)) (λ d. Ok (wholes.whole (calls.id_value (kind_seen ids) (function_seen function) d)))) }
{
    let one = Single {
        scalar: Scalar::Size,
        term: Term::Id {
            kind: ids,
            function,
            dimension: dimension_of(at, arguments)?,
        },
    };
    Ok(whole(alloc, one)?)
}

fn offset(alloc: Global, ids: Kind, at: Site, arguments: &[Expr]) -> Result<Value, ValueError>
    ensures { Gives value_seen result (faults.then (calls.dimension_of (site at) (expressions arguments.now)) (λ d. Ok (wholes.whole (calls.offset_value (kind_seen ids))))) }
{
    dimension_of(at, arguments)?;
    let one = Single {
        scalar: Scalar::Size,
        term: literal(ids, 0),
    };
    Ok(whole(alloc, one)?)
}

// The value that was written out before.
fn kept(alloc: Global, at: Site, drawn: Drawn) -> Result<Value, ValueError>
    ensures { Gives value_seen result (Ok (rules.kept (site at) (drawn_seen drawn))) }
{
    Ok(variable_value(alloc, at, drawn.of, drawn.slot)?)
}

fn with_effect(alloc: Global, names: Names, sort: Sort, at: Site) -> Result<Value, ValueError>
    ensures { Gives value_seen result (rules.with_effect (names_seen names.entry) (sort_seen sort) (site at)) }
{
    match drawn_at(names, sort, at) {
        Some(drawn) => kept(alloc, at, drawn),
        None => refused(Fault::LeftOut(Construct::Effect), at),
    }
}

// Without what was written out.
fn undrawn(names: Names<'_>) -> Names<'_>
    ensures { names_seen result ≡ rules.undrawn (names_seen names.entry) }
{
    Names {
        ids: names.ids,
        visible: names.visible,
        drawn: &[],
    }
}

// What was written out before for `&&` and `||`.
fn drawn_for(names: Names, sign: InfixSign, at: Site) -> Option<Drawn>
    ensures { maybe_drawn result ≡ rules.drawn_for (names_seen names.entry) (infix_sign sign) (site at) }
{
    match sign {
        InfixSign::LogicalAnd | InfixSign::LogicalOr => drawn_at(names, Sort::OfLogical, at),
        _ => None,
    }
}

// A call of a name that is visible.
fn visible_called(
    alloc: Global,
    names: Names,
    at: Site,
    meaning: &Meaning,
) -> Result<Value, ValueError>
    ensures { Gives value_seen result (rules.visible_called (names_seen names.entry) (site at) (meaning_seen meaning.now)) }
{
    let Meaning::Unread = meaning else {
        return refused(Fault::WrongType, at);
    };
    match drawn_at(names, Sort::OfCall, at) {
        Some(drawn) => kept(alloc, at, drawn),
        None => refused(Fault::LeftOut(Construct::Outside), at),
    }
}

// A call of a function that is read.
#[cycle(values)]
fn called(
    alloc: Global,
    names: Names,
    called: (Form, u32),
    at: Site,
    arguments: &[Expr],
) -> Result<Value, ValueError>
    ensures { Gives value_seen result (vector_calls.called (kind_seen names.entry.ids) (form_seen called.0) called.1 (site at) (expressions arguments.now) (rules.values_behind (names_seen names.entry) [] (expressions arguments.now))) }
{
    match called.0 {
        Form::IdOf(function) => id_of(alloc, names.ids, function, at, arguments),
        Form::Offset => offset(alloc, names.ids, at, arguments),
        Form::Missing(construct) => refused(Fault::LeftOut(construct), at),
        _ => {
            let values = values_of(alloc, names, arguments)?;
            result_of(alloc, names.ids, called, at, values.as_slice())
        }
    }
}

#[cycle(values)]
#[tactic(auto, unfolding(crate::specs::Values::value_of))]
fn call_named(
    alloc: Global,
    names: Names,
    at: Site,
    name: &str,
    arguments: &[Expr],
) -> Result<Value, ValueError>
    ensures { Gives value_seen result (rules.value_of (names_seen names.entry) (tree.Call (site at) name.now (expressions arguments.now))) }
{
    match meaning_of(names.visible, name) {
        Some(meaning) => return visible_called(alloc, names, at, meaning),
        None => {}
    }
    if let Some(form) = form_named(name) {
        return called(alloc, names, form, at, arguments);
    }
    if let Some(width) = read_width(name) {
        return vector_read(alloc, names, at, width, arguments);
    }
    match wide_named(alloc, name)? {
        Some(wide) => wide_called(alloc, names, at, wide, arguments),
        None => refused(Fault::LeftOut(construct_called(name)), at),
    }
}

// A conversion of a vector.
#[cycle(values)]
fn wide_called(
    alloc: Global,
    names: Names,
    at: Site,
    wide: Wide,
    arguments: &[Expr],
) -> Result<Value, ValueError>
    ensures { Gives value_seen result (faults.then (rules.values_behind (names_seen names.entry) [] (expressions arguments.now)) (vector_calls.wide_result (kind_seen names.entry.ids) (wide_seen wide) (site at))) }
{
    let values = values_of(alloc, names, arguments)?;
    wide_result(alloc, names.ids, wide, at, values.as_slice())
}

#[cycle(values)]
#[tactic(auto, using(crate::proofs::Arguments::read_arguments))]
fn vector_read(
    alloc: Global,
    names: Names,
    at: Site,
    width: u32,
    arguments: &[Expr],
) -> Result<Value, ValueError>
    ensures { Gives value_seen result (rules.vector_read (names_seen names.entry) (site at) width (expressions arguments.now)) }
{
    match arguments {
        [] => refused(Fault::WrongType, at),
        [_] => refused(Fault::WrongType, at),
        [by, of] => {
            let by = value_of(alloc, names, by)?;
            let part = part_of(alloc, names, at, of)?;
            vector_at(alloc, names.ids, at, width, by, part)
        }
        _ => refused(Fault::WrongType, at),
    }
}

#[cycle(values)]
#[tactic(auto, unfolding(crate::specs::Values::values_behind))]
fn values_of(alloc: Global, names: Names, of: &[Expr]) -> Result<Vec<Value>, ValueError>
    ensures { Gives (λ vs. values_seen vs.items) result (rules.values_behind (names_seen names.entry) [] (expressions of.now)) }
{
    let mut values = Vec::new(alloc);
    for one in of {
        values.push(value_of(alloc, names, one)?)?;
    }
    Ok(values)
}

// A vector of parts.
#[cycle(values)]
fn vector_of(
    alloc: Global,
    names: Names,
    at: Site,
    to: &TypeName,
    parts: &[Expr],
) -> Result<Value, ValueError>
    ensures { Gives value_seen result (faults.then (types.type_of_name (names_seen names.entry).visible (type_name to.now) (site at)) (λ t. faults.then (rules.values_behind (names_seen names.entry) [] (expressions parts.now)) (vectors.literal_of (kind_seen names.entry.ids) (site at) t))) }
{
    let to = type_of_name(names.visible, to, at)?;
    let parts = values_of(alloc, names, parts)?;
    literal_of(alloc, names.ids, at, to, parts.as_slice())
}

/// What stands in front of a bracket: an array, perhaps with indexes, or another pointer.
#[cycle(values)]
#[tactic(auto, unfolding(crate::specs::Values::part_of))]
pub fn part_of<'a>(
    alloc: Global,
    names: Names<'a>,
    bracket: Site,
    of: &Expr,
) -> Result<Part<'a>, ValueError>
    ensures { Gives part_seen result (rules.part_of (names_seen names.entry) (site bracket) (expression of.now)) }
{
    match of {
        Expr::Name { site, name } => {
            part_meant(alloc, *site, meaning_of(names.visible, name.as_str()))
        }
        Expr::Index { site, of, index } => {
            let part = part_of(alloc, names, *site, of)?;
            let index = value_of(alloc, names, index)?;
            indexed_by(alloc, *site, part, index)
        }
        Expr::Infix {
            site,
            sign,
            left,
            right,
        } => {
            let Some(operator) = moving(*sign) else {
                return refused(Fault::LeftOut(Construct::Pointer), bracket);
            };
            if is_behind(names, operator, left) {
                let pointer = part_of(alloc, names, *site, right)?;
                let by = value_of(alloc, names, left)?;
                shifted_by(alloc, *site, operator, pointer, by)
            } else {
                let pointer = part_of(alloc, names, *site, left)?;
                let by = value_of(alloc, names, right)?;
                shifted_by(alloc, *site, operator, pointer, by)
            }
        }
        Expr::Prefix { site, sign, of } => {
            if is_address(*sign) {
                addressed(alloc, names, bracket, *site, of)
            } else {
                refused(Fault::LeftOut(Construct::Pointer), bracket)
            }
        }
        Expr::Cast { site, to, of } => {
            let pointed = type_pointed(names.visible, to, *site)?;
            let pointer = part_of(alloc, names, *site, of)?;
            converted_part(alloc, *site, to.qualifiers, pointed, pointer)
        }
        _ => refused(Fault::LeftOut(Construct::Pointer), bracket),
    }
}

// A pointer to what an operand is (C99 6.5.3.2).
#[cycle(values)]
#[tactic(auto, unfolding(crate::specs::Values::addressed))]
fn addressed<'a>(
    alloc: Global,
    names: Names<'a>,
    bracket: Site,
    sign_site: Site,
    of: &Expr,
) -> Result<Part<'a>, ValueError>
    ensures { Gives part_seen result (rules.addressed (names_seen names.entry) (site bracket) (site sign_site) (expression of.now)) }
{
    match of {
        Expr::Index { site, of, index } => {
            let pointer = part_of(alloc, names, *site, of)?;
            let by = value_of(alloc, names, index)?;
            shifted_by(alloc, sign_site, Operator::Add, pointer, by)
        }
        Expr::Prefix { site, sign, of } => {
            if is_indirection(*sign) {
                part_of(alloc, names, *site, of)
            } else {
                refused(Fault::LeftOut(Construct::Pointer), bracket)
            }
        }
        _ => refused(Fault::LeftOut(Construct::Pointer), bracket),
    }
}

/// The value of an expression among these names; else its first broken rule (C99 6.5).
#[cycle(values)]
#[tactic(auto, using(opencl_tree::proofs::Rows::seen_call, opencl_tree::proofs::Rows::seen_vector), unfolding(crate::specs::Values::value_of))]
pub fn value_of(alloc: Global, names: Names, of: &Expr) -> Result<Value, ValueError>
    ensures { Gives value_seen result (rules.value_of (names_seen names.entry) (expression of.now)) }
{
    match of {
        Expr::Integer { site, kind, value } => number(alloc, *site, *kind, *value),
        Expr::Real { .. } => real(alloc),
        Expr::Name { site, name } => value_named(alloc, names.visible, *site, name.as_str()),
        Expr::Call {
            site,
            name,
            arguments,
        } => call_named(alloc, names, *site, name.as_str(), arguments.as_slice()),
        Expr::Index { site, of, index } => {
            let part = part_of(alloc, names, *site, of)?;
            let index = value_of(alloc, names, index)?;
            element_value(alloc, *site, part, index)
        }
        Expr::Member { site, of, name } => {
            let of = value_of(alloc, names, of)?;
            member_of(alloc, names.ids, *site, of, name.as_str())
        }
        Expr::Vector { site, to, parts } => { vector_of(alloc, names, *site, to, parts.as_slice()) }
        Expr::Step { site, .. } => with_effect(alloc, names, Sort::OfStep, *site),
        Expr::Assign { site, .. } => with_effect(alloc, names, Sort::OfAssign, *site),
        Expr::Comma { site, .. } => with_effect(alloc, names, Sort::OfComma, *site),
        Expr::Prefix { site, sign, of } => {
            if is_indirection(*sign) {
                let pointer = part_of(alloc, names, *site, of)?;
                element_value(alloc, *site, pointer, first_element(alloc)?)
            } else {
                let of = value_of(alloc, names, of)?;
                prefix_of(alloc, names.ids, *sign, *site, of)
            }
        }
        Expr::Cast { site, to, of } => {
            let to = type_of_name(names.visible, to, *site)?;
            let of = value_of(alloc, names, of)?;
            converted_to(alloc, names.ids, *site, to, of)
        }
        Expr::Infix {
            site,
            sign,
            left,
            right,
        } => {
            if let Some(compared) = null_compared(names, *sign, left, right) {
                return Ok(null_value(alloc, compared)?);
            }
            if let Some(drawn) = drawn_for(names, *sign, *site) {
                return kept(alloc, *site, drawn);
            }
            let left = value_of(alloc, names, left)?;
            let right = value_of(alloc, names, right)?;
            infix_of(alloc, names.ids, *sign, *site, left, right)
        }
        Expr::Conditional {
            site,
            test,
            taken,
            skipped,
        } => {
            if let Some(drawn) = drawn_at(names, Sort::OfChoice, *site) {
                return kept(alloc, *site, drawn);
            }
            let test = value_of(alloc, names, test)?;
            let taken = value_of(alloc, names, taken)?;
            let skipped = value_of(alloc, names, skipped)?;
            conditional_of(alloc, names.ids, *site, test, taken, skipped)
        }
        Expr::SizeofType { site, of } => {
            let of = type_of_name(names.visible, of, *site)?;
            sizeof_type(alloc, names.ids, *site, of)
        }
        Expr::SizeofOf { site, of } => {
            let of = value_of(alloc, undrawn(names), of)?;
            sizeof_type(alloc, names.ids, *site, of.of)
        }
    }
}

/// The element that a pointer points to (C99 6.5.3.2).
#[tactic(auto, unfolding(crate::specs::Values::pointed_to))]
pub fn pointed_to(alloc: Global, names: Names, at: Site, of: &Expr) -> Result<Element, ValueError>
    ensures { Gives element_seen result (rules.pointed_to (names_seen names.entry) (site at) (expression of.now)) }
{
    let pointer = part_of(alloc, names, at, of)?;
    element_at(alloc, at, pointer, first_element(alloc)?)
}

/// The element `of[index]`, to be loaded or stored to (C99 6.5.2.1).
#[tactic(auto, unfolding(crate::specs::Values::element_of))]
pub fn element_of(
    alloc: Global,
    names: Names,
    at: Site,
    of: &Expr,
    index: &Expr,
) -> Result<Element, ValueError>
    ensures { Gives element_seen result (rules.element_of (names_seen names.entry) (site at) (expression of.now) (expression index.now)) }
{
    let part = part_of(alloc, names, at, of)?;
    let index = value_of(alloc, names, index)?;
    element_at(alloc, at, part, index)
}
