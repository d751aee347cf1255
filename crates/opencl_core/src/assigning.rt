//! Expressions that store, as statements.

ghost use Rattle.std.specs.Prelude.{◌≡◌, IfOk, length, map};
ghost use Rattle.core_code.specs.View.{array as array_seen, operator as operator_seen, site as site_seen, space as core_space, term};
ghost use Rattle.words.specs.View.{kind as kind_seen};
ghost use Rattle.syntax.specs.View.{assign_sign};
ghost use Rattle.opencl_tree.specs.View.{expression, base as base_seen, qualifiers as qualifiers_seen, step_sign as step_sign_seen, maybe};
ghost use Rattle.opencl_terms.specs.Answers.{value_type};
ghost use Rattle.opencl_terms.specs.View.{scalar as scalar_seen};
ghost use Rattle.opencl_values.specs.ElementsView.{element as element_seen, part as part_seen};
ghost use Rattle.opencl_values.specs.Scope as scope;
ghost use Rattle.opencl_values.specs.View.{Gives, meaning as meaning_seen, meaning_in, value as value_seen};
ghost use Rattle.opencl_values.specs.Elements as elements;
ghost use Rattle.opencl_values.specs.Members as members;
ghost use Rattle.opencl_values.specs.Values as values;
ghost use Rattle.opencl_terms.specs.Types as types;
ghost use Rattle.opencl_core.specs.Components as components;
ghost use Rattle.opencl_core.specs.Assigning as rules;
ghost use Rattle.opencl_core.specs.View as seen;

use crate::components::{Spot, keep_all, mixed_with, put_picked, store_all, store_vector};
use crate::pointing::{Pointed, is_same_view, offset_of, pointed_in};
use crate::rooms::Room;
use crate::sites::begin_of;
use crate::steady::is_steady;
use core_code::tree::{Array, Operator, Site, Space, Statement, Term};
use core_pieces::copies::copy_of;
use kernel_names::Sort;
use opencl_terms::narrowing::stored;
use opencl_terms::scalars::{Scalar, ValueType, is_unsettled};
use opencl_tree::tree::{Expr, PrefixSign, StepSign};
use opencl_tree::types::{Base, Qualifiers};
use opencl_values::elements::{Element, Part, as_offset, loaded_from, steps};
use opencl_values::error::{Construct, Fault, ValueError, refused};
use opencl_values::members::{picked_of, target_places};
use opencl_values::pointers::moved;
use opencl_values::scope::{Meaning, meaning_of};
use opencl_values::singles::{Single, alone};
use opencl_values::values::{element_of, part_of, pointed_to, value_of, variable_value};
use opencl_values::vectors::{converted_to, infix_of};
use opencl_values::views::{memory_of, pieces};
use opencl_values::wholes::{Value, is_same_type, only, places, single_in, whole};
use std::alloc::{AllocError, Global};
use syntax::tree::{AssignSign, InfixSign};
use words::Kind;

/// An assignment but for its target: where it begins, its operator with its site, and its value, which is 1 where there is none.
#[derive(Clone, Copy)]
pub struct Change<'a> {
    pub at: Site,
    pub sign: AssignSign,
    pub sign_site: Site,
    pub value: Option<&'a Expr>,
}

fn one(alloc: Global) -> Result<Value, AllocError>
    ensures { IfOk result (λ v. value_seen v ≡ rules.one) }
{
    let one = Single {
        scalar: Scalar::Int,
        term: Term::Literal {
            kind: Kind::Int,
            value: 1,
        },
    };
    whole(alloc, one)
}

fn value_in(alloc: Global, value: Option<&Expr>, room: &Room) -> Result<Value, ValueError>
    ensures { Gives value_seen result (rules.value_in (seen.value_given value.entry) (seen.room room.now)) }
{
    match value {
        None => Ok(one(alloc)?),
        Some(of) => value_of(alloc, room.known(), of),
    }
}

// Whether the low bits of a result follow from the low bits of its operands.
fn keeps_bits(operator: Operator) -> bool
    ensures { result ≡ rules.keeps_bits (operator_seen operator) }
{
    !matches!(operator, Operator::Divide | Operator::Remainder)
}

// The new value as it stands beside the old one.
fn settled(
    alloc: Global,
    ids: Kind,
    operator: Operator,
    at: Site,
    old: &Value,
    new: Value,
) -> Result<Value, ValueError>
    ensures { Gives value_seen result (rules.settled (kind_seen ids) (operator_seen operator) (site_seen at) (value_seen old.now) (value_seen new)) }
{
    if keeps_bits(operator) && is_unsettled(old.of.scalar, new.of.scalar) {
        converted_to(alloc, ids, at, old.of, new)
    } else {
        Ok(new)
    }
}

/// The value that an operator makes of the old and the new one.
pub fn combined(
    alloc: Global,
    ids: Kind,
    sign: AssignSign,
    at: Site,
    old: Value,
    new: Value,
) -> Result<Value, ValueError>
    ensures { Gives value_seen result (rules.combined (kind_seen ids) (assign_sign sign) (site_seen at) (value_seen old) (value_seen new)) }
{
    match sign {
        AssignSign::Plain => Ok(new),
        AssignSign::With(operator) => {
            let new = settled(alloc, ids, operator, at, &old, new)?;
            infix_of(alloc, ids, InfixSign::Arithmetic(operator), at, old, new)
        }
        AssignSign::WithLeftShift => infix_of(alloc, ids, InfixSign::LeftShift, at, old, new),
        AssignSign::WithRightShift => infix_of(alloc, ids, InfixSign::RightShift, at, old, new),
    }
}

/// What a target gets, in its own type, by what it had.
pub fn assigned(
    alloc: Global,
    change: Change,
    to: ValueType,
    old: Value,
    room: &Room,
) -> Result<Value, ValueError>
    ensures { Gives value_seen result (rules.assigned (seen.change change.entry) (value_type to) (value_seen old) (seen.room room.now)) }
{
    let new = value_in(alloc, change.value, room)?;
    let value = combined(alloc, room.ids, change.sign, change.sign_site, old, new)?;
    converted_to(alloc, room.ids, change.sign_site, to, value)
}

// The type and the slot of a variable that may be assigned.
fn variable_of(at: Site, meaning: &Meaning) -> Result<(ValueType, u32), ValueError>
    ensures { Gives (λ x. (value_type x.0, x.1)) result (rules.variable_of (site_seen at) (meaning_seen meaning.now)) }
{
    match meaning {
        Meaning::Variable {
            of,
            slot,
            is_constant,
        } => {
            if *is_constant {
                return refused(Fault::WriteToConst, at);
            }
            Ok((*of, *slot))
        }
        _ => refused(Fault::WrongType, at),
    }
}

// The type and the slot of a name that may be assigned.
fn slot_named(at: Site, name: &str, room: &Room) -> Result<(ValueType, u32), ValueError>
    ensures { Gives (λ x. (value_type x.0, x.1)) result (rules.slot_named (site_seen at) name.now (seen.room room.now)) }
{
    match meaning_of(&room.visible, name) {
        None => refused(Fault::UnknownName, at),
        Some(meaning) => variable_of(at, meaning),
    }
}

// The type of some components.
fn type_picked(of: ValueType, picked: &[u32]) -> Result<ValueType, AllocError>
    ensures { IfOk result (λ t. value_type t ≡ types.type_of (value_type of).scalar (length picked.now)) }
{
    match u32::try_from(picked.len()) {
        Ok(width) => Ok(ValueType {
            scalar: of.scalar,
            width,
        }),
        Err(_) => Err(AllocError),
    }
}

// What components of a variable had.
fn old_components(
    alloc: Global,
    ids: Kind,
    at: Site,
    variable: (ValueType, u32),
    picked: &[u32],
) -> Result<Value, AllocError>
    ensures { IfOk result (λ v. value_seen v ≡ members.picked_of (kind_seen ids) (site_seen at) (values.variable_value (site_seen at) (value_type variable.0) variable.1) picked.now) }
{
    let old = variable_value(alloc, at, variable.0, variable.1)?;
    picked_of(alloc, ids, at, &old, picked)
}

fn change_slots(
    alloc: Global,
    change: Change,
    variable: (ValueType, u32),
    picked: &[u32],
    room: &mut Room,
) -> Result<(), ValueError>
    ensures { Gives (λ _. seen.room room.new) result (rules.change_slots (seen.change change.entry) (value_type variable.0, variable.1) picked.now (seen.room room.old)) }
{
    let to = type_picked(variable.0, picked)?;
    let old = old_components(alloc, room.ids, change.at, variable, picked)?;
    let value = assigned(alloc, change, to, old, room)?;
    put_picked(alloc, change.at, variable.1, picked, &value, room)
}

fn change_variable(
    alloc: Global,
    change: Change,
    at: Site,
    name: &str,
    room: &mut Room,
) -> Result<(), ValueError>
    ensures { Gives (λ _. seen.room room.new) result (rules.change_variable (seen.change change.entry) (site_seen at) name.now (seen.room room.old)) }
{
    let variable = slot_named(at, name, room)?;
    change_slots(alloc, change, variable, places(variable.0.width), room)
}

/// A member that is assigned to: where its `.` stands, and its name.
#[derive(Clone, Copy)]
pub struct Dotted<'a> {
    pub at: Site,
    pub name: &'a str,
}

fn change_member(
    alloc: Global,
    change: Change,
    member: Dotted,
    at: Site,
    name: &str,
    room: &mut Room,
) -> Result<(), ValueError>
    ensures { Gives (λ _. seen.room room.new) result (rules.change_member (seen.change change.entry) (site_seen member.entry.at) (site_seen at) name.now member.entry.name.now (seen.room room.old)) }
{
    let variable = slot_named(at, name, room)?;
    let picked = target_places(alloc, member.at, variable.0, member.name)?;
    change_slots(alloc, change, variable, picked.as_slice(), room)
}

// A store of what an element gets.
fn store(
    alloc: Global,
    change: Change,
    element: Element,
    scalar: Scalar,
    value: Term,
    room: &mut Room,
) -> Result<(), ValueError>
    ensures { Gives (λ _. seen.room room.new) result (rules.store (seen.change change.entry) (element_seen element) (scalar_seen scalar) (term value) (seen.room room.old)) }
{
    let number = room.count(change.at)?;
    let value = stored(alloc, scalar, change.sign_site, value)?;
    let statement = Statement::Store {
        number,
        array: element.array,
        site: change.at,
        index: element.index,
        value,
    };
    room.put(statement, change.at, Sort::Other, &[])?;
    Ok(())
}

fn store_single(
    alloc: Global,
    change: Change,
    element: Element,
    value: Value,
    room: &mut Room,
) -> Result<(), ValueError>
    ensures { Gives (λ _. seen.room room.new) result (rules.store_single (seen.change change.entry) (element_seen element) (value_seen value) (seen.room room.old)) }
{
    let scalar = element.element.scalar;
    let single = single_in(value);
    store(alloc, change, element, scalar, single.term, room)
}

// The value that an element had.
fn old_value(alloc: Global, at: Site, element: &Element) -> Result<Value, AllocError>
    ensures { IfOk result (λ v. value_seen v ≡ elements.loaded_from (site_seen at) (element_seen element.now)) }
{
    let once_more = Element {
        array: element.array,
        element: element.element,
        is_constant: element.is_constant,
        index: copy_of(alloc, &element.index)?,
        over: element.over,
    };
    loaded_from(alloc, at, once_more)
}

fn change_loaded(
    alloc: Global,
    change: Change,
    element: Element,
    room: &mut Room,
) -> Result<(), ValueError>
    ensures { Gives (λ _. seen.room room.new) result (rules.change_loaded (seen.change change.entry) (element_seen element) (seen.room room.old)) }
{
    let old = old_value(alloc, change.at, &element)?;
    let to = alone(element.element.scalar);
    let value = assigned(alloc, change, to, old, room)?;
    store_single(alloc, change, element, value, room)
}

/// An element that may be stored to, with the kind of its index.
#[derive(Drop)]
pub struct Target {
    pub element: Element,
    pub kind: Kind,
}

// With the index in a variable that is made up.
fn keep_index(
    alloc: Global,
    change: Change,
    target: Target,
    room: &mut Room,
) -> Result<Element, ValueError>
    ensures { Gives (λ x. (element_seen x, seen.room room.new)) result (rules.keep_index (seen.change change.entry) (seen.target target) (seen.room room.old)) }
{
    let Target { element, kind } = target;
    let slot = room.next_slot(change.at)?;
    let kept = Element {
        array: element.array,
        element: element.element,
        is_constant: element.is_constant,
        index: Term::Variable { slot },
        over: element.over,
    };
    room.set(slot, element.index, change.at)?;
    room.make_up(alloc, change.at, kind)?;
    Ok(kept)
}

fn change_kept(
    alloc: Global,
    change: Change,
    target: Target,
    room: &mut Room,
) -> Result<(), ValueError>
    ensures { Gives (λ _. seen.room room.new) result (rules.change_kept (seen.change change.entry) (seen.target target) (seen.room room.old)) }
{
    let kept = keep_index(alloc, change, target, room)?;
    change_loaded(alloc, change, kept, room)
}

fn change_plain(
    alloc: Global,
    change: Change,
    element: Element,
    room: &mut Room,
) -> Result<(), ValueError>
    ensures { Gives (λ _. seen.room room.new) result (rules.change_plain (seen.change change.entry) (element_seen element) (seen.room room.old)) }
{
    let to = alone(element.element.scalar);
    let old = one(alloc)?;
    let value = assigned(alloc, change, to, old, room)?;
    store_single(alloc, change, element, value, room)
}

fn change_element(
    alloc: Global,
    change: Change,
    target: Target,
    room: &mut Room,
) -> Result<(), ValueError>
    ensures { Gives (λ _. seen.room room.new) result (rules.change_element (seen.change change.entry) (assign_sign change.entry.sign) (seen.target target) (seen.room room.old)) }
{
    if let AssignSign::Plain = change.sign {
        return change_plain(alloc, change, target.element, room);
    }
    if is_steady(&target.element.index) {
        change_loaded(alloc, change, target.element, room)
    } else {
        change_kept(alloc, change, target, room)
    }
}

// What components of an element had.
fn old_picked(
    alloc: Global,
    ids: Kind,
    at: Site,
    element: &Element,
    picked: &[u32],
) -> Result<Value, AllocError>
    ensures { IfOk result (λ v. value_seen v ≡ members.picked_of (kind_seen ids) (site_seen at) (elements.loaded_from (site_seen at) (element_seen element.now)) picked.now) }
{
    let old = old_value(alloc, at, element)?;
    picked_of(alloc, ids, at, &old, picked)
}

fn mixed(
    alloc: Global,
    ids: Kind,
    at: Site,
    element: &Element,
    picked: &[u32],
    new: &Value,
) -> Result<Value, AllocError>
    ensures { IfOk result (λ v. value_seen v ≡ components.mixed_with (kind_seen ids) (site_seen at) (element_seen element.now).element picked.now (value_seen new.now) (elements.loaded_from (site_seen at) (element_seen element.now))) }
{
    let old = old_value(alloc, at, element)?;
    mixed_with(alloc, ids, at, element.element, picked, (new, &old))
}

// All elements of a vector, of which some components are assigned.
fn new_vector(
    alloc: Global,
    change: Change,
    element: &Element,
    picked: &[u32],
    room: &Room,
) -> Result<Value, ValueError>
    ensures { Gives value_seen result (rules.new_vector (seen.change change.entry) (element_seen element.now) picked.now (seen.room room.now)) }
{
    let to = type_picked(element.element, picked)?;
    let old = old_picked(alloc, room.ids, change.at, element, picked)?;
    let value = assigned(alloc, change, to, old, room)?;
    Ok(mixed(alloc, room.ids, change.at, element, picked, &value)?)
}

fn change_steady(
    alloc: Global,
    change: Change,
    element: Element,
    picked: &[u32],
    room: &mut Room,
) -> Result<(), ValueError>
    ensures { Gives (λ _. seen.room room.new) result (rules.change_steady (seen.change change.entry) (element_seen element) picked.now (seen.room room.old)) }
{
    let value = new_vector(alloc, change, &element, picked, room)?;
    let spot = Spot {
        at: change.at,
        sign_site: change.sign_site,
    };
    store_vector(alloc, spot, &element, &value, room)
}

fn change_vector_kept(
    alloc: Global,
    change: Change,
    target: Target,
    picked: &[u32],
    room: &mut Room,
) -> Result<(), ValueError>
    ensures { Gives (λ _. seen.room room.new) result (rules.change_vector_kept (seen.change change.entry) (seen.target target) picked.now (seen.room room.old)) }
{
    let kept = keep_index(alloc, change, target, room)?;
    change_steady(alloc, change, kept, picked, room)
}

fn change_vector(
    alloc: Global,
    change: Change,
    target: Target,
    picked: &[u32],
    room: &mut Room,
) -> Result<(), ValueError>
    ensures { Gives (λ _. seen.room room.new) result (rules.change_vector (seen.change change.entry) (seen.target target) picked.now (seen.room room.old)) }
{
    let index = &target.element.index;
    if is_steady(index) {
        change_steady(alloc, change, target.element, picked, room)
    } else {
        change_vector_kept(alloc, change, target, picked, room)
    }
}

// The kind of the index of an element, by what stands in front of its bracket.
fn kind_in_part(ids: Kind, of: &Part, index: Scalar) -> Kind
    ensures { kind_seen result ≡ rules.kind_in_part (kind_seen ids) (part_seen of.now) (scalar_seen index) }
{
    if of.over.is_some() {
        return Kind::Uint;
    }
    match (of.lengths, &of.index, &of.offset) {
        ([] | [_], None, None) => index.kind(ids),
        ([] | [_], None, Some(_)) => Kind::Int,
        _ => Kind::Uint,
    }
}

fn index_kind(
    alloc: Global,
    at: Site,
    of: &Expr,
    index: &Expr,
    room: &Room,
) -> Result<Kind, ValueError>
    ensures { Gives kind_seen result (rules.index_kind (seen.room room.now) (site_seen at) (expression of.now) (expression index.now)) }
{
    let part = part_of(alloc, room.known(), at, of)?;
    let index = value_of(alloc, room.known(), index)?;
    Ok(kind_in_part(room.ids, &part, index.of.scalar))
}

fn pointed_kind(alloc: Global, at: Site, of: &Expr, room: &Room) -> Result<Kind, ValueError>
    ensures { Gives kind_seen result (rules.pointed_kind (seen.room room.now) (site_seen at) (expression of.now)) }
{
    let part = part_of(alloc, room.known(), at, of)?;
    Ok(kind_in_part(room.ids, &part, Scalar::Int))
}

// An element that a pointer points to, which may be stored to.
fn pointed_target(
    alloc: Global,
    change: Change,
    at: Site,
    of: &Expr,
    room: &Room,
) -> Result<Target, ValueError>
    ensures { Gives seen.target result (rules.pointed_target (seen.change change.entry) (site_seen at) (expression of.now) (seen.room room.now)) }
{
    let element = pointed_to(alloc, room.known(), at, of)?;
    let kind = pointed_kind(alloc, at, of, room)?;
    if element.is_constant {
        return refused(Fault::WriteToConst, change.at);
    }
    let kind = kind_for(element.element, kind);
    Ok(Target { element, kind })
}

fn change_pointed(
    alloc: Global,
    change: Change,
    at: Site,
    of: &Expr,
    room: &mut Room,
) -> Result<(), ValueError>
    ensures { Gives (λ _. seen.room room.new) result (rules.change_pointed (seen.change change.entry) (site_seen at) (expression of.now) (seen.room room.old)) }
{
    let target = pointed_target(alloc, change, at, of, room)?;
    change_whole(alloc, change, target, room)
}

fn kind_for(of: ValueType, kind: Kind) -> Kind
    ensures { kind_seen result ≡ rules.kind_for (value_type of) (kind_seen kind) }
{
    if of.is_vector() { Kind::Uint } else { kind }
}

fn target_of(
    alloc: Global,
    change: Change,
    at: Site,
    of: &Expr,
    index: &Expr,
    room: &Room,
) -> Result<Target, ValueError>
    ensures { Gives seen.target result (rules.target_of (seen.change change.entry) (site_seen at) (expression of.now) (expression index.now) (seen.room room.now)) }
{
    let element = element_of(alloc, room.known(), at, of, index)?;
    let kind = index_kind(alloc, at, of, index, room)?;
    if element.is_constant {
        return refused(Fault::WriteToConst, change.at);
    }
    let kind = kind_for(element.element, kind);
    Ok(Target { element, kind })
}

// A store to what is seen as another type, as one to the elements under it.
fn store_over(
    alloc: Global,
    change: Change,
    element: &Element,
    over: Scalar,
    of: &Value,
    room: &mut Room,
) -> Result<(), ValueError>
    ensures { Gives (λ _. seen.room room.new) result (rules.store_over (seen.change change.entry) (element_seen element.now) (scalar_seen over) (value_seen of.now) (seen.room room.old)) }
{
    let to = of.of;
    let kept = keep_all(alloc, change.at, of, to.width, room)?;
    let memory = memory_of(alloc, change.at, over, &kept)?;
    let spot = Spot {
        at: change.at,
        sign_site: change.sign_site,
    };
    store_all(
        alloc,
        spot,
        element,
        &memory,
        places(pieces(over, to)),
        room,
    )
}

fn change_kept_over(
    alloc: Global,
    change: Change,
    element: &Element,
    over: Scalar,
    room: &mut Room,
) -> Result<(), ValueError>
    ensures { Gives (λ _. seen.room room.new) result (rules.change_kept_over (seen.change change.entry) (element_seen element.now) (scalar_seen over) (seen.room room.old)) }
{
    let old = old_value(alloc, change.at, element)?;
    let value = assigned(alloc, change, element.element, old, room)?;
    store_over(alloc, change, element, over, &value, room)
}

fn change_over(
    alloc: Global,
    change: Change,
    over: Scalar,
    target: Target,
    room: &mut Room,
) -> Result<(), ValueError>
    ensures { Gives (λ _. seen.room room.new) result (rules.change_over (seen.change change.entry) (scalar_seen over) (seen.target target) (seen.room room.old)) }
{
    let kept = keep_index(alloc, change, target, room)?;
    change_kept_over(alloc, change, &kept, over, room)
}

fn change_whole(
    alloc: Global,
    change: Change,
    target: Target,
    room: &mut Room,
) -> Result<(), ValueError>
    ensures { Gives (λ _. seen.room room.new) result (rules.change_whole (seen.change change.entry) (seen.target target) (seen.room room.old)) }
{
    if let Some(over) = target.element.over {
        return change_over(alloc, change, over, target, room);
    }
    let of = target.element.element;
    if of.is_vector() {
        change_vector(alloc, change, target, places(of.width), room)
    } else {
        change_element(alloc, change, target, room)
    }
}

fn change_indexed(
    alloc: Global,
    change: Change,
    at: Site,
    of: &Expr,
    index: &Expr,
    room: &mut Room,
) -> Result<(), ValueError>
    ensures { Gives (λ _. seen.room room.new) result (rules.change_indexed (seen.change change.entry) (site_seen at) (expression of.now) (expression index.now) (seen.room room.old)) }
{
    let target = target_of(alloc, change, at, of, index, room)?;
    change_whole(alloc, change, target, room)
}

fn change_indexed_member(
    alloc: Global,
    change: Change,
    member: Dotted,
    at: Site,
    element: (&Expr, &Expr),
    room: &mut Room,
) -> Result<(), ValueError>
    ensures { Gives (λ _. seen.room room.new) result (rules.change_indexed_member (seen.change change.entry) (site_seen member.entry.at) (site_seen at) (expression element.entry.0.now) (expression element.entry.1.now) member.entry.name.now (seen.room room.old)) }
{
    let target = target_of(alloc, change, at, element.0, element.1, room)?;
    if target.element.over.is_some() {
        return refused(Fault::LeftOut(Construct::Vector), member.at);
    }
    let picked = target_places(alloc, member.at, target.element.element, member.name)?;
    change_vector(alloc, change, target, picked.as_slice(), room)
}

// A change of a member of what stands to its left.
fn change_in(
    alloc: Global,
    change: Change,
    member: Dotted,
    to: &Expr,
    room: &mut Room,
) -> Result<(), ValueError>
    ensures { Gives (λ _. seen.room room.new) result (rules.change_in (seen.change change.entry) (site_seen member.entry.at) (expression to.now) member.entry.name.now (seen.room room.old)) }
{
    match to {
        Expr::Name { site, name } => {
            change_member(alloc, change, member, *site, name.as_str(), room)
        }
        Expr::Index { site, of, index } => {
            change_indexed_member(alloc, change, member, *site, (of, index), room)
        }
        _ => refused(Fault::LeftOut(Construct::Vector), member.at),
    }
}

/// What a pointer variable is: its array, its type, whether it points into a private array, the scalar of a buffer whose elements it sees
/// as ones of another type, its slot.
#[derive(Clone, Copy)]
pub struct Pointing {
    pub array: Array,
    pub element: ValueType,
    pub is_own: bool,
    pub over: Option<Scalar>,
    pub slot: u32,
}

fn pointing_meant(meaning: Option<&Meaning>) -> Option<Pointing>
    ensures { seen.maybe_pointing result ≡ rules.pointing_meant (meaning_in meaning.entry) }
{
    match meaning {
        Some(
            Meaning::Pointer {
                array,
                element,
                row,
                over,
                slot,
                ..
            },
        ) => Some(Pointing {
            array: *array,
            element: *element,
            is_own: row.is_some(),
            over: *over,
            slot: *slot,
        }),
        _ => None,
    }
}

fn space_number(space: Space) -> u32
    ensures { result ≡ rules.space_number (core_space space) }
{
    match space {
        Space::Global => 0,
        Space::Local => 1,
    }
}

fn is_same_array(a: Array, b: Array) -> bool
    ensures { result ≡ rules.is_same_array (array_seen a) (array_seen b) }
{
    space_number(a.space) == space_number(b.space) && a.number == b.number
}

fn may_become(pointing: Pointing, to: &Pointed) -> bool
    ensures { result ≡ rules.may_become (seen.pointing pointing) (seen.pointed to.now) }
{
    is_same_array(pointing.array, to.array)
        && is_same_type(pointing.element, to.element)
        && is_same_view(pointing.over, to.over)
        && !(pointing.is_own || to.row.is_some())
}

fn pointer_assign(
    alloc: Global,
    change: Change,
    pointing: Pointing,
    room: &mut Room,
) -> Result<(), ValueError>
    ensures { Gives (λ _. seen.room room.new) result (rules.pointer_assign (seen.change change.entry) (seen.pointing pointing) (seen.value_given change.entry.value) (seen.room room.old)) }
{
    let Some(value) = change.value else {
        return refused(Fault::WrongType, change.at);
    };
    let to = pointed_in(alloc, change.sign_site, value, room)?;
    if may_become(pointing, &to) {
        room.set(pointing.slot, offset_of(to.offset), change.at)
    } else {
        refused(Fault::LeftOut(Construct::Pointer), change.at)
    }
}

fn pointer_move(
    alloc: Global,
    change: Change,
    operator: Operator,
    pointing: Pointing,
    room: &mut Room,
) -> Result<(), ValueError>
    ensures { Gives (λ _. seen.room room.new) result (rules.pointer_move (seen.change change.entry) (operator_seen operator) (seen.pointing pointing) (seen.room room.old)) }
{
    let by = value_in(alloc, change.value, room)?;
    let by = only(change.at, by)?;
    if by.scalar.is_float() {
        return refused(Fault::WrongType, change.at);
    }
    let by = as_offset(alloc, change.sign_site, by)?;
    let by = steps(alloc, change.sign_site, pointing.over, pointing.element, by)?;
    let offset = Some(Term::Variable {
        slot: pointing.slot,
    });
    let offset = moved(alloc, change.sign_site, operator, offset, by)?;
    room.set(pointing.slot, offset, change.at)
}

fn change_pointer(
    alloc: Global,
    change: Change,
    pointing: Pointing,
    room: &mut Room,
) -> Result<(), ValueError>
    ensures { Gives (λ _. seen.room room.new) result (rules.change_pointer (seen.change change.entry) (assign_sign change.entry.sign) (seen.pointing pointing) (seen.room room.old)) }
{
    match change.sign {
        AssignSign::Plain => pointer_assign(alloc, change, pointing, room),
        AssignSign::With(Operator::Add) => {
            pointer_move(alloc, change, Operator::Add, pointing, room)
        }
        AssignSign::With(Operator::Subtract) => {
            pointer_move(alloc, change, Operator::Subtract, pointing, room)
        }
        _ => refused(Fault::WrongType, change.at),
    }
}

fn change_named(
    alloc: Global,
    change: Change,
    at: Site,
    name: &str,
    room: &mut Room,
) -> Result<(), ValueError>
    ensures { Gives (λ _. seen.room room.new) result (rules.change_named (seen.change change.entry) (site_seen at) name.now (rules.pointing_meant (scope.meaning_of (seen.room room.old).visible name.now)) (seen.room room.old)) }
{
    match pointing_meant(meaning_of(&room.visible, name)) {
        None => change_variable(alloc, change, at, name, room),
        Some(pointing) => change_pointer(alloc, change, pointing, room),
    }
}

/// A change of what stands to its left.
pub fn change_at(
    alloc: Global,
    change: Change,
    to: &Expr,
    room: &mut Room,
) -> Result<(), ValueError>
    ensures { Gives (λ _. seen.room room.new) result (rules.change (seen.change change.entry) (expression to.now) (seen.room room.old)) }
{
    match to {
        Expr::Name { site, name } => change_named(alloc, change, *site, name.as_str(), room),
        Expr::Index { site, of, index } => change_indexed(alloc, change, *site, of, index, room),
        Expr::Member { site, of, name } => {
            let member = Dotted {
                at: *site,
                name: name.as_str(),
            };
            change_in(alloc, change, member, of, room)
        }
        Expr::Prefix {
            site,
            sign: PrefixSign::Indirection,
            of,
        } => change_pointed(alloc, change, *site, of, room),
        _ => refused(Fault::WrongType, change.at),
    }
}

/// The sign of the assignment that a step is.
pub fn step_sign(sign: StepSign) -> AssignSign
    ensures { assign_sign result ≡ rules.step_sign (step_sign_seen sign) }
{
    match sign {
        StepSign::Increment => AssignSign::With(Operator::Add),
        StepSign::Decrement => AssignSign::With(Operator::Subtract),
    }
}

/// Whether a type is `void`, without stars.
pub fn is_void(base: &Base, stars: &[Qualifiers]) -> bool
    ensures { result ≡ rules.is_void (base_seen base.now) (map qualifiers_seen stars.now) }
{
    match base {
        Base::Void => stars.is_empty(),
        Base::Numbers { .. } | Base::Alias(_) => false,
    }
}

/// Writes an expression whose value is not used: what it stores.
pub fn effect(alloc: Global, of: &Expr, room: &mut Room) -> Result<(), ValueError>
    ensures { Gives (λ _. seen.room room.new) result (rules.effect (expression of.now) (seen.room room.old)) }
{
    match of {
        Expr::Assign {
            site,
            sign,
            target,
            value,
        } => {
            let change = Change {
                at: begin_of(target),
                sign: *sign,
                sign_site: *site,
                value: Some(value),
            };
            change_at(alloc, change, target, room)
        }
        Expr::Step {
            site,
            sign,
            of: to,
            ..
        } => {
            let change = Change {
                at: begin_of(of),
                sign: step_sign(*sign),
                sign_site: *site,
                value: None,
            };
            change_at(alloc, change, to, room)
        }
        Expr::Comma { first, second, .. } => {
            effect(alloc, first, room)?;
            effect(alloc, second, room)
        }
        Expr::Cast { site, to, of } => {
            if is_void(&to.base, &to.stars) {
                effect(alloc, of, room)
            } else {
                refused(Fault::LeftOut(Construct::Effect), *site)
            }
        }
        _ => refused(Fault::LeftOut(Construct::Effect), begin_of(of)),
    }
}
