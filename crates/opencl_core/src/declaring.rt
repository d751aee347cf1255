//! Declarations in blocks.

ghost use Rattle.std.specs.Prelude.{◌≡◌, map};
ghost use Rattle.core_code.specs.View.{site as site_seen};
ghost use Rattle.opencl_tree.specs.View.{declaration as declaration_seen, declarator as declarator_seen, expression, initial as initial_seen, maybe, qualifiers as qualifiers_seen, space_of};
ghost use Rattle.opencl_terms.specs.Answers.{value_type};
ghost use Rattle.opencl_values.specs.View.{Gives, value as value_seen};
ghost use Rattle.opencl_core.specs.Declaring as rules;
ghost use Rattle.opencl_core.specs.View as seen;

use crate::components::set_picked;
use crate::constants::constant_of;
use crate::drawing::{begin, draw_whole};
use crate::locals::{LocalShape, MOST_ELEMENTS};
use crate::owning::declare_own;
use crate::pointing::declare_pointer;
use crate::rooms::Room;
use crate::sites::begin_of;
use core_code::tree::Site;
use opencl_terms::scalars::ValueType;
use opencl_tree::tree::{Declaration, Declarator, Expr, Initial};
use opencl_tree::types::{Qualifiers, Space};
use opencl_values::error::{Construct, Fault, ValueError, refused};
use opencl_values::names::type_of_base;
use opencl_values::scope::Meaning;
use opencl_values::values::value_of;
use opencl_values::vectors::converted_to;
use opencl_values::wholes::{Value, only, places, words};
use std::alloc::Global;

/// What the declarators of a declaration share.
#[derive(Clone, Copy)]
pub struct Shared {
    pub of: ValueType,
    pub qualifiers: Qualifiers,
}

// The number of the text that an expression is.
fn number_of(alloc: Global, of: &Expr, room: &Room) -> Result<u32, ValueError>
    ensures { Gives (λ n. n) result (rules.number_of (expression of.now) (seen.room room.now)) }
{
    let value = value_of(alloc, room.known(), of)?;
    let single = only(begin_of(of), value)?;
    match constant_of(&single.term) {
        Some(number) => Ok(number),
        None => refused(Fault::WrongType, begin_of(of)),
    }
}

fn length_of(
    alloc: Global,
    at: Site,
    dimension: &Option<Expr>,
    room: &Room,
) -> Result<u32, ValueError>
    ensures { Gives (λ n. n) result (rules.length_of (site_seen at) (maybe dimension.now) (seen.room room.now)) }
{
    let Some(of) = dimension else {
        return refused(Fault::WrongType, at);
    };
    let length = number_of(alloc, of, room)?;
    if 1 <= length && length <= MOST_ELEMENTS {
        Ok(length)
    } else {
        refused(Fault::TooMany, begin_of(of))
    }
}

/// The lengths of dimensions, the outermost first, and their product.
#[derive(Drop)]
pub struct Lengths {
    pub all: Vec<u32>,
    pub product: u32,
}

fn push_length(at: Site, so: &mut Lengths, length: u32) -> Result<(), ValueError>
    ensures { Gives (λ _. seen.lengths so.new) result (rules.with_length (site_seen at) (seen.lengths so.old) length) }
{
    match so.product.checked_mul(length) {
        Some(product) if product <= MOST_ELEMENTS => {
            so.all.push(length)?;
            so.product = product;
            Ok(())
        }
        _ => refused(Fault::TooMany, at),
    }
}

/// The lengths of dimensions.
pub fn lengths_of(
    alloc: Global,
    at: Site,
    dimensions: &[Option<Expr>],
    room: &Room,
) -> Result<Lengths, ValueError>
    ensures { Gives seen.lengths result (rules.lengths_behind (site_seen at) rules.no_lengths (map maybe dimensions.now) (seen.room room.now)) }
{
    let mut so = Lengths {
        all: Vec::new(alloc),
        product: 1,
    };
    for dimension in dimensions {
        let length = length_of(alloc, at, dimension, room)?;
        push_length(at, &mut so, length)?;
    }
    Ok(so)
}

fn begins_with_nothing(initial: &Initial) -> bool
    ensures { result ≡ rules.begins_with_nothing (initial_seen initial.now) }
{
    matches!(initial, Initial::Absent)
}

// The local array that a declarator with dimensions declares.
fn local_of(
    alloc: Global,
    shared: Shared,
    declarator: &Declarator,
    room: &Room,
) -> Result<LocalShape, ValueError>
    ensures { Gives seen.local result (rules.local_of (seen.shared shared) (declarator_seen declarator.now) (seen.room room.now)) }
{
    let lengths = lengths_of(alloc, declarator.site, &declarator.dimensions, room)?;
    if !begins_with_nothing(&declarator.initial) {
        return refused(Fault::WrongType, declarator.site);
    }
    let Some(count) = lengths.product.checked_mul(words(shared.of.width)) else {
        return Err(ValueError::Memory);
    };
    Ok(LocalShape {
        of: shared.of,
        count,
        lengths: lengths.all,
        is_constant: shared.qualifiers.constant,
    })
}

#[tactic(auto, using(crate::proofs::Lists::kept))]
fn declare_local<'a>(
    alloc: Global,
    shared: Shared,
    declarator: &'a Declarator,
    room: &mut Room<'a>,
) -> Result<(), ValueError>
    ensures { Gives (λ _. seen.room room.new) result (rules.declare_local_variable (seen.shared shared) (declarator_seen declarator.now) (declarator_seen declarator.now).dimensions (seen.room room.old)) }
{
    if declarator.dimensions.is_empty() {
        return refused(Fault::LeftOut(Construct::LocalScalar), declarator.site);
    }
    let local = local_of(alloc, shared, declarator, room)?;
    room.declare_local(alloc, declarator.site, declarator.name.as_str(), local)
}

// The value that a variable begins with.
fn first_value(
    alloc: Global,
    shared: Shared,
    declarator: &Declarator,
    value: &Expr,
    room: &Room,
) -> Result<Value, ValueError>
    ensures { Gives value_seen result (rules.first_value (seen.shared shared) (declarator_seen declarator.now) (expression value.now) (seen.room room.now)) }
{
    let value = value_of(alloc, room.known(), value)?;
    converted_to(alloc, room.ids, declarator.site, shared.of, value)
}

fn set_first(
    alloc: Global,
    shared: Shared,
    declarator: &Declarator,
    value: &Value,
    room: &mut Room,
) -> Result<(), ValueError>
    ensures { Gives (λ _. seen.room room.new) result (rules.set_first (seen.shared shared) (declarator_seen declarator.now) (value_seen value.now) (seen.room room.old)) }
{
    let at = declarator.site;
    let width = shared.of.width;
    let slot = room.next_slots(at, width)?;
    set_picked(alloc, at, slot, value, places(width), room)
}

// A variable that begins with a value, which is typed before the name is visible.
fn declare_set<'a>(
    alloc: Global,
    shared: Shared,
    declarator: &'a Declarator,
    value: &Expr,
    room: &mut Room<'a>,
) -> Result<(), ValueError>
    ensures { Gives (λ _. seen.room room.new) result (rules.declare_set (seen.shared shared) (declarator_seen declarator.now) (expression value.now) (seen.room room.old)) }
{
    let value = first_value(alloc, shared, declarator, value, room)?;
    set_first(alloc, shared, declarator, &value, room)?;
    room.declare_variable(
        alloc,
        declarator.site,
        declarator.name.as_str(),
        shared.of,
        shared.qualifiers.constant,
    )
}

#[tactic(auto, using(crate::proofs::Trees::lists))]
fn declare_private<'a>(
    alloc: Global,
    shared: Shared,
    declarator: &'a Declarator,
    room: &mut Room<'a>,
) -> Result<(), ValueError>
    ensures { Gives (λ _. seen.room room.new) result (rules.declare_private (seen.shared shared) (declarator_seen declarator.now) (declarator_seen declarator.now).initial (seen.room room.old)) }
{
    match &declarator.initial {
        Initial::Absent => room.declare_variable(
            alloc,
            declarator.site,
            declarator.name.as_str(),
            shared.of,
            shared.qualifiers.constant,
        ),
        Initial::Given(value) => {
            draw_whole(alloc, value, room)?;
            declare_set(alloc, shared, declarator, value, room)
        }
        Initial::Listed { site, .. } => refused(Fault::LeftOut(Construct::InitialList), *site),
    }
}

fn declare_variable<'a>(
    alloc: Global,
    shared: Shared,
    declarator: &'a Declarator,
    room: &mut Room<'a>,
) -> Result<(), ValueError>
    ensures { Gives (λ _. seen.room room.new) result (rules.declare_variable (seen.shared shared) (declarator_seen declarator.now) (declarator_seen declarator.now).dimensions (seen.room room.old)) }
{
    if declarator.dimensions.is_empty() {
        declare_private(alloc, shared, declarator, room)
    } else {
        declare_own(alloc, shared, declarator, room)
    }
}

fn declare_in_space<'a>(
    alloc: Global,
    shared: Shared,
    declarator: &'a Declarator,
    room: &mut Room<'a>,
) -> Result<(), ValueError>
    ensures { Gives (λ _. seen.room room.new) result (rules.declare_in_space (seen.shared shared) (declarator_seen declarator.now) (space_of shared.qualifiers.space) (seen.room room.old)) }
{
    match shared.qualifiers.space {
        None | Some(Space::Private) => declare_variable(alloc, shared, declarator, room),
        Some(Space::Local) => declare_local(alloc, shared, declarator, room),
        Some(Space::Constant) => {
            refused(Fault::LeftOut(Construct::ConstantVariable), declarator.site)
        }
        Some(Space::Global) => refused(Fault::WrongType, declarator.site),
    }
}

fn declare_starred<'a>(
    alloc: Global,
    shared: Shared,
    declarator: &'a Declarator,
    room: &mut Room<'a>,
) -> Result<(), ValueError>
    ensures { Gives (λ _. seen.room room.new) result (rules.declare_starred (seen.shared shared) (declarator_seen declarator.now) (declarator_seen declarator.now).dimensions (seen.room room.old)) }
{
    if declarator.dimensions.is_empty() {
        declare_pointer(alloc, shared, declarator, room)
    } else {
        refused(Fault::LeftOut(Construct::Pointer), declarator.site)
    }
}

#[tactic(auto, using(crate::proofs::Lists::kept))]
fn declare_one<'a>(
    alloc: Global,
    shared: Shared,
    declarator: &'a Declarator,
    room: &mut Room<'a>,
) -> Result<(), ValueError>
    ensures { Gives (λ _. seen.room room.new) result (rules.declare_one (seen.shared shared) (declarator_seen declarator.now) (declarator_seen declarator.now).stars (seen.room room.old)) }
{
    match declarator.stars.len() {
        0 => declare_in_space(alloc, shared, declarator, room),
        1 => declare_starred(alloc, shared, declarator, room),
        _ => refused(Fault::LeftOut(Construct::Pointer), declarator.site),
    }
}

fn declare_all<'a>(
    alloc: Global,
    shared: Shared,
    declarators: &'a [Declarator],
    room: &mut Room<'a>,
) -> Result<(), ValueError>
    ensures { Gives (λ _. seen.room room.new) result (rules.declare_all (seen.shared shared) (map declarator_seen declarators.now) (seen.room room.old)) }
{
    for declarator in declarators {
        begin(alloc, room);
        declare_one(alloc, shared, declarator, room)?;
    }
    Ok(())
}

// What declarators of a declaration share: its type, and its qualifiers.
fn shared_by(declaration: &Declaration, room: &Room) -> Result<Shared, ValueError>
    ensures { Gives seen.shared result (rules.shared_by (declaration_seen declaration.now) (seen.room room.now)) }
{
    let of = type_of_base(&room.visible, &declaration.base, declaration.site)?;
    Ok(Shared {
        of,
        qualifiers: declaration.qualifiers,
    })
}

/// Writes a declaration: each variable's value, which is typed before its name is visible (C99 6.2.1p7).
pub fn write_declaration<'a>(
    alloc: Global,
    declaration: &'a Declaration,
    room: &mut Room<'a>,
) -> Result<(), ValueError>
    ensures { Gives (λ _. seen.room room.new) result (rules.write_declaration (declaration_seen declaration.now) (seen.room room.old)) }
{
    let shared = shared_by(declaration, room)?;
    declare_all(alloc, shared, &declaration.declarators, room)
}

fn is_unqualified(qualifiers: Qualifiers) -> bool
    ensures { result ≡ rules.is_unqualified (qualifiers_seen qualifiers) (space_of qualifiers.space) }
{
    qualifiers.space.is_none() && !qualifiers.constant
}

fn name_type<'a>(
    shared: Shared,
    declarator: &'a Declarator,
    room: &mut Room<'a>,
) -> Result<(), ValueError>
    ensures { Gives (λ _. seen.room room.new) result (rules.name_type (seen.shared shared) (declarator_seen declarator.now) (declarator_seen declarator.now).stars (declarator_seen declarator.now).dimensions (seen.room room.old)) }
{
    let at = declarator.site;
    if !declarator.stars.is_empty() {
        return refused(Fault::LeftOut(Construct::Pointer), at);
    }
    if !declarator.dimensions.is_empty() {
        return refused(Fault::LeftOut(Construct::PrivateArray), at);
    }
    if !is_unqualified(shared.qualifiers) {
        return refused(Fault::LeftOut(Construct::ConstantVariable), at);
    }
    room.declare(at, declarator.name.as_str(), Meaning::Type(shared.of))
}

fn name_types<'a>(
    shared: Shared,
    declarators: &'a [Declarator],
    room: &mut Room<'a>,
) -> Result<(), ValueError>
    ensures { Gives (λ _. seen.room room.new) result (rules.name_types (seen.shared shared) (map declarator_seen declarators.now) (seen.room room.old)) }
{
    for declarator in declarators {
        name_type(shared, declarator, room)?;
    }
    Ok(())
}

/// Takes up the name of a type (C99 6.7.7).
pub fn write_typedef<'a>(
    declaration: &'a Declaration,
    room: &mut Room<'a>,
) -> Result<(), ValueError>
    ensures { Gives (λ _. seen.room room.new) result (rules.write_typedef (declaration_seen declaration.now) (seen.room room.old)) }
{
    let shared = shared_by(declaration, room)?;
    name_types(shared, &declaration.declarators, room)
}
