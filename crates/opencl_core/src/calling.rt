//! Calls of functions of the file.

ghost use Rattle.std.specs.Prelude.{◌≡◌, ◌+◌, ◌++◌, ◌∷◌, [], nat_le, IfOk, OnOk, map};
ghost use Rattle.core_code.specs.View.{array as array_seen, site as site_seen, space as space_seen};
ghost use Rattle.core_moves.specs.Moving as moves;
ghost use Rattle.core_moves.specs.View.{target as target_seen};
ghost use Rattle.kernel_names.specs.View.{standing as standing_seen, variable as variable_seen};
ghost use Rattle.opencl_tree.specs.View.{expression, expressions};
ghost use Rattle.opencl_terms.specs.Answers.{value_type};
ghost use Rattle.opencl_values.specs.ElementsView.{maybe_term};
ghost use Rattle.opencl_values.specs.View.{Gives, meaning_in};
ghost use Rattle.opencl_core.specs.Calling as rules;
ghost use Rattle.opencl_core.specs.View as seen;

use crate::built_ins::is_built_in;
use crate::components::{is_same_space, set_picked};
use crate::flags::is_hidden;
use crate::pointing::{Pointed, offset_of, pointed_in};
use crate::rooms::{MOST_SLOTS, MOST_STATEMENTS, Room};
use crate::sites::begin_of;
use crate::templates::{Returned, Taken, Template, Text, template_named};
use core_code::tree::{Array, Site, Space as CoreSpace, Term};
use core_moves::moving::{Move, Target, push_moved};
use kernel_names::{Standing, Variable};
use opencl_effects::effects::is_helper;
use opencl_effects::marks::Sort;
use opencl_terms::scalars::ValueType;
use opencl_tree::tree::Expr;
use opencl_values::error::{Construct, Fault, ValueError, refused};
use opencl_values::scope::{Meaning, meaning_of};
use opencl_values::values::value_of;
use opencl_values::vectors::converted_to;
use opencl_values::wholes::{is_same_type, places};
use std::alloc::{AllocError, Global};

fn may_bind(space: CoreSpace, element: ValueType, of: &Pointed) -> bool
    ensures { result ≡ rules.may_bind (space_seen space) (value_type element) (seen.pointed of.now) }
{
    is_same_space(space, of.array.space)
        && is_same_type(element, of.element)
        && !(of.row.is_some() || of.over.is_some())
}

// What a parameter for an array is bound to.
fn bound_to(
    at: Site,
    space: CoreSpace,
    element: ValueType,
    constant: bool,
    of: Pointed,
) -> Result<Pointed, ValueError>
    ensures { Gives seen.pointed result (rules.bound_to (site_seen at) (space_seen space) (value_type element) constant (seen.pointed of)) }
{
    if !may_bind(space, element, &of) {
        return refused(Fault::LeftOut(Construct::Pointer), at);
    }
    if of.is_constant && !constant {
        return refused(Fault::WrongType, at);
    }
    Ok(of)
}

// A slot behind the first ones.
fn slot_behind(base: u32, slot: u32) -> Result<u32, AllocError>
    ensures { IfOk result (λ n. n ≡ base + slot) }
{
    base.checked_add(slot).ok_or(AllocError)
}

fn set_offset(
    at: Site,
    base: u32,
    slot: Option<u32>,
    offset: Option<Term>,
    room: &mut Room,
) -> Result<(), ValueError>
    ensures { Gives (λ _. seen.room room.new) result (rules.set_offset (site_seen at) base slot (maybe_term offset) (seen.room room.old)) }
{
    match (slot, offset) {
        (Some(slot), offset) => {
            let slot = slot_behind(base, slot)?;
            room.set(slot, offset_of(offset), at)
        }
        (None, None) => Ok(()),
        (None, Some(_)) => refused(Fault::LeftOut(Construct::Pointer), at),
    }
}

#[tactic(auto, using(crate::proofs::Trees::parts))]
fn push_target(array: Array, targets: &mut Vec<Target>) -> Result<(), AllocError>
    ensures { OnOk result (map target_seen targets.new.items ≡ map target_seen targets.old.items ++ moves.whole (array_seen array) ∷ []) }
{
    targets.push(Target { array })?;
    Ok(())
}

fn pointer_argument(
    at: Site,
    base: u32,
    parameter: Taken,
    of: Pointed,
    targets: &mut Vec<Target>,
    room: &mut Room,
) -> Result<(), ValueError>
    ensures { Gives (λ _. (map target_seen targets.new.items, seen.room room.new)) result (rules.pointer_argument (site_seen at) base (seen.taken parameter) (seen.pointed of) (map target_seen targets.old.items) (seen.room room.old)) }
{
    let Taken::Array {
        space,
        element,
        is_constant,
        offset,
    } = parameter
    else {
        return refused(Fault::WrongType, at);
    };
    let bound = bound_to(at, space, element, is_constant, of)?;
    push_target(bound.array, targets)?;
    set_offset(at, base, offset, bound.offset, room)
}

fn value_argument(
    alloc: Global,
    at: Site,
    base: u32,
    parameter: (ValueType, u32),
    argument: &Expr,
    room: &mut Room,
) -> Result<(), ValueError>
    ensures { Gives (λ _. seen.room room.new) result (rules.value_argument (site_seen at) base (value_type parameter.0) parameter.1 (expression argument.now) (seen.room room.old)) }
{
    let (of, slot) = parameter;
    let value = value_of(alloc, room.known(), argument)?;
    let value = converted_to(alloc, room.ids, at, of, value)?;
    let slot = slot_behind(base, slot)?;
    set_picked(alloc, at, slot, &value, places(of.width), room)
}

fn bind(
    alloc: Global,
    at: Site,
    base: u32,
    parameter: Taken,
    argument: &Expr,
    targets: &mut Vec<Target>,
    room: &mut Room,
) -> Result<(), ValueError>
    ensures { Gives (λ _. (map target_seen targets.new.items, seen.room room.new)) result (rules.argument (site_seen at) base (seen.taken parameter) (expression argument.now) (map target_seen targets.old.items) (seen.room room.old)) }
{
    match parameter {
        Taken::Value { of, slot } => value_argument(alloc, at, base, (of, slot), argument, room),
        Taken::Array { .. } => {
            let begin = begin_of(argument);
            let of = pointed_in(alloc, begin, argument, room)?;
            pointer_argument(begin, base, parameter, of, targets, room)
        }
    }
}

// Binds arguments to parameters.
fn bind_all(
    alloc: Global,
    at: Site,
    base: u32,
    parameters: &[Taken],
    arguments: &[Expr],
    targets: &mut Vec<Target>,
    room: &mut Room,
) -> Result<(), ValueError>
    ensures { Gives (λ _. (map target_seen targets.new.items, seen.room room.new)) result (rules.arguments (site_seen at) base (map seen.taken parameters.now) (expressions arguments.now) (map target_seen targets.old.items) (seen.room room.old)) }
{
    match parameters {
        [] => match arguments {
            [] => Ok(()),
            [_, _others @ ..] => refused(Fault::WrongType, at),
        },
        [parameter, parameters @ ..] => match arguments {
            [] => refused(Fault::WrongType, at),
            [argument, arguments @ ..] => {
                bind(alloc, at, base, *parameter, argument, targets, room)?;
                bind_all(alloc, at, base, parameters, arguments, targets, room)
            }
        },
    }
}

fn number_behind(behind: u32, number: u32) -> Result<u32, AllocError>
    ensures { IfOk result (λ n. n ≡ number + behind) }
{
    number.checked_add(behind).ok_or(AllocError)
}

fn moved_standing(behind: u32, of: Standing) -> Result<Standing, AllocError>
    ensures { IfOk result (λ s. standing_seen s ≡ rules.moved_standing behind (standing_seen of)) }
{
    let number = number_behind(behind, of.number)?;
    let last = number_behind(behind, of.last)?;
    Ok(Standing {
        number,
        site: of.site,
        sort: of.sort,
        last,
    })
}

fn moved_variable(alloc: Global, behind: u32, of: &Variable) -> Result<Variable, AllocError>
    ensures { IfOk result (λ v. variable_seen v ≡ rules.moved_variable behind (variable_seen of.now)) }
{
    let first = number_behind(behind, of.first)?;
    let last = number_behind(behind, of.last)?;
    Ok(Variable {
        name: String::from_str(alloc, of.name.as_str())?,
        site: of.site,
        first,
        last,
    })
}

fn push_standings(behind: u32, of: &[Standing], all: &mut Vec<Standing>) -> Result<(), AllocError>
    ensures { OnOk result (map standing_seen all.new.items ≡ map standing_seen all.old.items ++ map (rules.moved_standing behind) (map standing_seen of.now)) }
{
    for standing in of {
        let moved = moved_standing(behind, *standing)?;
        all.push(moved)?;
    }
    Ok(())
}

fn push_variables(
    alloc: Global,
    behind: u32,
    of: &[Variable],
    all: &mut Vec<Variable>,
) -> Result<(), AllocError>
    ensures { OnOk result (map variable_seen all.new.items ≡ map variable_seen all.old.items ++ map (rules.moved_variable behind) (map variable_seen of.now)) }
{
    for variable in of {
        let moved = moved_variable(alloc, behind, variable)?;
        all.push(moved)?;
    }
    Ok(())
}

// Puts a text, of which the statements and slots are moved.
fn push_text(
    alloc: Global,
    text: &Text,
    base: u32,
    targets: Vec<Target>,
    room: &mut Room,
) -> Result<(), AllocError>
    ensures { OnOk result (seen.room room.new ≡ rules.with_text (seen.text text.now) base (map target_seen targets.items) (seen.room room.old)) }
{
    let behind = room.next.saturating_sub(1);
    let by = Move {
        statements: behind,
        slots: base,
        arrays: targets,
    };
    let next = number_behind(text.count, room.next)?;
    room.slots.extend_from_slice(text.slots.as_slice())?;
    room.next = next;
    push_moved(alloc, &by, text.body.as_slice(), &mut room.written)?;
    push_variables(
        alloc,
        behind,
        text.variables.as_slice(),
        &mut room.names.variables,
    )?;
    push_standings(
        behind,
        text.standings.as_slice(),
        &mut room.names.statements,
    )
}

// Whether two counts are at most a number together.
fn count_fits(first: usize, second: usize, most: usize) -> bool
    ensures { result ≡ nat_le (first + second) most }
{
    first <= most && second <= most - first
}

fn sum_fits(first: u32, second: u32, most: u32) -> bool
    ensures { result ≡ nat_le (first + second) most }
{
    match first.checked_add(second) {
        None => false,
        Some(sum) => sum <= most,
    }
}

#[tactic(auto, using(crate::proofs::Lists::kept))]
fn fits_text(text: &Text, room: &Room) -> bool
    ensures { result ≡ rules.fits_text (seen.text text.now) (seen.room room.now) }
{
    count_fits(room.slots.len(), text.slots.len(), MOST_SLOTS)
        && sum_fits(room.next, text.count, MOST_STATEMENTS + 1)
}

// The value of a call is in the slots of the result.
fn push_result(at: Site, base: u32, of: Option<Returned>, room: &mut Room) -> Result<(), AllocError>
    ensures { OnOk result (seen.room room.new ≡ rules.with_result (site_seen at) base (seen.maybe_returned of) (seen.room room.old)) }
{
    let Some(result) = of else {
        return Ok(());
    };
    let slot = slot_behind(base, result.slot)?;
    room.push_drawn(Sort::OfCall, at, result.of, slot)
}

// The slot behind all others.
fn base_of(at: Site, room: &Room) -> Result<u32, ValueError>
    ensures { Gives (λ n. n) result (rules.base_of (site_seen at) (seen.room room.now)) }
{
    let count = room.slots.len();
    if count <= MOST_SLOTS {
        Ok(count as u32)
    } else {
        refused(Fault::TooMany, at)
    }
}

fn put_text(
    alloc: Global,
    at: Site,
    text: &Text,
    base: u32,
    targets: Vec<Target>,
    room: &mut Room,
) -> Result<(), ValueError>
    ensures { Gives (λ _. seen.room room.new) result (rules.put_text (site_seen at) (seen.text text.now) base (map target_seen targets.items) (seen.room room.old)) }
{
    if !fits_text(text, room) {
        return refused(Fault::TooMany, at);
    }
    push_text(alloc, text, base, targets, room)?;
    Ok(())
}

fn put_call(
    alloc: Global,
    at: Site,
    arguments: &[Expr],
    text: &Text,
    room: &mut Room,
) -> Result<(), ValueError>
    ensures { Gives (λ _. seen.room room.new) result (rules.put_call (site_seen at) (expressions arguments.now) (seen.text text.now) (seen.room room.old)) }
{
    let base = base_of(at, room)?;
    let mut targets = Vec::new(alloc);
    bind_all(
        alloc,
        at,
        base,
        text.parameters.as_slice(),
        arguments,
        &mut targets,
        room,
    )?;
    put_text(alloc, at, text, base, targets, room)?;
    push_result(at, base, text.result, room)?;
    Ok(())
}

// Whether a name may be that of a function of the file.
fn is_unread(meaning: Option<&Meaning>) -> bool
    ensures { result ≡ rules.is_unread (meaning_in meaning.entry) }
{
    match meaning {
        None | Some(Meaning::Unread) => true,
        Some(_) => false,
    }
}

fn is_array(meaning: Option<&Meaning>) -> bool
    ensures { result ≡ rules.is_array (meaning_in meaning.entry) }
{
    matches!(meaning, Some(Meaning::Array { .. }))
}

// Whether an argument for a pointer is a whole array.
fn is_whole(parameter: Taken, argument: &Expr, room: &Room) -> bool
    ensures { result ≡ rules.is_whole (seen.taken parameter) (expression argument.now) (seen.room room.now) }
{
    match (parameter, argument) {
        (Taken::Value { .. }, _) => true,
        (Taken::Array { .. }, Expr::Name { name, .. }) => {
            is_array(meaning_of(&room.visible, name.as_str()))
        }
        (Taken::Array { .. }, _) => false,
    }
}

fn all_whole(parameters: &[Taken], arguments: &[Expr], room: &Room) -> bool
    ensures { result ≡ rules.all_whole (map seen.taken parameters.now) (expressions arguments.now) (seen.room room.now) }
{
    match parameters {
        [] => true,
        [parameter, parameters @ ..] => match arguments {
            [] => true,
            [argument, arguments @ ..] => {
                is_whole(*parameter, argument, room) && all_whole(parameters, arguments, room)
            }
        },
    }
}

// The text for whole arrays, where all are, and else that for offsets.
fn chosen_text<'a>(
    template: &'a Template,
    arguments: &[Expr],
    room: &Room,
) -> &'a Result<Text, (Fault, Site)>
    ensures { seen.text_or_fault result.now ≡ rules.chosen_text (seen.template template.now).whole (seen.template template.now).moved (expressions arguments.now) (seen.room room.now) }
{
    match &template.whole {
        Ok(text) if all_whole(text.parameters.as_slice(), arguments, room) => &template.whole,
        _ => &template.moved,
    }
}

fn call_text(
    alloc: Global,
    at: Site,
    name: &str,
    arguments: &[Expr],
    template: &Template,
    room: &mut Room,
) -> Result<(), ValueError>
    ensures { Gives (λ _. seen.room room.new) result (rules.call_text (site_seen at) name.now (expressions arguments.now) (seen.template template.now) (seen.room room.old)) }
{
    if !is_unread(meaning_of(&room.visible, name)) {
        return refused(Fault::WrongType, at);
    }
    match chosen_text(template, arguments, room) {
        Ok(text) => put_call(alloc, at, arguments, text, room),
        Err((fault, site)) => refused(*fault, *site),
    }
}

fn write_call(
    alloc: Global,
    at: Site,
    name: &str,
    arguments: &[Expr],
    room: &mut Room,
) -> Result<(), ValueError>
    ensures { Gives (λ _. seen.room room.new) result (rules.write_call (site_seen at) name.now (expressions arguments.now) (seen.room room.old)) }
{
    if is_built_in(name) {
        return refused(Fault::LeftOut(Construct::Outside), at);
    }
    match template_named(room.templates, name) {
        Some(template) => call_text(alloc, at, name, arguments, template, room),
        None => refused(Fault::LeftOut(Construct::Outside), at),
    }
}

/// Writes out a call of a function of the file, whose arguments are drawn.
pub fn draw_call(
    alloc: Global,
    at: Site,
    name: &str,
    arguments: &[Expr],
    room: &mut Room,
) -> Result<(), ValueError>
    ensures { Gives (λ _. seen.room room.new) result (rules.draw_call (site_seen at) name.now (expressions arguments.now) (seen.room room.old)) }
{
    if is_helper(&room.helpers, name) {
        write_call(alloc, at, name, arguments, room)
    } else if is_hidden(room, name) {
        refused(Fault::LeftOut(Construct::Outside), at)
    } else {
        Ok(())
    }
}
