//! The functions that stand before a kernel, each written out once.

ghost use Rattle.std.specs.Prelude.{◌≡◌, IfOk, map};
ghost use Rattle.core_code.specs.View.{array as array_seen, site as site_seen, space as space_seen};
ghost use Rattle.opencl_tree.specs.View.{qualifiers as qualifiers_seen, space_of, statements as statements_seen};
ghost use Rattle.opencl_files.specs.View.{header as header_seen, parameter as parameter_of};
ghost use Rattle.opencl_terms.specs.Answers.{value_type};
ghost use Rattle.opencl_effects.specs.View.{helpers as helpers_seen};
ghost use Rattle.opencl_values.specs.Names as names;
ghost use Rattle.opencl_values.specs.View.{Gives};
ghost use Rattle.kernel_names.specs.View.{variable as variable_seen};
ghost use Rattle.opencl_core.specs.Helpers as rules;
ghost use Rattle.opencl_core.specs.Templates as template_rules;
ghost use Rattle.opencl_core.specs.Rooms as rooms;
ghost use Rattle.opencl_core.specs.View as seen;

use crate::assigning::is_void;
use crate::heads::{Named, name_and_type, next_buffer};
use crate::locals::element_of_type;
use crate::outsides::{copied_names, empty_room};
use crate::pointing::pointer_named;
use crate::rooms::{Room, end_all};
use crate::tails::write_tail;
use crate::templates::{Returned, Returning, Taken, Template, Text, text_waits};
use core_code::tree::{Array, Site, Space as CoreSpace};
use kernel_names::Variable;
use opencl_effects::effects::Helper;
use opencl_files::tree::{Header, Parameter};
use opencl_terms::scalars::ValueType;
use opencl_tree::tree::Stmt;
use opencl_tree::types::{Qualifiers, Space};
use opencl_values::error::{Construct, Fault, ValueError, refused};
use opencl_values::names::type_of_base;
use opencl_values::scope::{Binding, Meaning};
use std::alloc::{AllocError, Global};
use words::Kind;

fn take_value<'a>(
    alloc: Global,
    parameter: Named<'a>,
    constant: bool,
    room: &mut Room<'a>,
) -> Result<Taken, ValueError>
    ensures { Gives (λ x. (seen.taken x, seen.room room.new)) result (rules.take_value (seen.named parameter.entry) constant (seen.room room.old)) }
{
    let of = parameter.of;
    let slot = room.next_slots(parameter.site, of.width)?;
    room.declare_variable(alloc, parameter.site, parameter.name, of, constant)?;
    Ok(Taken::Value { of, slot })
}

fn own_array(number: u32) -> Array
    ensures { array_seen result ≡ rules.own_array number }
{
    Array {
        space: CoreSpace::Global,
        number,
    }
}

fn take_whole<'a>(
    alloc: Global,
    space: CoreSpace,
    parameter: Named<'a>,
    constant: bool,
    number: u32,
    room: &mut Room<'a>,
) -> Result<Taken, ValueError>
    ensures { Gives (λ x. (seen.taken x, seen.room room.new)) result (rules.take_whole (space_seen space) (seen.named parameter.entry) constant number (seen.room room.old)) }
{
    let element = parameter.of;
    let meaning = Meaning::Array {
        array: own_array(number),
        element,
        lengths: Vec::new(alloc),
        is_constant: constant,
    };
    room.declare(parameter.site, parameter.name, meaning)?;
    Ok(Taken::Array {
        space,
        element,
        is_constant: constant,
        offset: None,
    })
}

fn take_moved<'a>(
    alloc: Global,
    space: CoreSpace,
    parameter: Named<'a>,
    constant: bool,
    number: u32,
    room: &mut Room<'a>,
) -> Result<Taken, ValueError>
    ensures { Gives (λ x. (seen.taken x, seen.room room.new)) result (rules.take_moved (space_seen space) (seen.named parameter.entry) constant number (seen.room room.old)) }
{
    let element = parameter.of;
    let slot = room.next_slot(parameter.site)?;
    let meaning = Meaning::Pointer {
        array: own_array(number),
        element,
        is_constant: constant,
        row: None,
        over: None,
        slot,
    };
    pointer_named(alloc, parameter.site, parameter.name, meaning, room)?;
    Ok(Taken::Array {
        space,
        element,
        is_constant: constant,
        offset: Some(slot),
    })
}

fn take_number<'a>(
    alloc: Global,
    is_moved: bool,
    space: CoreSpace,
    parameter: Named<'a>,
    constant: bool,
    number: u32,
    room: &mut Room<'a>,
) -> Result<Taken, ValueError>
    ensures { Gives (λ x. (seen.taken x, seen.room room.new)) result (rules.take_number is_moved (space_seen space) (seen.named parameter.entry) constant number (seen.room room.old)) }
{
    if is_moved {
        take_moved(alloc, space, parameter, constant, number, room)
    } else {
        take_whole(alloc, space, parameter, constant, number, room)
    }
}

// One that is a pointer is an array of the text's own.
fn take_array<'a>(
    alloc: Global,
    is_moved: bool,
    space: CoreSpace,
    parameter: Named<'a>,
    constant: bool,
    room: &mut Room<'a>,
) -> Result<Taken, ValueError>
    ensures { Gives (λ x. (seen.taken x, seen.room room.new)) result (rules.take_array is_moved (space_seen space) (seen.named parameter.entry) constant (seen.room room.old)) }
{
    let scalar = element_of_type(parameter.site, parameter.of)?;
    let number = next_buffer(parameter.site, room)?;
    let taken = take_number(alloc, is_moved, space, parameter, constant, number, room)?;
    room.buffers.push(scalar.stored_kind())?;
    Ok(taken)
}

fn take_pointer<'a>(
    alloc: Global,
    is_moved: bool,
    parameter: Named<'a>,
    qualifiers: Qualifiers,
    room: &mut Room<'a>,
) -> Result<Taken, ValueError>
    ensures { Gives (λ x. (seen.taken x, seen.room room.new)) result (rules.take_pointer is_moved (seen.named parameter.entry) (qualifiers_seen qualifiers) (space_of qualifiers.space) (seen.room room.old)) }
{
    let (space, constant) = match qualifiers.space {
        Some(Space::Global) => (CoreSpace::Global, qualifiers.constant),
        Some(Space::Constant) => (CoreSpace::Global, true),
        Some(Space::Local) => (CoreSpace::Local, qualifiers.constant),
        None | Some(Space::Private) => {
            return refused(Fault::LeftOut(Construct::Pointer), parameter.site);
        }
    };
    take_array(alloc, is_moved, space, parameter, constant, room)
}

fn take_plain<'a>(
    alloc: Global,
    parameter: Named<'a>,
    qualifiers: Qualifiers,
    room: &mut Room<'a>,
) -> Result<Taken, ValueError>
    ensures { Gives (λ x. (seen.taken x, seen.room room.new)) result (rules.take_plain (seen.named parameter.entry) (qualifiers_seen qualifiers) (space_of qualifiers.space) (seen.room room.old)) }
{
    match qualifiers.space {
        None | Some(Space::Private) => take_value(alloc, parameter, qualifiers.constant, room),
        Some(_) => refused(Fault::WrongType, parameter.site),
    }
}

#[tactic(auto, using(crate::proofs::Lists::kept))]
fn take_named<'a>(
    alloc: Global,
    is_moved: bool,
    parameter: Named<'a>,
    qualifiers: Qualifiers,
    stars: &[Qualifiers],
    room: &mut Room<'a>,
) -> Result<Taken, ValueError>
    ensures { Gives (λ x. (seen.taken x, seen.room room.new)) result (rules.take_named is_moved (seen.named parameter.entry) (qualifiers_seen qualifiers) (map qualifiers_seen stars.now) (seen.room room.old)) }
{
    match stars.len() {
        0 => take_plain(alloc, parameter, qualifiers, room),
        1 => take_pointer(alloc, is_moved, parameter, qualifiers, room),
        _ => refused(Fault::LeftOut(Construct::Pointer), parameter.site),
    }
}

fn take_parameter<'a>(
    alloc: Global,
    is_moved: bool,
    parameter: &'a Parameter,
    room: &mut Room<'a>,
) -> Result<Taken, ValueError>
    ensures { Gives (λ x. (seen.taken x, seen.room room.new)) result (rules.take_parameter is_moved (parameter_of parameter.now) (seen.room room.old)) }
{
    let named = name_and_type(parameter, room)?;
    take_named(
        alloc,
        is_moved,
        named,
        parameter.qualifiers,
        parameter.stars.as_slice(),
        room,
    )
}

fn take_parameters<'a>(
    alloc: Global,
    is_moved: bool,
    parameters: &'a [Parameter],
    taken: &mut Vec<Taken>,
    room: &mut Room<'a>,
) -> Result<(), ValueError>
    ensures { Gives (λ _. (map seen.taken taken.new.items, seen.room room.new)) result (rules.take_parameters is_moved (map parameter_of parameters.now) (map seen.taken taken.old.items) (seen.room room.old)) }
{
    match parameters {
        [] => Ok(()),
        [first, others @ ..] => {
            let one = take_parameter(alloc, is_moved, first, room)?;
            taken.push(one)?;
            take_parameters(alloc, is_moved, others, taken, room)
        }
    }
}

#[tactic(auto, using(crate::proofs::Lists::kept))]
fn type_without_stars(
    at: Site,
    stars: &[Qualifiers],
    of: ValueType,
) -> Result<ValueType, ValueError>
    ensures { Gives value_type result (names.type_without_stars (site_seen at) (map qualifiers_seen stars.now) (value_type of)) }
{
    if !stars.is_empty() {
        return refused(Fault::LeftOut(Construct::Pointer), at);
    }
    Ok(of)
}

fn slots_for(alloc: Global, head: &Header, room: &mut Room) -> Result<(), ValueError>
    ensures { Gives (λ _. seen.room room.new) result (rules.with_slots_for (header_seen head.now) (seen.room room.old)) }
{
    let base = type_of_base(&room.visible, &head.base, head.site)?;
    let of = type_without_stars(head.site, head.stars.as_slice(), base)?;
    let slot = room.next_slots(head.site, of.width)?;
    let kind = of.scalar.kind(room.ids);
    room.make_all_up(alloc, head.site, kind, of.width)?;
    room.returns = Returning::OfFunction(Some(Returned { of, slot }));
    Ok(())
}

// The slots of what a function returns.
fn take_result(alloc: Global, head: &Header, room: &mut Room) -> Result<(), ValueError>
    ensures { Gives (λ _. seen.room room.new) result (rules.with_returns (header_seen head.now) (seen.room room.old)) }
{
    if is_void(&head.base, head.stars.as_slice()) {
        Ok(())
    } else {
        slots_for(alloc, head, room)
    }
}

fn result_in(returns: Returning) -> Option<Returned>
    ensures { seen.maybe_returned result ≡ rules.result_in (seen.returning returns) }
{
    match returns {
        Returning::OfKernel => None,
        Returning::OfFunction(result) => result,
    }
}

fn ended_variables(alloc: Global, last: u32, of: &[Variable]) -> Result<Vec<Variable>, AllocError>
    ensures { IfOk result (λ v. map variable_seen v.items ≡ map (rooms.ended last) (map variable_seen of.now)) }
{
    let mut all = Vec::new(alloc);
    end_all(alloc, last, of, &mut all)?;
    Ok(all)
}

fn text_in(alloc: Global, parameters: Vec<Taken>, room: Room) -> Result<Text, AllocError>
    ensures { IfOk result (λ x. seen.text x ≡ rules.text_in (map seen.taken parameters.items) (seen.room room.entry)) }
{
    let count = room.next.saturating_sub(1);
    let names = room.names;
    let variables = ended_variables(alloc, count, names.variables.as_slice())?;
    Ok(Text {
        parameters,
        result: result_in(room.returns),
        slots: room.slots,
        count,
        body: room.written,
        standings: names.statements,
        variables,
    })
}

#[tactic(auto, using(crate::proofs::Lists::kept))]
fn has_arrays(room: &Room) -> bool
    ensures { result ≡ rules.has_arrays (seen.room room.now) }
{
    !room.arrays.is_empty()
}

fn finished_text(
    alloc: Global,
    at: Site,
    parameters: Vec<Taken>,
    room: Room,
) -> Result<Text, ValueError>
    ensures { Gives seen.text result (rules.finished_text (site_seen at) (map seen.taken parameters.items) (seen.room room.entry)) }
{
    if has_arrays(&room) {
        return refused(Fault::LeftOut(Construct::PrivateArray), at);
    }
    Ok(text_in(alloc, parameters, room)?)
}

/// The functions by their names.
pub fn helpers_of<'a>(
    alloc: Global,
    templates: &'a [Template],
) -> Result<Vec<Helper<'a>>, AllocError>
    ensures { IfOk result (λ v. helpers_seen v.items ≡ map template_rules.as_helper (map seen.template templates.now)) }
{
    let mut all = Vec::new(alloc);
    for template in templates {
        all.push(Helper {
            name: template.name.as_str(),
            stores: template.stores,
        })?;
    }
    Ok(all)
}

/// What functions stand in: the kind of ids and sizes, the sizes of a work-group, and the names of the file.
#[derive(Clone, Copy)]
pub struct Surroundings<'a> {
    pub ids: Kind,
    pub sizes: [u32; 3],
    pub outside: &'a [Binding<'a>],
}

fn helper_room<'a>(
    alloc: Global,
    within: Surroundings<'a>,
    templates: &'a [Template],
) -> Result<Room<'a>, AllocError>
    ensures { IfOk result (λ r. seen.room r ≡ rules.helper_room (seen.surroundings within.entry) (map seen.template templates.now)) }
{
    let outside = copied_names(alloc, within.outside)?;
    let helpers = helpers_of(alloc, templates)?;
    let mut room = empty_room(alloc, within.ids, within.sizes, outside);
    room.helpers = helpers;
    room.templates = templates;
    room.returns = Returning::OfFunction(None);
    Ok(room)
}

fn text_of<'a>(
    alloc: Global,
    is_moved: bool,
    within: Surroundings<'a>,
    templates: &'a [Template],
    head: &'a Header,
    body: &'a [Stmt],
) -> Result<Text, ValueError>
    ensures { Gives seen.text result (rules.text_of is_moved (seen.surroundings within.entry) (map seen.template templates.now) (header_seen head.now) (statements_seen body.now)) }
{
    let mut room = helper_room(alloc, within, templates)?;
    let mut parameters = Vec::new(alloc);
    take_parameters(
        alloc,
        is_moved,
        head.parameters.as_slice(),
        &mut parameters,
        &mut room,
    )?;
    take_result(alloc, head, &mut room)?;
    write_tail(alloc, body, &mut room)?;
    finished_text(alloc, head.site, parameters, room)
}

// A function's text, or why it has none.
fn text_or_fault<'a>(
    alloc: Global,
    is_moved: bool,
    within: Surroundings<'a>,
    templates: &'a [Template],
    head: &'a Header,
    body: &'a [Stmt],
) -> Result<Result<Text, (Fault, Site)>, AllocError>
    ensures { IfOk result (λ x. seen.text_or_fault x ≡ rules.text_of is_moved (seen.surroundings within.entry) (map seen.template templates.now) (header_seen head.now) (statements_seen body.now)) }
{
    match text_of(alloc, is_moved, within, templates, head, body) {
        Ok(text) => Ok(Ok(text)),
        Err(ValueError::At { fault, site }) => Ok(Err((fault, site))),
        Err(ValueError::Memory) => Err(AllocError),
    }
}

#[tactic(auto, using(crate::proofs::Lists::kept))]
fn may_store_to(parameter: &Parameter) -> bool
    ensures { result ≡ rules.may_store_to (parameter_of parameter.now) }
{
    !parameter.stars.is_empty() && !parameter.qualifiers.constant
}

fn any_stored_to(parameters: &[Parameter]) -> bool
    ensures { result ≡ rules.any_stored_to (map parameter_of parameters.now) }
{
    for parameter in parameters {
        if may_store_to(parameter) {
            return true;
        }
    }
    false
}

fn template(
    alloc: Global,
    head: &Header,
    whole: Result<Text, (Fault, Site)>,
    moved: Result<Text, (Fault, Site)>,
) -> Result<Template, AllocError>
    ensures { IfOk result (λ t. seen.template t ≡ rules.template (header_seen head.now) (seen.text_or_fault whole) (seen.text_or_fault moved)) }
{
    let stores = any_stored_to(head.parameters.as_slice())
        || text_waits(&whole)
        || text_waits(&moved);
    Ok(Template {
        name: String::from_str(alloc, head.name.as_str())?,
        stores,
        whole,
        moved,
    })
}

fn template_of<'a>(
    alloc: Global,
    within: Surroundings<'a>,
    templates: &'a [Template],
    head: &'a Header,
    body: &'a [Stmt],
) -> Result<Template, AllocError>
    ensures { IfOk result (λ t. seen.template t ≡ rules.template_of (seen.surroundings within.entry) (map seen.template templates.now) (header_seen head.now) (statements_seen body.now)) }
{
    let whole = text_or_fault(alloc, false, within, templates, head, body)?;
    let moved = text_or_fault(alloc, true, within, templates, head, body)?;
    template(alloc, head, whole, moved)
}

/// The functions that stand before a kernel, in order.
pub fn templates_of(
    alloc: Global,
    within: Surroundings<'_>,
    functions: &[(Header, Vec<Stmt>)],
) -> Result<Vec<Template>, AllocError>
    ensures { IfOk result (λ v. map seen.template v.items ≡ rules.templates_of (seen.surroundings within.entry) (map seen.function functions.now)) }
{
    let mut templates = Vec::new(alloc);
    for function in functions {
        let template = template_of(
            alloc,
            within,
            templates.as_slice(),
            &function.0,
            function.1.as_slice(),
        )?;
        templates.push(template)?;
    }
    Ok(templates)
}
