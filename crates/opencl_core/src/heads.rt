//! The parameters of kernels.

ghost use Rattle.std.specs.Prelude.{◌≡◌, ◌+◌, IfOk, OnOk, map, string_bytes};
ghost use Rattle.core_code.specs.View.{site as site_seen};
ghost use Rattle.syntax.specs.View.{parameter as parameter_seen};
ghost use Rattle.opencl_tree.specs.View.{qualifiers as qualifiers_seen, space_of};
ghost use Rattle.opencl_files.specs.View.{parameter as parameter_of};
ghost use Rattle.opencl_terms.specs.Answers.{value_type};
ghost use Rattle.opencl_terms.specs.View.{scalar as scalar_seen};
ghost use Rattle.opencl_values.specs.View.{Gives};
ghost use Rattle.opencl_core.specs.Heads as rules;
ghost use Rattle.opencl_core.specs.View as seen;

use crate::components::slot_at;
use crate::locals::{LocalShape, element_of_type};
use crate::rooms::Room;
use core_code::tree::{Array, Site, Space as CoreSpace, Term};
use opencl_files::tree::Parameter;
use opencl_terms::conversions::converted;
use opencl_terms::scalars::{Scalar, ValueType};
use opencl_tree::types::{Qualifiers, Space};
use opencl_values::error::{Construct, Fault, ValueError, refused};
use opencl_values::names::type_of_base;
use opencl_values::scope::Meaning;
use opencl_values::wholes::places;
use std::alloc::{AllocError, Global};
use syntax::tree::Parameter as Told;

/// How many elements an array has that a launch gives a `__local` pointer of a name.
#[derive(Drop)]
pub struct LocalCount {
    pub name: String,
    pub count: u32,
}

/// A parameter with its name and its type.
#[derive(Clone, Copy)]
pub struct Named<'a> {
    pub site: Site,
    pub name: &'a str,
    pub of: ValueType,
}

fn count_of(counts: &[LocalCount], name: &str) -> Option<u32>
    ensures { result ≡ rules.count_of (map seen.local_count counts.now) name.now }
{
    for entry in counts {
        if entry.name.as_str() == name {
            return Some(entry.count);
        }
    }
    None
}

fn name_given(parameter: &Told) -> &str
    ensures { result.now ≡ rules.name_given (parameter_seen parameter.now) }
{
    match parameter {
        Told::Buffer { name, .. } | Told::Value { name, .. } => name.as_str(),
    }
}

fn is_given(name: &str, parameters: &[Told]) -> bool
    ensures { result ≡ rules.is_given name.now (map parameter_seen parameters.now) }
{
    for parameter in parameters {
        if name_given(parameter) == name {
            return true;
        }
    }
    false
}

impl<'a> Room<'a> {
    fn push_parameter(&mut self, parameter: Told) -> Result<(), AllocError>
        ensures { OnOk result (seen.room self.new ≡ rules.with_parameter (parameter_seen parameter) (seen.room self.old)) }
    {
        self.names.parameters.push(parameter)?;
        Ok(())
    }
}

/// The number of the next buffer.
pub fn next_buffer(at: Site, room: &Room) -> Result<u32, ValueError>
    ensures { Gives (λ n. n) result (rules.next_buffer (site_seen at) (seen.room room.now)) }
{
    if room.has_place() {
        Ok(room.buffers.len() as u32)
    } else {
        refused(Fault::TooMany, at)
    }
}

fn keep_buffer(
    alloc: Global,
    parameter: Named,
    constant: bool,
    scalar: Scalar,
    room: &mut Room,
) -> Result<(), AllocError>
    ensures { OnOk result (seen.room room.new ≡ rules.buffer_kept (seen.named parameter.entry) constant (scalar_seen scalar) (seen.room room.old)) }
{
    let kind = scalar.stored_kind();
    let name = String::from_str(alloc, parameter.name)?;
    room.buffers.push(kind)?;
    room.push_parameter(Told::Buffer {
        constant,
        kind,
        name_site: parameter.site,
        name,
    })
}

fn declare_buffer<'a>(
    alloc: Global,
    parameter: Named<'a>,
    constant: bool,
    room: &mut Room<'a>,
) -> Result<(), ValueError>
    ensures { Gives (λ _. seen.room room.new) result (rules.declare_buffer (seen.named parameter.entry) constant (seen.room room.old)) }
{
    let scalar = element_of_type(parameter.site, parameter.of)?;
    let number = next_buffer(parameter.site, room)?;
    let array = Array {
        space: CoreSpace::Global,
        number,
    };
    let meaning = Meaning::Array {
        array,
        element: parameter.of,
        lengths: Vec::new(alloc),
        is_constant: constant,
    };
    room.declare(parameter.site, parameter.name, meaning)?;
    keep_buffer(alloc, parameter, constant, scalar, room)?;
    Ok(())
}

fn declare_local_pointer<'a>(
    alloc: Global,
    counts: &[LocalCount],
    parameter: Named<'a>,
    constant: bool,
    room: &mut Room<'a>,
) -> Result<(), ValueError>
    ensures { Gives (λ _. seen.room room.new) result (rules.declare_local_pointer (map seen.local_count counts.now) (seen.named parameter.entry) constant (seen.room room.old)) }
{
    let Some(count) = count_of(counts, parameter.name) else {
        return refused(Fault::LocalLength, parameter.site);
    };
    let local = LocalShape {
        of: parameter.of,
        count,
        lengths: Vec::new(alloc),
        is_constant: constant,
    };
    room.declare_local(alloc, parameter.site, parameter.name, local)
}

// Takes the low bits of a narrow value parameter.
fn narrow(
    alloc: Global,
    at: Site,
    slot: u32,
    scalar: Scalar,
    room: &mut Room,
) -> Result<(), ValueError>
    ensures { Gives (λ _. seen.room room.new) result (rules.narrowed (site_seen at) slot (scalar_seen scalar) (seen.room room.old)) }
{
    if !scalar.is_narrow() {
        return Ok(());
    }
    let given = Term::Variable { slot };
    let value = converted(alloc, room.ids, Scalar::Int, scalar, at, given)?;
    room.set(slot, value, at)
}

// What stands behind a vector's name in that of a component.
fn suffix_of(place: u32) -> &'static str
    ensures { result.now ≡ rules.suffix_of place }
{
    match place {
        0 => "_s0",
        1 => "_s1",
        2 => "_s2",
        3 => "_s3",
        4 => "_s4",
        5 => "_s5",
        6 => "_s6",
        7 => "_s7",
        8 => "_s8",
        9 => "_s9",
        10 => "_sa",
        11 => "_sb",
        12 => "_sc",
        13 => "_sd",
        14 => "_se",
        _ => "_sf",
    }
}

fn component_name(alloc: Global, parameter: Named, place: u32) -> Result<String, AllocError>
    ensures { IfOk result (λ s. string_bytes s ≡ rules.component_name (seen.named parameter.entry) place) }
{
    let mut name = String::from_str(alloc, parameter.name)?;
    if parameter.of.is_vector() {
        name.push_str(suffix_of(place))?;
    }
    Ok(name)
}

fn keep_argument(
    parameter: Named,
    scalar: Scalar,
    name: String,
    room: &mut Room,
) -> Result<(), AllocError>
    ensures { OnOk result (seen.room room.new ≡ rules.argument_kept (seen.named parameter.entry) (scalar_seen scalar) (string_bytes name) (seen.room room.old)) }
{
    let kind = scalar.kind(room.ids);
    room.slots.push(kind)?;
    room.push_parameter(Told::Value {
        kind,
        name_site: parameter.site,
        name,
    })
}

// A scalar, or a component of a vector, as a parameter of its own.
fn add_argument(
    alloc: Global,
    parameter: Named,
    scalar: Scalar,
    place: u32,
    room: &mut Room,
) -> Result<(), ValueError>
    ensures { Gives (λ _. seen.room room.new) result (rules.add_argument (seen.named parameter.entry) (scalar_seen scalar) place (seen.room room.old)) }
{
    let name = component_name(alloc, parameter, place)?;
    if is_given(name.as_str(), &room.names.parameters) {
        return refused(Fault::NameTwice, parameter.site);
    }
    keep_argument(parameter, scalar, name, room)?;
    Ok(())
}

fn add_arguments(
    alloc: Global,
    parameter: Named,
    scalar: Scalar,
    places: &[u32],
    room: &mut Room,
) -> Result<(), ValueError>
    ensures { Gives (λ _. seen.room room.new) result (rules.add_arguments (seen.named parameter.entry) (scalar_seen scalar) places.now (seen.room room.old)) }
{
    for place in places {
        add_argument(alloc, parameter, scalar, *place, room)?;
    }
    Ok(())
}

fn narrow_component(
    alloc: Global,
    at: Site,
    slot: (u32, u32),
    scalar: Scalar,
    room: &mut Room,
) -> Result<(), ValueError>
    ensures { Gives (λ _. seen.room room.new) result (rules.narrowed (site_seen at) (slot.0 + slot.1) (scalar_seen scalar) (seen.room room.old)) }
{
    let slot = slot_at(slot.0, slot.1)?;
    narrow(alloc, at, slot, scalar, room)
}

fn narrow_all(
    alloc: Global,
    at: Site,
    slot: u32,
    scalar: Scalar,
    places: &[u32],
    room: &mut Room,
) -> Result<(), ValueError>
    ensures { Gives (λ _. seen.room room.new) result (rules.narrow_all (site_seen at) slot (scalar_seen scalar) places.now (seen.room room.old)) }
{
    for place in places {
        narrow_component(alloc, at, (slot, *place), scalar, room)?;
    }
    Ok(())
}

fn add_and_narrow(
    alloc: Global,
    parameter: Named,
    scalar: Scalar,
    slot: u32,
    room: &mut Room,
) -> Result<(), ValueError>
    ensures { Gives (λ _. seen.room room.new) result (rules.add_and_narrow (seen.named parameter.entry) (scalar_seen scalar) slot (seen.room room.old)) }
{
    let all = places(parameter.of.width);
    add_arguments(alloc, parameter, scalar, all, room)?;
    narrow_all(alloc, parameter.site, slot, scalar, all, room)
}

// The scalar of a type that kernel parameters may have (OpenCL 1.2, 6.9 k).
fn argument_of_type(at: Site, of: ValueType) -> Result<Scalar, ValueError>
    ensures { Gives scalar_seen result (rules.argument_of_type (site_seen at) (value_type of)) }
{
    match of.scalar {
        Scalar::Boolean | Scalar::Size => refused(Fault::WrongType, at),
        scalar => Ok(scalar),
    }
}

fn declare_argument<'a>(
    alloc: Global,
    parameter: Named<'a>,
    is_constant: bool,
    room: &mut Room<'a>,
) -> Result<(), ValueError>
    ensures { Gives (λ _. seen.room room.new) result (rules.declare_argument (seen.named parameter.entry) is_constant (seen.room room.old)) }
{
    let at = parameter.site;
    let of = parameter.of;
    let scalar = argument_of_type(at, of)?;
    let slot = room.next_slots(at, of.width)?;
    let meaning = Meaning::Variable {
        of,
        slot,
        is_constant,
    };
    room.declare(at, parameter.name, meaning)?;
    add_and_narrow(alloc, parameter, scalar, slot, room)
}

fn declare_pointer<'a>(
    alloc: Global,
    counts: &[LocalCount],
    parameter: Named<'a>,
    qualifiers: Qualifiers,
    room: &mut Room<'a>,
) -> Result<(), ValueError>
    ensures { Gives (λ _. seen.room room.new) result (rules.declare_pointer (map seen.local_count counts.now) (seen.named parameter.entry) (qualifiers_seen qualifiers) (space_of qualifiers.space) (seen.room room.old)) }
{
    let constant = qualifiers.constant;
    match qualifiers.space {
        Some(Space::Global) => declare_buffer(alloc, parameter, constant, room),
        Some(Space::Constant) => declare_buffer(alloc, parameter, true, room),
        Some(Space::Local) => declare_local_pointer(alloc, counts, parameter, constant, room),
        None | Some(Space::Private) => refused(Fault::WrongType, parameter.site),
    }
}

fn declare_value<'a>(
    alloc: Global,
    parameter: Named<'a>,
    qualifiers: Qualifiers,
    room: &mut Room<'a>,
) -> Result<(), ValueError>
    ensures { Gives (λ _. seen.room room.new) result (rules.declare_value (seen.named parameter.entry) (qualifiers_seen qualifiers) (space_of qualifiers.space) (seen.room room.old)) }
{
    match qualifiers.space {
        None | Some(Space::Private) => {
            declare_argument(alloc, parameter, qualifiers.constant, room)
        }
        Some(_) => refused(Fault::WrongType, parameter.site),
    }
}

#[tactic(auto, using(crate::proofs::Lists::kept))]
fn declare_named<'a>(
    alloc: Global,
    counts: &[LocalCount],
    parameter: Named<'a>,
    qualifiers: Qualifiers,
    stars: &[Qualifiers],
    room: &mut Room<'a>,
) -> Result<(), ValueError>
    ensures { Gives (λ _. seen.room room.new) result (rules.declare_named (map seen.local_count counts.now) (seen.named parameter.entry) (qualifiers_seen qualifiers) (map qualifiers_seen stars.now) (seen.room room.old)) }
{
    match stars.len() {
        0 => declare_value(alloc, parameter, qualifiers, room),
        1 => declare_pointer(alloc, counts, parameter, qualifiers, room),
        _ => refused(Fault::WrongType, parameter.site),
    }
}

/// The name and the type of a parameter.
pub fn name_and_type<'a>(parameter: &'a Parameter, room: &Room) -> Result<Named<'a>, ValueError>
    ensures { Gives seen.named result (rules.named_by (parameter_of parameter.now) (seen.room room.now)) }
{
    let site = parameter.site;
    let Some(name) = &parameter.name else {
        return refused(Fault::WrongType, site);
    };
    let of = type_of_base(&room.visible, &parameter.base, site)?;
    if !parameter.dimensions.is_empty() {
        return refused(Fault::LeftOut(Construct::Pointer), site);
    }
    Ok(Named {
        site,
        name: name.as_str(),
        of,
    })
}

fn new_named<'a>(parameter: &'a Parameter, room: &Room) -> Result<Named<'a>, ValueError>
    ensures { Gives seen.named result (rules.new_named (parameter_of parameter.now) (seen.room room.now)) }
{
    let known = name_and_type(parameter, room)?;
    if is_given(known.name, &room.names.parameters) {
        return refused(Fault::NameTwice, known.site);
    }
    Ok(known)
}

/// Declares the parameters of a kernel, from left to right; narrow values are narrowed at once.
pub fn declare_parameters<'a>(
    alloc: Global,
    counts: &[LocalCount],
    parameters: &'a [Parameter],
    room: &mut Room<'a>,
) -> Result<(), ValueError>
    ensures { Gives (λ _. seen.room room.new) result (rules.declare_parameters (map seen.local_count counts.now) (map parameter_of parameters.now) (seen.room room.old)) }
{
    for parameter in parameters {
        let known = new_named(parameter, room)?;
        declare_named(
            alloc,
            counts,
            known,
            parameter.qualifiers,
            &parameter.stars,
            room,
        )?;
    }
    Ok(())
}
