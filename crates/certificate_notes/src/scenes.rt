//! The loops and barriers of a kernel, with what is visible there.

ghost use Rattle.std.specs.Prelude.{◌≡◌, OnOk, IfOk, map, []};
ghost use Rattle.core_code.specs.View.{kernel as core_seen};
ghost use Rattle.syntax.specs.View.{parameter as parameter_seen};
ghost use Rattle.kernel_names.specs.View.{variable as variable_seen, sort as sort_seen, standing as standing_seen, names_seen};
ghost use Rattle.certificate_notes.specs.Scenes as definition;
ghost use Rattle.certificate_notes.specs.View.{named, scene as scene_seen};

use crate::error::NamesError;
use crate::kept::is_kept;
use core_code::tree::Core;
use kernel_names::{NameMap, Sort, Standing, Variable};
use std::alloc::Global;
use syntax::tree::Parameter;

/// A variable: a declaration of the name.
#[derive(Clone, Copy)]
pub struct Named<'a> {
    pub name: &'a str,
    pub slot: u32,
}

/// The test of a loop, or a barrier, by its statement's number: the variables that are visible there, and the loops around it.
#[derive(Drop)]
pub struct Scene<'a> {
    pub number: u32,
    pub is_loop: bool,
    pub here: Vec<Named<'a>>,
    pub around: Vec<u32>,
}

/// Adds a name with the next slot.
fn push_name<'a>(name: &'a str, names: &mut Vec<Named<'a>>) -> Result<(), NamesError>
    ensures { OnOk result (map named names.new.items ≡ definition.with_name name.now (map named names.old.items)) }
{
    let Ok(slot) = u32::try_from(names.len()) else {
        return Err(NamesError::Memory);
    };
    names.push(Named { name, slot })?;
    Ok(())
}

/// Adds a parameter, if it is a value.
fn push_argument<'a>(parameter: &'a Parameter, names: &mut Vec<Named<'a>>) -> Result<(), NamesError>
    ensures { OnOk result (map named names.new.items ≡ definition.take_argument (parameter_seen parameter.now) (map named names.old.items)) }
{
    match parameter {
        Parameter::Buffer { .. } => Ok(()),
        Parameter::Value { name, .. } => push_name(name.as_str(), names),
    }
}

/// Adds the value parameters in order.
pub fn push_arguments<'a>(
    parameters: &'a [Parameter],
    names: &mut Vec<Named<'a>>,
) -> Result<(), NamesError>
    ensures { OnOk result (map named names.new.items ≡ definition.take_arguments (map parameter_seen parameters.now) (map named names.old.items)) }
{
    for parameter in parameters {
        push_argument(parameter, names)?;
    }
    Ok(())
}

/// Adds the private variables in order.
pub fn push_variables<'a>(
    variables: &'a [Variable],
    names: &mut Vec<Named<'a>>,
) -> Result<(), NamesError>
    ensures { OnOk result (map named names.new.items ≡ definition.take_variables (map variable_seen variables.now) (map named names.old.items)) }
{
    for variable in variables {
        push_name(variable.name.as_str(), names)?;
    }
    Ok(())
}

/// Those of the value parameters that something assigns.
pub fn assigned_among<'a>(
    alloc: Global,
    core: &Core,
    arguments: &[Named<'a>],
) -> Result<Vec<Named<'a>>, NamesError>
    ensures { IfOk result (λ v. map named v.items ≡ definition.all_assigned (core_seen core.now) (map named arguments.now) []) }
{
    let mut here = Vec::new(alloc);
    for argument in arguments {
        if !is_kept(core, argument.slot as usize) {
            here.push(*argument)?;
        }
    }
    Ok(here)
}

/// Adds a private variable of a slot, if it is visible in the statement of a number.
fn push_visible<'a>(
    number: u32,
    slot: u32,
    variable: &'a Variable,
    here: &mut Vec<Named<'a>>,
) -> Result<(), NamesError>
    ensures { OnOk result (map named here.new.items ≡ definition.take_visible number slot (variable_seen variable.now) (map named here.old.items)) }
{
    if variable.first <= number && number <= variable.last {
        here.push(Named {
            name: variable.name.as_str(),
            slot,
        })?;
    }
    Ok(())
}

/// The names that are visible in the statement of a number: value parameters that something assigns, and private
/// variables, of which the first has the slot.
fn visible_at<'a>(
    alloc: Global,
    number: u32,
    first: u32,
    variables: &'a [Variable],
    entry: &[Named<'a>],
) -> Result<Vec<Named<'a>>, NamesError>
    ensures { IfOk result (λ v. map named v.items ≡ definition.all_visible number first (map variable_seen variables.now) (map named entry.now)) }
{
    let mut here = Vec::from_slice(alloc, entry)?;
    let mut slot = first;
    for variable in variables {
        push_visible(number, slot, variable, &mut here)?;
        let Some(next) = slot.checked_add(1) else {
            return Err(NamesError::Memory);
        };
        slot = next;
    }
    Ok(here)
}

/// Adds the number of a loop, if the statement of a number is inside.
fn push_around(number: u32, standing: &Standing, around: &mut Vec<u32>) -> Result<(), NamesError>
    ensures { OnOk result (around.new.items ≡ definition.take_around number (standing_seen standing.now) around.old.items) }
{
    match standing.sort {
        Sort::Waiting | Sort::Other => Ok(()),
        Sort::Turning => {
            if standing.number < number && number <= standing.last {
                around.push(standing.number)?;
            }
            Ok(())
        }
    }
}

/// The numbers of the loops around the statement of a number.
fn around_of(alloc: Global, number: u32, statements: &[Standing]) -> Result<Vec<u32>, NamesError>
    ensures { IfOk result (λ v. v.items ≡ definition.all_around number (map standing_seen statements.now) []) }
{
    let mut around = Vec::new(alloc);
    for standing in statements {
        push_around(number, standing, &mut around)?;
    }
    Ok(around)
}

/// The scene of a loop or a barrier.
fn scene_of<'a>(
    alloc: Global,
    first: u32,
    entry: &[Named<'a>],
    names: &'a NameMap,
    number: u32,
    is_loop: bool,
) -> Result<Scene<'a>, NamesError>
    ensures { IfOk result (λ s. scene_seen s ≡ definition.scene_of first (map named entry.now) (names_seen names.now) number is_loop) }
{
    Ok(Scene {
        number,
        is_loop,
        here: visible_at(alloc, number, first, names.variables.as_slice(), entry)?,
        around: around_of(alloc, number, names.statements.as_slice())?,
    })
}

/// Adds the scene of a statement, if it is a loop or a barrier.
fn push_scene<'a>(
    alloc: Global,
    first: u32,
    entry: &[Named<'a>],
    names: &'a NameMap,
    standing: Standing,
    scenes: &mut Vec<Scene<'a>>,
) -> Result<(), NamesError>
    ensures { OnOk result (map scene_seen scenes.new.items ≡ definition.take_scene first (map named entry.now) (names_seen names.now) standing.number (sort_seen standing.sort) (map scene_seen scenes.old.items)) }
{
    let is_loop = match standing.sort {
        Sort::Turning => true,
        Sort::Waiting => false,
        Sort::Other => return Ok(()),
    };
    let scene = scene_of(alloc, first, entry, names, standing.number, is_loop)?;
    scenes.push(scene)?;
    Ok(())
}

/// The scenes of a kernel, in the order of the source; the first private variable has the slot.
pub fn scenes_of<'a>(
    alloc: Global,
    first: u32,
    entry: &[Named<'a>],
    names: &'a NameMap,
) -> Result<Vec<Scene<'a>>, NamesError>
    ensures { IfOk result (λ v. map scene_seen v.items ≡ definition.all_scenes first (map named entry.now) (names_seen names.now) (names_seen names.now).statements []) }
{
    let mut scenes = Vec::new(alloc);
    for standing in &names.statements {
        push_scene(alloc, first, entry, names, *standing, &mut scenes)?;
    }
    Ok(scenes)
}
