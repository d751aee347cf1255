//! What a certificate may name of a kernel.

ghost use Rattle.std.specs.Prelude.{◌≡◌, IfOk, OnOk, map, []};
ghost use Rattle.kernel_names.specs.View.{names_seen};
ghost use Rattle.syntax.specs.View.{parameter as parameter_seen};
ghost use Rattle.core_code.specs.View.{kernel as core_seen};
ghost use Rattle.certificate_notes.specs.Sights as sights;
ghost use Rattle.certificate_notes.specs.Scenes.{take_variables};
ghost use Rattle.certificate_notes.specs.View.{chart as chart_seen, named};

use crate::error::NamesError;
use crate::scenes::{Named, Scene, assigned_among, push_arguments, push_variables, scenes_of};
use core_code::tree::Core;
use kernel_names::NameMap;
use std::alloc::Global;
use syntax::tree::Parameter;

/// A kernel's value parameters, its buffer parameters, the value parameters that are assigned, all its variables, and its scenes.
#[derive(Drop)]
pub struct Chart<'a> {
    pub arguments: Vec<Named<'a>>,
    pub buffers: Vec<Named<'a>>,
    pub entry: Vec<Named<'a>>,
    pub names: Vec<Named<'a>>,
    pub scenes: Vec<Scene<'a>>,
}

/// Adds the name and the number of a parameter, if it is a buffer.
fn take_buffer<'a>(parameter: &'a Parameter, buffers: &mut Vec<Named<'a>>) -> Result<(), NamesError>
    ensures { OnOk result (map named buffers.new.items ≡ sights.take_buffer (parameter_seen parameter.now) (map named buffers.old.items)) }
{
    match parameter {
        Parameter::Value { .. } => Ok(()),
        Parameter::Buffer { name, .. } => {
            let Ok(slot) = u32::try_from(buffers.len()) else {
                return Err(NamesError::Memory);
            };
            buffers.push(Named {
                name: name.as_str(),
                slot,
            })?;
            Ok(())
        }
    }
}

/// The names of a kernel's buffer parameters, with their numbers, in order.
fn buffers_of<'a>(alloc: Global, parameters: &'a [Parameter]) -> Result<Vec<Named<'a>>, NamesError>
    ensures { IfOk result (λ v. map named v.items ≡ sights.take_buffers (map parameter_seen parameters.now) []) }
{
    let mut buffers = Vec::new(alloc);
    for parameter in parameters {
        take_buffer(parameter, &mut buffers)?;
    }
    Ok(buffers)
}

/// The names of a kernel's value parameters, with their slots, in order.
fn arguments_of<'a>(alloc: Global, names: &'a NameMap) -> Result<Vec<Named<'a>>, NamesError>
    ensures { IfOk result (λ v. map named v.items ≡ sights.arguments_of (names_seen names.now)) }
{
    let mut arguments = Vec::new(alloc);
    push_arguments(names.parameters.as_slice(), &mut arguments)?;
    Ok(arguments)
}

/// The names of all variables, behind those of the value parameters.
fn variables_of<'a>(
    alloc: Global,
    names: &'a NameMap,
    arguments: &[Named<'a>],
) -> Result<Vec<Named<'a>>, NamesError>
    ensures { IfOk result (λ v. map named v.items ≡ take_variables (names_seen names.now).variables (map named arguments.now)) }
{
    let mut variables = Vec::from_slice(alloc, arguments)?;
    push_variables(names.variables.as_slice(), &mut variables)?;
    Ok(variables)
}

/// All that may be named of a kernel.
pub fn chart_of<'a>(alloc: Global, core: &Core, names: &'a NameMap) -> Result<Chart<'a>, NamesError>
    ensures { IfOk result (λ c. chart_seen c ≡ sights.chart_of (core_seen core.now) (names_seen names.now)) }
{
    let buffers = buffers_of(alloc, names.parameters.as_slice())?;
    let arguments = arguments_of(alloc, names)?;
    let entry = assigned_among(alloc, core, arguments.as_slice())?;
    let Ok(first) = u32::try_from(arguments.len()) else {
        return Err(NamesError::Memory);
    };
    let scenes = scenes_of(alloc, first, entry.as_slice(), names)?;
    let variables = variables_of(alloc, names, arguments.as_slice())?;
    Ok(Chart {
        arguments,
        buffers,
        entry,
        names: variables,
        scenes,
    })
}
