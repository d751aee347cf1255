//! The text of a kernel, with what it declares.

use crate::naming::{Shown, name_of};
use crate::signs::kind_word;
use crate::statements::push_statements;
use core_code::tree::{Core, LocalArray};
use kernel_names::NameMap;
use std::alloc::{AllocError, Global};
use syntax::tree::Parameter;
use words::Kind;

/// Writes a parameter.
fn push_parameter(out: &mut String, parameter: &Parameter) -> Result<(), AllocError> {
    let name = name_of(parameter);
    match parameter {
        Parameter::Buffer { constant, kind, .. } => {
            let qualifier = if *constant { "const " } else { "" };
            let kind = kind_word(*kind);
            write!(out, "__global {qualifier}{kind} *{name}")
        }
        Parameter::Value { kind, .. } => {
            let kind = kind_word(*kind);
            write!(out, "{kind} {name}")
        }
    }
}

/// Writes the parameters, with commas between them.
fn push_parameters(out: &mut String, parameters: &[Parameter]) -> Result<(), AllocError> {
    let mut before = "";
    for parameter in parameters {
        out.push_str(before)?;
        push_parameter(out, parameter)?;
        before = ", ";
    }
    Ok(())
}

/// Writes the first line.
fn push_head(out: &mut String, sizes: [u32; 3], names: &NameMap) -> Result<(), AllocError> {
    let [x, y, z] = sizes;
    write!(
        out,
        "__kernel __attribute__((reqd_work_group_size({x}, {y}, {z}))) void _("
    )?;
    push_parameters(out, names.parameters.as_slice())?;
    out.push_str(") {\n")
}

/// Writes a line for each local array.
fn push_arrays(out: &mut String, shown: &Shown, arrays: &[LocalArray]) -> Result<(), AllocError> {
    let mut number: u32 = 0;
    for array in arrays {
        let kind = kind_word(array.kind);
        let name = shown.local(number);
        let length = array.length;
        writeln!(out, "  __local {kind} {name}[{length}];")?;
        number = number.saturating_add(1);
    }
    Ok(())
}

/// Writes a line for each variable, from a slot on.
fn push_variables(
    out: &mut String,
    shown: &Shown,
    from: usize,
    variables: &[Kind],
) -> Result<(), AllocError> {
    let mut slot = u32::try_from(from).unwrap_or(u32::MAX);
    for kind in variables {
        let kind = kind_word(*kind);
        let name = shown.slot(slot);
        writeln!(out, "  {kind} {name};")?;
        slot = slot.saturating_add(1);
    }
    Ok(())
}

/// Writes a core.
pub fn push_kernel(
    alloc: Global,
    out: &mut String,
    shown: &Shown,
    names: &NameMap,
    core: &Core,
) -> Result<(), AllocError> {
    push_head(out, core.sizes, names)?;
    push_arrays(out, shown, core.arrays.as_slice())?;
    push_variables(out, shown, core.arguments.len(), core.variables.as_slice())?;
    push_statements(alloc, out, shown, "  ", core.body.as_slice())?;
    out.push_str("}\n")
}
