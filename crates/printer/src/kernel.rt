//! The text of kernels.

ghost use Rattle.std.specs.Prelude.{◌≡◌, ◌++◌, [], map, OnOk, IfOk};
ghost use Rattle.std.specs.String.{string_bytes};
ghost use Rattle.texts.specs.Canonical as text;
ghost use Rattle.syntax.specs.View as view;

use crate::sign::push_kind;
use crate::statement::push_statements;
use std::alloc::{AllocError, Global};
use syntax::tree::{Kernel, Parameter};

fn push_parameter(out: &mut String, parameter: &Parameter) -> Result<(), AllocError>
    ensures { OnOk result (string_bytes out.new ≡ string_bytes out.old ++ text.parameter_text (view.parameter parameter.now)) }
{
    match parameter {
        Parameter::Buffer {
            constant,
            kind,
            name,
            ..
        } => {
            out.push_str("__global ")?;
            if *constant {
                out.push_str("const ")?;
            }
            push_kind(out, *kind)?;
            write!(out, " *{name}")
        }
        Parameter::Value { kind, name, .. } => {
            push_kind(out, *kind)?;
            write!(out, " {name}")
        }
    }
}

#[tactic(auto, using(crate::proofs::Texts::no_parameter))]
fn push_parameters(out: &mut String, parameters: &[Parameter]) -> Result<(), AllocError>
    ensures { OnOk result (string_bytes out.new ≡ string_bytes out.old ++ text.parameters_text [] (map view.parameter parameters.now)) }
{
    let mut before = "";
    for parameter in parameters {
        out.push_str(before)?;
        push_parameter(out, parameter)?;
        before = ", ";
    }
    Ok(())
}

#[tactic(auto, unfolding(texts::specs::Canonical::sizes_text))]
fn push_sizes(out: &mut String, x: u32, y: u32, z: u32) -> Result<(), AllocError>
    ensures { OnOk result (string_bytes out.new ≡ string_bytes out.old ++ text.sizes_text x y z) }
{
    write!(
        out,
        "__kernel __attribute__((reqd_work_group_size({x}, {y}, {z}))) void "
    )
}

fn push_head(out: &mut String, kernel: &Kernel) -> Result<(), AllocError>
    ensures { OnOk result (string_bytes out.new ≡ string_bytes out.old ++ text.head_text (view.kernel kernel.now)) }
{
    let [x, y, z] = kernel.sizes;
    push_sizes(out, x, y, z)?;
    out.push_str(kernel.name.as_str())?;
    out.push_str("(")?;
    push_parameters(out, kernel.parameters.as_slice())?;
    out.push_str(") {")
}

fn push_kernel(alloc: Global, out: &mut String, kernel: &Kernel) -> Result<(), AllocError>
    ensures { OnOk result (string_bytes out.new ≡ string_bytes out.old ++ text.canonical (view.kernel kernel.now)) }
{
    push_head(out, kernel)?;
    out.push_str("\n")?;
    push_statements(alloc, out, "  ", kernel.body.as_slice())?;
    out.push_str("}\n")
}

/// The canonical text of a kernel's tree. The error is want of memory.
pub fn print(alloc: Global, tree: &Kernel) -> Result<String, AllocError>
    ensures { IfOk result (λ text_made. string_bytes text_made ≡ text.canonical (view.kernel tree.now)) }
{
    let mut out = String::new(alloc);
    push_kernel(alloc, &mut out, tree)?;
    Ok(out)
}
