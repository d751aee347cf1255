//! Whether a map of names tells of just a core's parameters.

ghost use Rattle.std.specs.Prelude.{◌≡◌, IfOk, map};
ghost use Rattle.core_code.specs.View.{kernel as core_seen};
ghost use Rattle.kernel_names.specs.Parameters.{value_kind, buffer_kind, kinds};
ghost use Rattle.kernel_names.specs.View.{names_seen};
ghost use Rattle.opencl_reading.specs.Kernels.{has_parameters};
ghost use Rattle.opencl_reading.specs.Kinds as rules;
ghost use Rattle.syntax.specs.View.{parameter as parameter_seen};
ghost use Rattle.words.specs.View.{kind as kind_seen};

use core_code::tree::Core;
use kernel_names::NameMap;
use std::alloc::{AllocError, Global};
use syntax::tree::Parameter;
use words::{Kind, same_kind};

// Two lists have the same kinds, in the same order.
fn are_same(left: &[Kind], right: &[Kind]) -> bool
    ensures { result ≡ rules.are_same (map kind_seen left.now) (map kind_seen right.now) }
{
    let mut rest = right;
    for kind in left {
        let [first, others @ ..] = rest else {
            return false;
        };
        if !same_kind(*kind, *first) {
            return false;
        }
        rest = others;
    }
    rest.is_empty()
}

// The kinds of the value parameters.
fn of_values(alloc: Global, parameters: &[Parameter]) -> Result<Vec<Kind>, AllocError>
    ensures { IfOk result (λ v. map kind_seen v.items ≡ kinds value_kind (map parameter_seen parameters.now)) }
{
    let mut found = Vec::new(alloc);
    for parameter in parameters {
        match parameter {
            Parameter::Value { kind, .. } => found.push(*kind)?,
            Parameter::Buffer { .. } => {}
        }
    }
    Ok(found)
}

// The kinds of the elements of buffer parameters.
fn of_buffers(alloc: Global, parameters: &[Parameter]) -> Result<Vec<Kind>, AllocError>
    ensures { IfOk result (λ v. map kind_seen v.items ≡ kinds buffer_kind (map parameter_seen parameters.now)) }
{
    let mut found = Vec::new(alloc);
    for parameter in parameters {
        match parameter {
            Parameter::Buffer { kind, .. } => found.push(*kind)?,
            Parameter::Value { .. } => {}
        }
    }
    Ok(found)
}

/// Whether a map of names tells of just a core's parameters.
pub fn tells_parameters(alloc: Global, core: &Core, names: &NameMap) -> Result<bool, AllocError>
    ensures { IfOk result (λ b. b ≡ has_parameters (core_seen core.now) (names_seen names.now)) }
{
    let values = of_values(alloc, names.parameters.as_slice())?;
    let buffers = of_buffers(alloc, names.parameters.as_slice())?;
    let has_values = are_same(core.arguments.as_slice(), values.as_slice());
    Ok(has_values && are_same(core.buffers.as_slice(), buffers.as_slice()))
}
