//! The forms of work-item functions.

ghost use Rattle.std.specs.Prelude.{◌≡◌, ◌<◌, MatchResult};
ghost use Rattle.linear.specs.Forms.{form as form_seen};
ghost use Rattle.core_code.specs.View.{function as function_seen};
ghost use Rattle.facts.specs.Refusals.{IsMemory};
ghost use Rattle.walk_trees.specs.Terms as terms;
ghost use Rattle.path_steps.specs.View.{setting as seen};

use crate::setting::Setting;
use core_code::tree::Function;
use domain::Domain;
use facts::{Side, WalkError, once_group, once_groups, once_local};
use linear::Form;
use std::alloc::Global;

/// The form of what a work-item function answers in a dimension below 3 (OpenCL 1.2, 6.12.1).
fn id_inside<D: Domain>(
    setting: &Setting<D>,
    function: Function,
    dimension: u32,
) -> Result<Form, WalkError>
    requires { dimension < 3 }
    ensures { MatchResult result (λ f. form_seen f ≡ terms.id_inside (seen D.Domain setting.now) (function_seen function) dimension) IsMemory }
{
    let size = setting.sizes[dimension as usize];
    match function {
        Function::GlobalId => {
            let begin = once_group(setting.alloc, Side::First, dimension)?.times(
                setting.alloc,
                size as i64,
            )?;
            let form = begin.add(
                setting.alloc,
                &once_local(setting.alloc, Side::First, dimension)?,
            )?;
            Ok(form)
        }
        Function::LocalId => once_local(setting.alloc, Side::First, dimension),
        Function::GroupId => once_group(setting.alloc, Side::First, dimension),
        Function::GlobalSize => {
            let form = once_groups(setting.alloc, dimension)?.times(setting.alloc, size as i64)?;
            Ok(form)
        }
        Function::LocalSize => Ok(Form::constant(setting.alloc, size as i64)),
        Function::NumGroups => once_groups(setting.alloc, dimension),
    }
}

/// The form of what a work-item function answers in a dimension of 3 or more: 0 for an id, 1 for a size (OpenCL 1.2, 6.12.1).
fn id_outside(alloc: Global, function: Function) -> Form
    ensures { form_seen result ≡ terms.id_outside (function_seen function) }
{
    match function {
        Function::GlobalId | Function::LocalId | Function::GroupId => Form::constant(alloc, 0),
        Function::GlobalSize | Function::LocalSize | Function::NumGroups => {
            Form::constant(alloc, 1)
        }
    }
}

/// The form of what a work-item function answers in a dimension (OpenCL 1.2, 6.12.1).
pub fn id_form<D: Domain>(
    setting: &Setting<D>,
    function: Function,
    dimension: u32,
) -> Result<Form, WalkError>
    ensures { MatchResult result (λ f. form_seen f ≡ terms.id_form (seen D.Domain setting.now) (function_seen function) dimension) IsMemory }
{
    if dimension < 3 {
        id_inside(setting, function, dimension)
    } else {
        Ok(id_outside(setting.alloc, function))
    }
}
