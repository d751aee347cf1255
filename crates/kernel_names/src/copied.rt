//! Parameters, copied.

ghost use Rattle.std.specs.Prelude.{◌≡◌, IfOk, map};
ghost use Rattle.syntax.specs.View.{parameter as parameter_seen};

use std::alloc::{AllocError, Global};
use syntax::tree::Parameter;

/// The same parameter once more.
fn copy_of(alloc: Global, parameter: &Parameter) -> Result<Parameter, AllocError>
    ensures { IfOk result (λ p. parameter_seen p ≡ parameter_seen parameter.now) }
{
    match parameter {
        Parameter::Buffer {
            constant,
            kind,
            name_site,
            name,
        } => Ok(Parameter::Buffer {
            constant: *constant,
            kind: *kind,
            name_site: *name_site,
            name: String::from_str(alloc, name.as_str())?,
        }),
        Parameter::Value {
            kind,
            name_site,
            name,
        } => Ok(Parameter::Value {
            kind: *kind,
            name_site: *name_site,
            name: String::from_str(alloc, name.as_str())?,
        }),
    }
}

/// The same parameters once more.
pub fn copies_of(alloc: Global, parameters: &[Parameter]) -> Result<Vec<Parameter>, AllocError>
    ensures { IfOk result (λ v. map parameter_seen v.items ≡ map parameter_seen parameters.now) }
{
    let mut copies = Vec::new(alloc);
    for parameter in parameters {
        let copy = copy_of(alloc, parameter)?;
        copies.push(copy)?;
    }
    Ok(copies)
}
