//! The names that a kernel declares, in the order in which its symbols are numbered.

use std::alloc::{AllocError, Global};
use syntax::tree::Parameter;
use typed_kernels::Typed;

/// The names of a kernel's variables by their slots, those of its value parameters, which are the first of them, and those of its buffers;
/// and whether products of names may be named.
#[derive(Drop)]
pub struct Names<'a> {
    pub multiplies: bool,
    pub variables: Vec<&'a str>,
    pub arguments: Vec<&'a str>,
    pub buffers: Vec<&'a str>,
}

/// Adds the name of a parameter to the buffers, or to the variables and the arguments.
fn take_parameter<'a>(parameter: &'a Parameter, names: &mut Names<'a>) -> Result<(), AllocError> {
    match parameter {
        Parameter::Buffer { name, .. } => names.buffers.push(name.as_str())?,
        Parameter::Value { name, .. } => {
            names.variables.push(name.as_str())?;
            names.arguments.push(name.as_str())?;
        }
    }
    Ok(())
}

/// The names that a certificate may use of a kernel, in a wide walk or a narrow one.
pub fn names_of<'a>(
    alloc: Global,
    typed: &'a Typed,
    is_wide: bool,
) -> Result<Names<'a>, AllocError> {
    let map = typed.names();
    let mut names = Names {
        multiplies: is_wide,
        variables: Vec::new(alloc),
        arguments: Vec::new(alloc),
        buffers: Vec::new(alloc),
    };
    for parameter in map.parameters.as_slice() {
        take_parameter(parameter, &mut names)?;
    }
    for variable in map.variables.as_slice() {
        names.variables.push(variable.name.as_str())?;
    }
    Ok(names)
}
