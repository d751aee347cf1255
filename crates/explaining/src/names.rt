//! The names of a kernel's variables and arrays.

use core_code::tree::Site;
use kernel_names::NameMap;
use std::alloc::{AllocError, Global};
use syntax::tree::Parameter;

/// The name of a variable, and where it is declared.
#[derive(Clone, Copy)]
pub struct Named<'a> {
    pub name: &'a str,
    pub site: Site,
}

/// The names of private variables by their slots, of buffers and of local arrays by their numbers.
#[derive(Drop)]
pub struct Names<'a> {
    pub variables: Vec<Named<'a>>,
    pub buffers: Vec<&'a str>,
    pub arrays: Vec<&'a str>,
}

impl<'a> Names<'a> {
    fn push_variable(&mut self, name: &'a str, site: Site) -> Result<(), AllocError> {
        self.variables.push(Named { name, site })?;
        Ok(())
    }

    fn push_parameter(&mut self, parameter: &'a Parameter) -> Result<(), AllocError> {
        match parameter {
            Parameter::Buffer { name, .. } => {
                self.buffers.push(name.as_str())?;
                Ok(())
            }
            Parameter::Value {
                name_site,
                name,
                ..
            } => self.push_variable(name.as_str(), *name_site),
        }
    }
}

/// The names of a kernel, in the order in which its declarations stand.
pub fn names_of(alloc: Global, map: &NameMap) -> Result<Names<'_>, AllocError> {
    let mut names = Names {
        variables: Vec::new(alloc),
        buffers: Vec::new(alloc),
        arrays: Vec::new(alloc),
    };
    for parameter in &map.parameters {
        names.push_parameter(parameter)?;
    }
    for variable in &map.variables {
        names.push_variable(variable.name.as_str(), variable.site)?;
    }
    for array in &map.arrays {
        names.arrays.push(array.name.as_str())?;
    }
    Ok(names)
}

/// The name of a number, or `?`.
fn name_at<'a>(names: &[&'a str], number: u32) -> &'a str {
    names.get(number as usize).copied().unwrap_or("?")
}

impl<'a> Names<'a> {
    pub fn buffer(&self, number: u32) -> &'a str {
        name_at(self.buffers.as_slice(), number)
    }

    pub fn array(&self, number: u32) -> &'a str {
        name_at(self.arrays.as_slice(), number)
    }
}
