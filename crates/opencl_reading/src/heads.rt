//! What the head of conditions says of a kernel, against the kernel's own text.

ghost use Rattle.std.specs.Prelude.{◌≡◌, IfOk, Some, map, string_bytes};
ghost use Rattle.std.specs.Option.{option_map};
ghost use Rattle.core_code.specs.View.{site as site_seen};
ghost use Rattle.launch_text.specs.View as texts;
ghost use Rattle.opencl_tree.specs.View.{space_of};
ghost use Rattle.opencl_files.specs.View.{maybe_name, maybe_sizes, parameter as parameter_seen};
ghost use Rattle.opencl_core.specs.View.{local_count, three};
ghost use Rattle.opencl_reading.specs.HeadRules as rules;
ghost use Rattle.opencl_reading.specs.Kernels as kernels;
ghost use Rattle.opencl_reading.specs.Answers.{GivesSizes};

use crate::error::OpenClError;
use core_code::tree::Site;
use launch_text::head::LocalCount;
use opencl_core::heads::LocalCount as Counted;
use opencl_files::tree::Parameter;
use opencl_tree::types::Space;
use std::alloc::{AllocError, Global};

fn are_same_sizes(own: [u32; 3], given: [u32; 3]) -> bool
    ensures { result ≡ rules.are_same_sizes (three own) (texts.sizes given) }
{
    own[0] == given[0] && own[1] == given[1] && own[2] == given[2]
}

// The kernel's attribute says these sizes.
fn agreed_with(at: Site, own: [u32; 3], given: Option<[u32; 3]>) -> Result<[u32; 3], OpenClError>
    ensures { GivesSizes result (kernels.agreed (site_seen at) (Some (three own)) (option_map texts.sizes given)) }
{
    match given {
        None => Ok(own),
        Some(others) => {
            if are_same_sizes(own, others) {
                Ok(own)
            } else {
                Err(OpenClError::OtherSizes(at))
            }
        }
    }
}

/// The sizes of work-groups, by the kernel's attribute or by the head.
pub fn agreed(
    at: Site,
    own: Option<[u32; 3]>,
    given: Option<[u32; 3]>,
) -> Result<[u32; 3], OpenClError>
    ensures { GivesSizes result (kernels.agreed (site_seen at) (maybe_sizes own) (option_map texts.sizes given)) }
{
    match own {
        Some(sizes) => agreed_with(at, sizes, given),
        None => match given {
            Some(sizes) => Ok(sizes),
            None => Err(OpenClError::NoSizes(at)),
        },
    }
}

fn is_in_local(space: Option<Space>) -> bool
    ensures { result ≡ rules.is_in_local (space_of space) }
{
    matches!(space, Some(Space::Local))
}

fn has_name(name: &str, own: &Option<String>) -> bool
    ensures { result ≡ rules.has_name name.now (maybe_name own.now) }
{
    match own {
        None => false,
        Some(own) => own.as_str() == name,
    }
}

fn is_local(name: &str, parameter: &Parameter) -> bool
    ensures { result ≡ rules.is_local name.now (parameter_seen parameter.now) }
{
    has_name(name, &parameter.name)
        && parameter.stars.len() == 1
        && is_in_local(parameter.qualifiers.space)
}

fn has_local(parameters: &[Parameter], name: &str) -> bool
    ensures { result ≡ rules.has_local (map parameter_seen parameters.now) name.now }
{
    for parameter in parameters {
        if is_local(name, parameter) {
            return true;
        }
    }
    false
}

fn has_count(locals: &[LocalCount<'_>], name: &str) -> bool
    ensures { result ≡ rules.has_count (map texts.local locals.now) name.now }
{
    for local in locals {
        if local.name == name {
            return true;
        }
    }
    false
}

// The name is that of a pointer into local memory, and it does not stand among the others.
fn is_one(parameters: &[Parameter], name: &str, others: &[LocalCount<'_>]) -> bool
    ensures { result ≡ rules.is_one (map parameter_seen parameters.now) name.now (map texts.local others.now) }
{
    has_local(parameters, name) && !has_count(others, name)
}

/// Each name is that of a pointer into local memory, and none stands twice.
pub fn are_locals(parameters: &[Parameter], locals: &[LocalCount<'_>]) -> bool
    ensures { result ≡ rules.are_locals (map parameter_seen parameters.now) (map texts.local locals.now) }
{
    for (i, local) in locals.iter().enumerate() {
        if !is_one(parameters, local.name, &locals[i + 1..]) {
            return false;
        }
    }
    true
}

/// The lengths, as kernels take them.
pub fn counts(alloc: Global, locals: &[LocalCount<'_>]) -> Result<Vec<Counted>, AllocError>
    ensures { IfOk result (λ v. map local_count v.items ≡ map rules.as_count (map texts.local locals.now)) }
{
    let mut found = Vec::new(alloc);
    for local in locals {
        found.push(Counted {
            name: String::from_str(alloc, local.name)?,
            count: local.count,
        })?;
    }
    Ok(found)
}
