//! Whether the parameters of a text are those of an elaborated kernel.

ghost use Rattle.std.specs.Prelude.{◌≡◌, ◌++◌, length, map, IfOk, OnOk};
ghost use Rattle.words.specs.View.{kind as kind_seen};
ghost use Rattle.core_code.specs.View.{kernel as core_seen};
ghost use Rattle.host_launches.specs.Kinds as rules;

use crate::shapes::{Element, Shape};
use core_code::tree::Core;
use std::alloc::{AllocError, Global};
use words::{Kind, same_kind};

fn same_rows(left: &[Kind], right: &[Kind]) -> bool
    requires { length left.now ≡ length right.now }
    ensures { result ≡ rules.same_rows (map kind_seen left.now) (map kind_seen right.now) }
{
    for (at, kind) in left.iter().enumerate() {
        if !same_kind(*kind, right[at]) {
            return false;
        }
    }
    true
}

fn same_kinds(left: &[Kind], right: &[Kind]) -> bool
    ensures { result ≡ rules.same_kinds (map kind_seen left.now) (map kind_seen right.now) }
{
    left.len() == right.len() && same_rows(left, right)
}

fn push_components(of: Element, found: &mut Vec<Kind>) -> Result<(), AllocError>
    ensures { OnOk result (map kind_seen found.new.items ≡ map kind_seen found.old.items ++ rules.component_kinds of.scalar of.width) }
{
    for _ in 0..of.width {
        found.push(of.scalar.kind())?;
    }
    Ok(())
}

fn push_value(shape: Shape, found: &mut Vec<Kind>) -> Result<(), AllocError>
    ensures { OnOk result (map kind_seen found.new.items ≡ map kind_seen found.old.items ++ rules.value_kinds shape) }
{
    match shape {
        Shape::Value(of) => push_components(of, found),
        Shape::Buffer(_) | Shape::Local { .. } => Ok(()),
    }
}

fn push_buffer(shape: Shape, found: &mut Vec<Kind>) -> Result<(), AllocError>
    ensures { OnOk result (map kind_seen found.new.items ≡ map kind_seen found.old.items ++ rules.buffer_kinds shape) }
{
    match shape {
        Shape::Buffer(of) => {
            found.push(of.scalar.stored_kind())?;
            Ok(())
        }
        Shape::Value(_) | Shape::Local { .. } => Ok(()),
    }
}

fn argument_kinds(alloc: Global, shapes: &[Shape]) -> Result<Vec<Kind>, AllocError>
    ensures { IfOk result (λ v. map kind_seen v.items ≡ rules.all_kinds rules.value_kinds shapes.now) }
{
    let mut found = Vec::new(alloc);
    for shape in shapes {
        push_value(*shape, &mut found)?;
    }
    Ok(found)
}

fn buffer_kinds(alloc: Global, shapes: &[Shape]) -> Result<Vec<Kind>, AllocError>
    ensures { IfOk result (λ v. map kind_seen v.items ≡ rules.all_kinds rules.buffer_kinds shapes.now) }
{
    let mut found = Vec::new(alloc);
    for shape in shapes {
        push_buffer(*shape, &mut found)?;
    }
    Ok(found)
}

/// Whether the kernel has just the parameters that the shapes stand for.
pub fn are_parameters(alloc: Global, core: &Core, shapes: &[Shape]) -> Result<bool, AllocError>
    ensures { IfOk result (λ b. b ≡ rules.are_parameters (core_seen core.now) shapes.now) }
{
    let arguments = argument_kinds(alloc, shapes)?;
    let buffers = buffer_kinds(alloc, shapes)?;
    Ok(same_kinds(&core.arguments, &arguments) && same_kinds(&core.buffers, &buffers))
}
