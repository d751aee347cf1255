//! What names that a file declares in front of its kernel mean there.

ghost use Rattle.std.specs.Prelude.{◌≡◌, ℕ, Option, IfOk, OnOk, map};
ghost use Rattle.words.specs.View.{kind as kind_seen};
ghost use Rattle.opencl_tree.specs.View.{declaration as declaration_seen, declarator as declarator_seen, expression, maybe, qualifiers as qualifiers_seen};
ghost use Rattle.opencl_files.specs.View as files;
ghost use Rattle.opencl_values.specs.Values as value_rules;
ghost use Rattle.opencl_values.specs.View.{bindings};
ghost use Rattle.opencl_reading.specs.FileTypes as rules;

use opencl_core::constants::constant_of;
use opencl_files::tree::{Enumerator, KernelText};
use opencl_tree::tree::{Declaration, Declarator, Expr};
use opencl_tree::types::Qualifiers;
use opencl_values::error::ValueError;
use opencl_values::names::type_of_base;
use opencl_values::scope::{Binding, Meaning, Names};
use opencl_values::values::value_of;
use opencl_values::wholes::single_in;
use std::alloc::{AllocError, Global};
use words::Kind;

fn is_plain(qualifiers: Qualifiers, stars: &[Qualifiers], dimensions: &[Option<Expr>]) -> bool
    ensures { result ≡ rules.is_plain (qualifiers_seen qualifiers) (map qualifiers_seen stars.now) (map maybe dimensions.now) }
{
    stars.is_empty() && dimensions.is_empty() && !qualifiers.constant && qualifiers.space.is_none()
}

// Takes up the name of a type, where it can be meant.
fn push_name<'a>(
    declaration: &Declaration,
    declarator: &'a Declarator,
    visible: &mut Vec<Binding<'a>>,
) -> Result<(), AllocError>
    ensures { OnOk result (bindings visible.new.items ≡ rules.with_name (declaration_seen declaration.now) (declarator_seen declarator.now) (bindings visible.old.items)) }
{
    if !is_plain(
        declaration.qualifiers,
        &declarator.stars,
        &declarator.dimensions,
    ) {
        return Ok(());
    }
    match type_of_base(visible, &declaration.base, declaration.site) {
        Ok(of) => {
            visible.push(Binding {
                name: declarator.name.as_str(),
                meaning: Meaning::Type(of),
            })?;
            Ok(())
        }
        Err(ValueError::At { .. }) => Ok(()),
        Err(ValueError::Memory) => Err(AllocError),
    }
}

fn push_declarators<'a>(
    declaration: &'a Declaration,
    visible: &mut Vec<Binding<'a>>,
) -> Result<(), AllocError>
    ensures { OnOk result (bindings visible.new.items ≡ rules.with_declarators (declaration_seen declaration.now) (declaration_seen declaration.now).declarators (bindings visible.old.items)) }
{
    for declarator in &declaration.declarators {
        push_name(declaration, declarator, visible)?;
    }
    Ok(())
}

fn push_aliases<'a>(
    aliases: &'a [Declaration],
    visible: &mut Vec<Binding<'a>>,
) -> Result<(), AllocError>
    ensures { OnOk result (bindings visible.new.items ≡ rules.with_aliases (map declaration_seen aliases.now) (bindings visible.old.items)) }
{
    for alias in aliases {
        push_declarators(alias, visible)?;
    }
    Ok(())
}

// The number of the text that an expression is.
fn number_in(
    alloc: Global,
    ids: Kind,
    visible: &[Binding],
    of: &Expr,
) -> Result<Option<u32>, AllocError>
    ensures { IfOk result (λ n. n ≡ rules.number_in (value_rules.value_of (rules.names_of (kind_seen ids) (bindings visible.now)) (expression of.now))) }
{
    let names = Names {
        ids,
        visible,
        drawn: &[],
    };
    match value_of(alloc, names, of) {
        Ok(value) => Ok(constant_of(&single_in(value).term)),
        Err(ValueError::At { .. }) => Ok(None),
        Err(ValueError::Memory) => Err(AllocError),
    }
}

fn number_of(
    alloc: Global,
    ids: Kind,
    visible: &[Binding],
    next: Option<u32>,
    of: &Option<Expr>,
) -> Result<Option<u32>, AllocError>
    ensures { IfOk result (λ n. n ≡ rules.number_of (kind_seen ids) (bindings visible.now) next (maybe of.now)) }
{
    match of {
        None => Ok(next),
        Some(of) => number_in(alloc, ids, visible, of),
    }
}

fn following(number: Option<u32>) -> Option<u32>
    ensures { result ≡ rules.following number }
{
    match number {
        Some(n) if n < 2_147_483_647 => Some(n + 1),
        _ => None,
    }
}

fn push_number<'a>(
    name: &'a str,
    number: Option<u32>,
    visible: &mut Vec<Binding<'a>>,
) -> Result<(), AllocError>
    ensures { OnOk result (bindings visible.new.items ≡ rules.with_number name.now number (bindings visible.old.items)) }
{
    if let Some(bits) = number {
        visible.push(Binding {
            name,
            meaning: Meaning::Number(bits),
        })?;
    }
    Ok(())
}

fn push_constants<'a>(
    alloc: Global,
    ids: Kind,
    constants: &'a [Enumerator],
    visible: &mut Vec<Binding<'a>>,
) -> Result<(), AllocError>
    ensures { OnOk result (bindings visible.new.items ≡ rules.with_constants (kind_seen ids) rules.first (map files.enumerator constants.now) (bindings visible.old.items)) }
{
    let mut next = Some(0);
    for constant in constants {
        let number = number_of(alloc, ids, visible, next, &constant.value)?;
        push_number(constant.name.as_str(), number, visible)?;
        next = following(number);
    }
    Ok(())
}

fn push_enumerations<'a>(
    alloc: Global,
    ids: Kind,
    enumerations: &'a [Vec<Enumerator>],
    visible: &mut Vec<Binding<'a>>,
) -> Result<(), AllocError>
    ensures { OnOk result (bindings visible.new.items ≡ rules.with_enumerations (kind_seen ids) (map files.enumerators enumerations.now) (bindings visible.old.items)) }
{
    for constants in enumerations {
        push_constants(alloc, ids, constants, visible)?;
    }
    Ok(())
}

/// Takes up what the names mean that a file declares in front of its kernel: types, and constants of enumerations.
pub fn push_meant<'a>(
    alloc: Global,
    ids: Kind,
    text: &'a KernelText,
    visible: &mut Vec<Binding<'a>>,
) -> Result<(), AllocError>
    ensures { OnOk result (bindings visible.new.items ≡ rules.meant_in (kind_seen ids) (files.kernel_text text.now) (bindings visible.old.items)) }
{
    push_enumerations(alloc, ids, &text.enumerations, visible)?;
    push_aliases(&text.aliases, visible)
}
