//! Pointer parameters of a kernel that its body moves.

ghost use Rattle.std.specs.Prelude.{◌≡◌, map};
ghost use Rattle.core_code.specs.View.{array as array_seen, site as site_seen};
ghost use Rattle.opencl_tree.specs.View.{statements as statements_seen};
ghost use Rattle.opencl_files.specs.View.{parameter as parameter_seen};
ghost use Rattle.opencl_terms.specs.Answers.{value_type};
ghost use Rattle.opencl_values.specs.View.{Gives, meaning_in};
ghost use Rattle.opencl_core.specs.Moving as rules;
ghost use Rattle.opencl_core.specs.MovingView.{maybe_whole};
ghost use Rattle.opencl_core.specs.View as seen;

use crate::rooms::Room;
use core_code::tree::{Array, Site};
use core_pieces::pieces::literal;
use opencl_files::tree::Parameter;
use opencl_moves::moves::moves_among;
use opencl_terms::scalars::ValueType;
use opencl_tree::tree::Stmt;
use opencl_values::error::ValueError;
use opencl_values::scope::{Binding, Meaning, meaning_of};
use std::alloc::Global;
use words::Kind;

/// An array that a name means: with its type, and whether it is constant.
#[derive(Clone, Copy)]
pub struct Whole {
    pub array: Array,
    pub element: ValueType,
    pub is_constant: bool,
}

fn array_meant(meaning: Option<&Meaning>) -> Option<Whole>
    ensures { maybe_whole result ≡ rules.array_meant (meaning_in meaning.entry) }
{
    match meaning {
        Some(
            Meaning::Array {
                array,
                element,
                is_constant,
                ..
            },
        ) => Some(Whole {
            array: *array,
            element: *element,
            is_constant: *is_constant,
        }),
        _ => None,
    }
}

// From here on a name means a pointer into an array.
fn move_array<'a>(
    alloc: Global,
    at: Site,
    name: &'a str,
    of: Whole,
    room: &mut Room<'a>,
) -> Result<(), ValueError>
    ensures { Gives (λ _. seen.room room.new) result (rules.moving_array (site_seen at) name.now (array_seen of.array) (value_type of.element) of.is_constant (seen.room room.old)) }
{
    let slot = room.next_slot(at)?;
    room.set(slot, literal(Kind::Int, 0), at)?;
    room.push_pointer(alloc, at, name)?;
    let meaning = Meaning::Pointer {
        array: of.array,
        element: of.element,
        is_constant: of.is_constant,
        row: None,
        over: None,
        slot,
    };
    room.visible.push(Binding { name, meaning })?;
    Ok(())
}

fn move_named<'a>(
    alloc: Global,
    body: &[Stmt],
    at: Site,
    name: &'a str,
    room: &mut Room<'a>,
) -> Result<(), ValueError>
    ensures { Gives (λ _. seen.room room.new) result (rules.moving_name (statements_seen body.now) (site_seen at) name.now (seen.room room.old)) }
{
    if !moves_among(name, body) {
        return Ok(());
    }
    match array_meant(meaning_of(&room.visible, name)) {
        None => Ok(()),
        Some(of) => move_array(alloc, at, name, of, room),
    }
}

#[tactic(auto, unfolding(crate::specs::Moving::moving_parameter))]
fn move_parameter<'a>(
    alloc: Global,
    body: &[Stmt],
    parameter: &'a Parameter,
    room: &mut Room<'a>,
) -> Result<(), ValueError>
    ensures { Gives (λ _. seen.room room.new) result (rules.moving_parameter (statements_seen body.now) (parameter_seen parameter.now) (seen.room room.old)) }
{
    match &parameter.name {
        None => Ok(()),
        Some(name) => move_named(alloc, body, parameter.site, name.as_str(), room),
    }
}

/// Gives those parameters of a kernel that its body moves an offset, which begins at 0.
pub fn move_parameters<'a>(
    alloc: Global,
    body: &[Stmt],
    parameters: &'a [Parameter],
    room: &mut Room<'a>,
) -> Result<(), ValueError>
    ensures { Gives (λ _. seen.room room.new) result (rules.moving_parameters (statements_seen body.now) (map parameter_seen parameters.now) (seen.room room.old)) }
{
    for parameter in parameters {
        move_parameter(alloc, body, parameter, room)?;
    }
    Ok(())
}
