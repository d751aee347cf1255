//! Kernels.

ghost use Rattle.std.specs.Prelude.{◌≡◌, IfOk, drop, map};
ghost use Rattle.core_code.specs.View.{statements};
ghost use Rattle.kernel_names.specs.View.{names_seen};
ghost use Rattle.opencl_tree.specs.View.{statements as statements_seen};
ghost use Rattle.opencl_files.specs.View.{header as header_seen};
ghost use Rattle.opencl_values.specs.View.{Gives, bindings};
ghost use Rattle.words.specs.View.{kind as kind_seen};
ghost use Rattle.opencl_core.specs.Kernels as rules;
ghost use Rattle.opencl_core.specs.View as seen;

use crate::assigning::is_void;
use crate::heads::{LocalCount, declare_parameters};
use crate::helpers::{Surroundings, helpers_of, templates_of};
use crate::moving::move_parameters;
use crate::names::may_name_kernel;
use crate::outsides::empty_room;
use crate::places::placed_all;
use crate::rooms::{Room, end_all};
use crate::templates::Template;
use crate::writing::{Around, write_all};
use core_code::tree::{Core, Statement};
use kernel_names::NameMap;
use opencl_files::tree::Header;
use opencl_tree::tree::Stmt;
use opencl_values::error::{Fault, ValueError, refused};
use opencl_values::scope::Binding;
use std::alloc::{AllocError, Global};
use words::Kind;

/// A kernel of OpenCL C: its core, and its map of names.
#[derive(Drop)]
pub struct Written {
    pub core: Core,
    pub names: NameMap,
}

// A room in which the functions in front of the kernel are known.
fn room_with<'a>(
    alloc: Global,
    ids: Kind,
    sizes: [u32; 3],
    outside: Vec<Binding<'a>>,
    templates: &'a [Template],
) -> Result<Room<'a>, AllocError>
    ensures { IfOk result (λ r. seen.room r ≡ rules.room_with (kind_seen ids) (seen.three sizes) (bindings outside.entry.items) (map seen.template templates.now)) }
{
    let helpers = helpers_of(alloc, templates)?;
    let mut room = empty_room(alloc, ids, sizes, outside);
    room.helpers = helpers;
    room.templates = templates;
    Ok(room)
}

fn head_room<'a>(
    alloc: Global,
    ids: Kind,
    sizes: [u32; 3],
    outside: Vec<Binding<'a>>,
    templates: &'a [Template],
    head: &Header,
) -> Result<Room<'a>, ValueError>
    ensures { Gives seen.room result (rules.head_room (kind_seen ids) (seen.three sizes) (bindings outside.entry.items) (map seen.template templates.now) (header_seen head.now)) }
{
    if !may_name_kernel(head.name.as_str()) {
        return refused(Fault::NameTwice, head.site);
    }
    if !is_void(&head.base, &head.stars) {
        return refused(Fault::WrongType, head.site);
    }
    Ok(room_with(alloc, ids, sizes, outside, templates)?)
}

// The kinds behind the first ones.
fn behind(kinds: &[Kind], first: usize) -> &[Kind]
    ensures { result.now ≡ drop first kinds.now }
{
    if first <= kinds.len() {
        &kinds[first..]
    } else {
        &[]
    }
}

// The body, in which each operation that is not reckoned has a place of its own.
fn body_of(alloc: Global, written: &[Statement]) -> Result<Vec<Statement>, AllocError>
    ensures { IfOk result (λ v. statements v.items ≡ rules.body_of (statements written.now)) }
{
    let (body, _) = placed_all(alloc, written, 1)?;
    Ok(body)
}

// The map of names, at the end of the outermost block.
fn names_of(alloc: Global, names: NameMap, next: u32) -> Result<NameMap, AllocError>
    ensures { IfOk result (λ m. names_seen m ≡ rules.names_at next (names_seen names)) }
{
    let mut variables = Vec::new(alloc);
    end_all(
        alloc,
        next.saturating_sub(1),
        &names.variables,
        &mut variables,
    )?;
    Ok(NameMap {
        parameters: names.parameters,
        variables,
        arrays: names.arrays,
        statements: names.statements,
    })
}

/// What the head of a kernel gives to its launches.
#[derive(Drop)]
pub struct Given {
    pub sizes: [u32; 3],
    pub buffers: Vec<Kind>,
    pub arguments: Vec<Kind>,
}

fn given_by(alloc: Global, sizes: [u32; 3], room: &Room) -> Result<Given, AllocError>
    ensures { IfOk result (λ g. seen.given g ≡ rules.given_by (seen.three sizes) (seen.room room.now)) }
{
    Ok(Given {
        sizes,
        buffers: Vec::from_slice(alloc, &room.buffers)?,
        arguments: Vec::from_slice(alloc, &room.slots)?,
    })
}

#[tactic(auto, using(crate::proofs::Lists::kept))]
fn finished(alloc: Global, given: Given, room: Room) -> Result<Written, AllocError>
    ensures { IfOk result (λ w. seen.written w ≡ rules.finished (seen.given given) (seen.room room.entry)) }
{
    let count = given.arguments.len();
    let body = body_of(alloc, &room.written)?;
    let variables = Vec::from_slice(alloc, behind(&room.slots, count))?;
    let names = names_of(alloc, room.names, room.next)?;
    let core = Core {
        sizes: given.sizes,
        buffers: given.buffers,
        arguments: given.arguments,
        arrays: room.arrays,
        variables,
        body,
    };
    Ok(Written { core, names })
}

fn kernel_with<'a>(
    alloc: Global,
    ids: Kind,
    outside: Vec<Binding<'a>>,
    templates: &'a [Template],
    sizes: [u32; 3],
    head: &'a Header,
    counts: &[LocalCount],
    body: &'a [Stmt],
) -> Result<Written, ValueError>
    ensures { Gives seen.written result (rules.kernel_with (kind_seen ids) (bindings outside.entry.items) (map seen.template templates.now) (seen.three sizes) (header_seen head.now) (map seen.local_count counts.now) (statements_seen body.now)) }
{
    let mut room = head_room(alloc, ids, sizes, outside, templates, head)?;
    declare_parameters(alloc, counts, &head.parameters, &mut room)?;
    let given = given_by(alloc, sizes, &room)?;
    move_parameters(alloc, body, &head.parameters, &mut room)?;
    write_all(alloc, Around::Outside, body, &mut room)?;
    Ok(finished(alloc, given, room)?)
}

/// The core and the map of names of a kernel of these work-group sizes, whose ids and sizes have a kind, where its file declares the names
/// outside of it, and these functions stand in front of it; or its first broken rule: of its name and its return type, of its parameters,
/// then of its statements.
#[tactic(auto, unfolding(crate::specs::Kernels::kernel_of))]
pub fn kernel_of<'a>(
    alloc: Global,
    ids: Kind,
    outside: Vec<Binding<'a>>,
    functions: &'a [(Header, Vec<Stmt>)],
    sizes: [u32; 3],
    head: &'a Header,
    counts: &[LocalCount],
    body: &'a [Stmt],
) -> Result<Written, ValueError>
    ensures { Gives seen.written result (rules.kernel_of (kind_seen ids) (bindings outside.entry.items) (map seen.function functions.now) (seen.three sizes) (header_seen head.now) (map seen.local_count counts.now) (statements_seen body.now)) }
{
    let within = Surroundings {
        ids,
        sizes,
        outside: outside.as_slice(),
    };
    let templates = templates_of(alloc, within, functions)?;
    kernel_with(
        alloc,
        ids,
        outside,
        templates.as_slice(),
        sizes,
        head,
        counts,
        body,
    )
}
