//! What a replay shows of a confirmed finding: the launch, what the items touch, their values, and the schedule.

ghost use Rattle.std.specs.Prelude.{◌≡◌, true, IfOk, OnOk};
ghost use Rattle.semantics.specs.Launch.{Fits};
ghost use Rattle.core_code.specs.View.{kernel as core_seen};
ghost use Rattle.launch.specs.View.{launch as launch_seen};
ghost use Rattle.work_item.specs.Proper.{is_proper};
ghost use Rattle.machine.specs.Worlds.{IsSound};

use crate::causes::site_of;
use crate::index::{Reach, reach_of};
use crate::names::{Names, names_of};
use crate::paragraph::push_paragraph;
use crate::schedule::schedule;
use clashes::access::{Access, same_cell};
use core_code::tree::{Array, Site, Space};
use findings::{Finding, FindingKind, Spot};
use launch::launches::Launch;
use machine::world::{Event, World};
use std::alloc::{AllocError, Global};
use typed_kernels::Typed;
use words::{Fault, Word};
use work_item::ask::{Cell, Owner};

/// The blanks in front of each line of a replay.
const INDENT: &str = "   ";

/// The most values of an item, and the most buffers of a launch, that are told.
const MOST: usize = 8;

/// Events one after another, until so many accesses were made.
fn advance(world: &mut World, events: &[Event], accesses: usize) -> Result<(), AllocError>
    requires { IsSound world.old }
    ensures { OnOk result (IsSound world.new) }
{
    for event in events {
        if world.history.accesses.len() >= accesses {
            return Ok(());
        }
        world.apply(*event)?;
    }
    Ok(())
}

/// A schedule of a kernel at a launch.
#[derive(Clone, Copy)]
struct Replay<'a> {
    typed: &'a Typed,
    launch: &'a Launch,
    events: &'a [Event],
}

/// The world of a replay, as far as so many accesses.
fn replayed<'a>(alloc: Global, replay: Replay<'a>, accesses: usize) -> Result<World<'a>, AllocError>
    requires proper { is_proper (core_seen replay.typed.now.1) ≡ true }
    requires fits { Fits (core_seen replay.typed.now.1) (launch_seen replay.launch.now) }
    ensures { IfOk result (λ w. IsSound w) }
{
    let mut world = World::open(alloc, replay.typed, replay.launch)?;
    advance(&mut world, replay.events, accesses)?;
    Ok(world)
}

/// Whether one site stands before another.
fn is_before(one: Site, other: Site) -> bool {
    one.line < other.line || (one.line == other.line && one.column < other.column)
}

/// Whether a variable is declared before a site; all are before the kernel's end.
fn is_declared(names: &Names, slot: usize, site: Option<Site>) -> bool {
    match (names.variables.get(slot), site) {
        (Some(named), Some(site)) => is_before(named.site, site),
        (Some(_), None) => true,
        (None, _) => false,
    }
}

/// Whether a variable has the name of one that is declared behind it.
fn is_hidden(names: &Names, slot: usize, site: Option<Site>) -> bool {
    let Some(named) = names.variables.get(slot) else {
        return true;
    };
    for (other, later) in names.variables.iter().enumerate() {
        if other > slot && later.name == named.name && is_declared(names, other, site) {
            return true;
        }
    }
    false
}

/// Whether a variable is an argument that is as it was.
fn is_kept(launch: &Launch, slot: usize, word: Word) -> bool {
    match launch.arguments.get(slot) {
        Some(argument) => argument.value() == word.value(),
        None => false,
    }
}

/// A variable's name and value behind others.
fn push_value(
    names: &Names,
    slot: usize,
    word: Word,
    separator: &str,
    text: &mut String,
) -> Result<(), AllocError> {
    let name = match names.variables.get(slot) {
        Some(named) => named.name,
        None => "?",
    };
    let value = word.value();
    write!(text, "{separator}{name} = {value}")
}

/// The private variables of an item that were declared, with their values; arguments that were not changed are told of the launch.
fn push_values(
    names: &Names,
    launch: &Launch,
    variables: &[Word],
    site: Option<Site>,
    text: &mut String,
) -> Result<(), AllocError> {
    let mut told = 0usize;
    for (slot, word) in variables.iter().enumerate() {
        if is_declared(names, slot, site)
            && !is_hidden(names, slot, site)
            && !is_kept(launch, slot, *word)
        {
            if told >= MOST {
                return text.push_str(", and so on.");
            }
            let separator = if told == 0 { " " } else { ", " };
            push_value(names, slot, *word, separator, text)?;
            told += 1;
        }
    }
    text.push_str(if told == 0 {
        " no variables of its own."
    } else {
        "."
    })
}

/// An item of a world, and its values.
fn push_item(
    alloc: Global,
    names: &Names,
    world: &World,
    number: u64,
    site: Option<Site>,
    out: &mut String,
) -> Result<(), AllocError> {
    let Some(item) = world.items.get(number as usize) else {
        return Ok(());
    };
    let mut text = format!(in alloc; "Work-item {number}:")?;
    push_values(
        names,
        world.launch,
        item.variables.as_slice(),
        site,
        &mut text,
    )?;
    push_paragraph(out, INDENT, &text)
}

/// An argument or the length of a buffer, behind what is told of a launch.
fn push_arguments(names: &Names, launch: &Launch, text: &mut String) -> Result<(), AllocError> {
    for (slot, word) in launch.arguments.iter().enumerate().take(MOST) {
        push_value(names, slot, *word, ", ", text)?;
    }
    Ok(())
}

fn push_lengths(names: &Names, launch: &Launch, text: &mut String) -> Result<(), AllocError> {
    for (number, words) in launch.buffers.words.iter().enumerate().take(MOST) {
        let name = names.buffer(number as u32);
        let length = words.len();
        write!(text, ", length of {name} {length}")?;
    }
    Ok(())
}

/// Writes the launch that is replayed: its groups, arguments and lengths.
fn push_launch(
    alloc: Global,
    names: &Names,
    launch: &Launch,
    out: &mut String,
) -> Result<(), AllocError> {
    let groups = launch.groups;
    let mut text = format!(in alloc; "Launch: groups {} {} {}", groups.x, groups.y, groups.z)?;
    push_arguments(names, launch, &mut text)?;
    push_lengths(names, launch, &mut text)?;
    text.push_str("; all buffers hold zeros.")?;
    push_paragraph(out, INDENT, &text)
}

/// Writes the element that two accesses touch.
fn push_element(
    alloc: Global,
    names: &Names,
    at: Cell,
    out: &mut String,
) -> Result<(), AllocError> {
    let index = at.index;
    let text = match at.owner {
        Owner::Launch => {
            let name = names.buffer(at.array);
            format!(in alloc; "Both touch {name}[{index}].")?
        }
        Owner::Group(group) => {
            let name = names.array(at.array);
            format!(in alloc; "Both touch {name}[{index}], in the local memory of group {group}.")?
        }
    };
    push_paragraph(out, INDENT, &text)
}

/// The number of accesses in a history up to one of them.
fn count_to(world: &World, access: Access) -> usize {
    for (place, other) in world.history.accesses.iter().enumerate() {
        if other.item == access.item
            && other.is_store == access.is_store
            && other.epoch == access.epoch
            && other.site == access.site
            && same_cell(other.at, access.at)
        {
            return place.saturating_add(1);
        }
    }
    usize::MAX
}

/// The two items of a data race, each as it is behind its access.
fn push_race(
    alloc: Global,
    names: &Names,
    world: &World,
    replay: Replay<'_>,
    out: &mut String,
) -> Result<(), AllocError>
    requires sound { IsSound world.now }
    requires proper { is_proper (core_seen replay.typed.now.1) ≡ true }
    requires fits { Fits (core_seen replay.typed.now.1) (launch_seen replay.launch.now) }
{
    let Some((earlier, later)) = world.clash() else {
        return Ok(());
    };
    push_element(alloc, names, later.at, out)?;
    let count = count_to(world, earlier);
    let past = replayed(alloc, replay, count)?;
    push_item(alloc, names, &past, earlier.item, Some(earlier.site), out)?;
    push_item(alloc, names, world, later.item, Some(later.site), out)
}

/// The name of an array.
fn name_of<'a>(names: &Names<'a>, array: Array) -> &'a str {
    match array.space {
        Space::Global => names.buffer(array.number),
        Space::Local => names.array(array.number),
    }
}

/// Writes an index that is out of bounds, and the array's length; nothing where none was found.
fn push_reach(
    alloc: Global,
    names: &Names,
    found: Option<Reach>,
    out: &mut String,
) -> Result<(), AllocError> {
    let Some(found) = found else {
        return Ok(());
    };
    let name = name_of(names, found.array);
    let index = found.index;
    let length = found.length;
    let text = format!(in alloc; "The index is {index}; the length of {name} is {length}.")?;
    push_paragraph(out, INDENT, &text)
}

/// Writes the index and the array's length where an item reaches out of bounds.
fn push_index(
    alloc: Global,
    names: &Names,
    world: &World,
    finding: &Finding,
    out: &mut String,
) -> Result<(), AllocError>
    requires { IsSound world.now }
{
    match (finding.items.first(), finding.sites.first(), finding.kind) {
        (Some(item), Some(Spot::At(site)), FindingKind::Fault(Fault::OutOfBounds)) => {
            push_reach(alloc, names, reach_of(world, item.number, *site), out)
        }
        _ => Ok(()),
    }
}

/// The items of a finding, as they are in the end.
fn push_items(
    alloc: Global,
    names: &Names,
    world: &World,
    finding: &Finding,
    out: &mut String,
) -> Result<(), AllocError> {
    for (item, spot) in finding.items.iter().zip(finding.sites.iter()) {
        push_item(alloc, names, world, item.number, site_of(*spot), out)?;
    }
    Ok(())
}

/// Writes what decides a finding: the two accesses of a data race, else the index that is out of bounds and the items with their values.
fn push_decisive(
    alloc: Global,
    names: &Names,
    world: &World,
    finding: &Finding,
    replay: Replay<'_>,
    out: &mut String,
) -> Result<(), AllocError>
    requires sound { IsSound world.now }
    requires proper { is_proper (core_seen replay.typed.now.1) ≡ true }
    requires fits { Fits (core_seen replay.typed.now.1) (launch_seen replay.launch.now) }
{
    if finding.kind == FindingKind::Race {
        return push_race(alloc, names, world, replay, out);
    }
    push_index(alloc, names, world, finding, out)?;
    push_items(alloc, names, world, finding, out)
}

/// Writes what the replay of a launch by a schedule shows of a finding: the launch, the items, and the schedule.
pub fn push_scene(
    alloc: Global,
    typed: &Typed,
    launch: &Launch,
    finding: &Finding,
    events: &[Event],
    out: &mut String,
) -> Result<(), AllocError>
    requires proper { is_proper (core_seen typed.now.1) ≡ true }
    requires fits { Fits (core_seen typed.now.1) (launch_seen launch.now) }
{
    let names = names_of(alloc, typed.names())?;
    let replay = Replay {
        typed,
        launch,
        events,
    };
    let world = replayed(alloc, replay, usize::MAX)?;
    push_launch(alloc, &names, launch, out)?;
    push_decisive(alloc, &names, &world, finding, replay, out)?;
    let text = schedule(alloc, events)?;
    push_paragraph(out, INDENT, &text)
}
