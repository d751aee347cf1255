//! Findings, confirmed by the replay of a launch.

ghost use Rattle.std.specs.Prelude.{◌≡◌, true, IfOk, IfSome, OnOk};
ghost use Rattle.semantics.specs.Launch.{Fits};
ghost use Rattle.core_code.specs.View.{kernel as core_seen};
ghost use Rattle.launch.specs.View.{launch as launch_seen};
ghost use Rattle.kernel_names.specs.View.{names_seen};
ghost use Rattle.work_item.specs.Proper.{is_proper, are_sizes};
ghost use Rattle.work_item.specs.View.{setup_of, AreFew};
ghost use Rattle.machine.specs.Worlds.{setup, world as world_seen};
ghost use Rattle.diagnostics.specs.Possible.{was_possible};
ghost use Rattle.diagnostics.specs.Confirming.{IsConfirmed};
ghost use Rattle.findings.specs.View.{finding as finding_seen};
ghost use Rattle.diagnostics.specs.Replays.{IsAfter, finding_of};
ghost use Rattle.findings.specs.Visits.{IsSighting};
ghost use Rattle.unreckoned.specs.Deciding.{decides_nothing};

use crate::turn::Turn;
use core_code::tree::Core;
use findings::{Finding, FindingKind, Grade, Sighting, assemble, look};
use launch::launches::Launch;
use machine::world::{Applied, Event, World};
use std::alloc::{AllocError, Global};
use typed_kernels::Typed;
use unreckoned::decides_nothing;
use work_item::identity::{group_size, product_of};

/// The most work-items of a launch that is replayed.
const ITEMS: u64 = 4096;

/// The most events of a replay.
const EVENTS: u32 = 1_000_000;

/// Whether an event was possible.
fn was_possible(applied: Applied) -> bool
    ensures { result ≡ was_possible applied }
{
    !matches!(applied, Applied::NotPossible)
}

/// Applies an event to the world and notes it, where it is possible, and gives whether it was.
fn happen(world: &mut World, events: &mut Vec<Event>, event: Event) -> Result<bool, AllocError>
    requires { IsAfter world.old events.old.items }
    ensures after { OnOk result (IsAfter world.new events.new.items) }
    ensures setup { OnOk result (setup world.new ≡ setup world.old) }
{
    if !was_possible(world.apply(event)?) {
        return Ok(false);
    }
    events.push(event)?;
    Ok(true)
}

/// An event, and what the world then shows.
fn go_on(
    typed: &Typed,
    world: &mut World,
    events: &mut Vec<Event>,
    event: Event,
) -> Result<Option<Sighting>, AllocError>
    requires { IsAfter world.old events.old.items }
    ensures after { OnOk result (IsAfter world.new events.new.items) }
    ensures setup { OnOk result (setup world.new ≡ setup world.old) }
    ensures seen { IfOk result (λ o. IfSome o (IsSighting (setup world.new) (names_seen typed.now.0) (world_seen world.new))) }
{
    if !happen(world, events, event)? {
        return Ok(None);
    }
    match event {
        Event::Step(item) => Ok(look(typed, world, item)),
        Event::Release(_) => Ok(None),
    }
}

/// Events one after another, up to the first that shows something.
fn play(
    typed: &Typed,
    world: &mut World,
    events: &mut Vec<Event>,
) -> Result<Option<Sighting>, AllocError>
    requires { IsAfter world.old events.old.items }
    ensures after { OnOk result (IsAfter world.new events.new.items) }
    ensures setup { OnOk result (setup world.new ≡ setup world.old) }
    ensures seen { IfOk result (λ o. IfSome o (IsSighting (setup world.new) (names_seen typed.now.0) (world_seen world.new))) }
{
    let mut turn = Turn::first(world);
    for _event in 0..EVENTS {
        let Some(event) = turn.event(world) else {
            return Ok(None);
        };
        if let Some(seen) = go_on(typed, world, events, event)? {
            return Ok(Some(seen));
        }
    }
    Ok(None)
}

/// The finding of what a schedule showed.
fn confirmed(alloc: Global, seen: Sighting, events: Vec<Event>) -> Result<Finding, AllocError>
    ensures { IfOk result (λ f. finding_seen f ≡ finding_of seen events.items) }
{
    let grade = Grade::Confirmed(events);
    match seen {
        Sighting::Fault(fault, at) => {
            assemble(
                alloc,
                FindingKind::Fault(fault),
                &[at.spot],
                &[at.item],
                grade,
            )
        }
        Sighting::Size(at) => { assemble(alloc, FindingKind::Size, &[at.spot], &[at.item], grade) }
        Sighting::Race(first, second) => {
            let sites = [first.spot, second.spot];
            assemble(
                alloc,
                FindingKind::Race,
                &sites,
                &[first.item, second.item],
                grade,
            )
        }
        Sighting::Divergence(first, second) => {
            let sites = [first.spot, second.spot];
            assemble(
                alloc,
                FindingKind::Divergence,
                &sites,
                &[first.item, second.item],
                grade,
            )
        }
    }
}

/// Whether a launch has so few items that it is replayed.
fn has_few_items(core: &Core, launch: &Launch) -> bool
    requires sizes { are_sizes (core_seen core.now).sizes ≡ true }
    requires counts { AreFew (launch_seen launch.now).groups }
{
    product_of(launch.groups) <= ITEMS / group_size(core)
}

/// Replays a launch of at most 4,096 items: always a step of the first item that runs, else the release of the first group that may go on.
/// It answers the first fault, data race or barrier divergence that comes up within 1,000,000 events, with the schedule that shows it; none
/// says nothing. Where what comes of an operation that is not reckoned decides something in the kernel, it answers none: other devices may
/// do otherwise.
#[tactic(auto, using(machine::proofs::Moves::sizes_of, machine::proofs::Moves::few_of))]
pub fn confirm(alloc: Global, typed: &Typed, launch: &Launch) -> Result<Option<Finding>, AllocError>
    requires proper { is_proper (core_seen typed.now.1) ≡ true }
    requires fits { Fits (core_seen typed.now.1) (launch_seen launch.now) }
    ensures shown { IfOk result (λ o. IfSome o (λ f. IsConfirmed (setup_of typed.now.1 launch.now) (names_seen typed.now.0) (finding_seen f))) }
    ensures alike { IfOk result (λ o. IfSome o (λ _. decides_nothing (core_seen typed.now.1) ≡ true)) }
{
    if !has_few_items(typed.core(), launch) {
        return Ok(None);
    }
    if !decides_nothing(alloc, typed.core())? {
        return Ok(None);
    }
    let mut world = World::open(alloc, typed, launch)?;
    let mut events = Vec::new(alloc);
    match play(typed, &mut world, &mut events)? {
        Some(seen) => Ok(Some(confirmed(alloc, seen, events)?)),
        None => Ok(None),
    }
}
