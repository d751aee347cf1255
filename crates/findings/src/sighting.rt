//! What a world shows that is wrong.

ghost use Rattle.std.specs.Prelude.{IfSome};
ghost use Rattle.kernel_names.specs.View.{names_seen};
ghost use Rattle.machine.specs.Worlds.{setup, world as world_seen, IsSound};
ghost use Rattle.findings.specs.Showing.{HasRace, HasDivergence};
ghost use Rattle.findings.specs.Visits as visits;
ghost use Rattle.findings.specs.Visits.{IsSighting};

use crate::finding::Spot;
use crate::sizes::is_of_size;
use crate::visit::{Visit, accessing, item_at, standing, visit_of};
use machine::world::World;
use typed_kernels::Typed;
use words::Fault;
use work_item::identity::group_size;
use work_item::item::{Item, Status};
use work_item::trail::same_left;

/// A fault, a data race or a barrier divergence in a world, with the work-items and the sites that they come to.
#[derive(Clone, Copy)]
pub enum Sighting {
    Fault(Fault, Visit),
    /// A size outside 0 to 4294967295.
    Size(Visit),
    /// The earlier access first.
    Race(Visit, Visit),
    /// The item that waits where the other does not first.
    Divergence(Visit, Visit),
}

/// The first data race.
fn race(world: &World) -> Option<(Visit, Visit)>
    requires { IsSound world.now }
    ensures { IfSome result (λ p. HasRace (setup world.now) (world_seen world.now) (visits.spots_of p.0 p.1) (visits.items_of p.0 p.1)) }
{
    let (earlier, later) = world.clash()?;
    let first = accessing(world, earlier)?;
    let second = accessing(world, later)?;
    Some((first, second))
}

/// The first barrier divergence.
fn divergence(typed: &Typed, world: &World) -> Option<(Visit, Visit)>
    requires { IsSound world.now }
    ensures { IfSome result (λ p. HasDivergence (setup world.now) (names_seen typed.now.0) (world_seen world.now) (visits.spots_of p.0 p.1) (visits.items_of p.0 p.1)) }
{
    let (waiting, other) = world.divergence()?;
    let first = standing(typed, world, waiting)?;
    let second = standing(typed, world, other)?;
    Some((first, second))
}

/// Whether two items of a group stand apart, of which none runs.
fn are_apart(item: &Item, other: &Item) -> bool {
    match (item.status, other.status) {
        (Status::Waiting, Status::Waiting) => !same_left(&item.left, &other.left),
        (Status::Waiting, Status::Ended) | (Status::Ended, Status::Waiting) => true,
        _ => false,
    }
}

/// Whether an item stands apart from the first one of its group. Where the items of a group run one after another, and those before it
/// stand alike, this is so exactly where it stands apart from one of them: so all items are gone over once in a replay.
#[tactic(auto, using(machine::proofs::Moves::sizes_of))]
fn stands_apart(world: &World, number: u64) -> bool
    requires { IsSound world.now }
{
    let first = number - number % group_size(world.core);
    match (
        world.items.get(number as usize),
        world.items.get(first as usize),
    ) {
        (Some(item), Some(other)) => are_apart(item, other),
        _ => false,
    }
}

/// A data race, else a barrier divergence.
fn race_or_divergence(typed: &Typed, world: &World, number: u64) -> Option<Sighting>
    requires { IsSound world.now }
    ensures { IfSome result (IsSighting (setup world.now) (names_seen typed.now.0) (world_seen world.now)) }
{
    if let Some((earlier, later)) = race(world) {
        return Some(Sighting::Race(earlier, later));
    }
    if !stands_apart(world, number) {
        return None;
    }
    let (waiting, other) = divergence(typed, world)?;
    Some(Sighting::Divergence(waiting, other))
}

/// The first that a world shows to be wrong after a step of an item, where it showed nothing before: the item's fault, else a data race,
/// else a barrier divergence; none where all is well.
pub fn look(typed: &Typed, world: &World, number: u64) -> Option<Sighting>
    requires { IsSound world.now }
    ensures { IfSome result (IsSighting (setup world.now) (names_seen typed.now.0) (world_seen world.now)) }
{
    if number >= world.items.len() as u64 {
        return None;
    }
    match item_at(world, number as usize).status {
        Status::Stopped { fault, site } => {
            let stopped = visit_of(world, number, Spot::At(site))?;
            if is_of_size(world.core.body.as_slice(), fault, site) {
                Some(Sighting::Size(stopped))
            } else {
                Some(Sighting::Fault(fault, stopped))
            }
        }
        _ => race_or_divergence(typed, world, number),
    }
}
