//! Work-items, and where they come.

ghost use Rattle.std.specs.Prelude.{◌≡◌, ◌<◌, ◌≤◌, length, MatchOption};
ghost use Rattle.semantics.specs.Setup.{item_count};
ghost use Rattle.work_item.specs.Items.{item as item_seen};
ghost use Rattle.kernel_names.specs.View.{names_seen};
ghost use Rattle.clashes.specs.View.{access as access_seen};
ghost use Rattle.machine.specs.Worlds.{setup, items_of, IsSound};
ghost use Rattle.findings.specs.Showing.{item_of, front_number, access_spot, standing_spot};
ghost use Rattle.findings.specs.View.{spot as spot_seen, work_item as work_item_seen};
ghost use Rattle.findings.specs.Visits.{IsVisit};

use crate::finding::{Spot, WorkItem};
use clashes::access::Access;
use kernel_names::site_at;
use launch::launches::Counts;
use machine::world::World;
use typed_kernels::Typed;
use work_item::identity::identity;
use work_item::item::{Item, Status};

/// A work-item, and the spot to which it comes.
#[derive(Clone, Copy)]
pub struct Visit {
    pub spot: Spot,
    pub item: WorkItem,
}

/// The work-item of a number that is one.
#[tactic(auto, using(machine::proofs::Moves::sizes_of, machine::proofs::Moves::few_of))]
fn work_item(world: &World, number: u64) -> WorkItem
    requires sound { IsSound world.now }
    requires number { number < item_count (setup world.now) }
    ensures { work_item_seen result ≡ item_of (setup world.now) number }
{
    let item = identity(world.core, world.launch, number);
    WorkItem {
        number,
        group: Counts {
            x: item.x.group,
            y: item.y.group,
            z: item.z.group,
        },
        local: Counts {
            x: item.x.local,
            y: item.y.local,
            z: item.z.local,
        },
    }
}

/// The item of a number, where there is one, that comes somewhere.
pub fn visit_of(world: &World, number: u64, spot: Spot) -> Option<Visit>
    requires { IsSound world.now }
    ensures { MatchOption result (item_count (setup world.now) ≤ number) (IsVisit (setup world.now) number (spot_seen spot)) }
{
    if number >= world.items.len() as u64 {
        return None;
    }
    let item = work_item(world, number);
    Some(Visit { spot, item })
}

/// The site of an access, as that of a store or a load.
fn spot_of(access: Access) -> Spot
    ensures { spot_seen result ≡ access_spot (access_seen access) }
{
    if access.is_store {
        Spot::Store(access.site)
    } else {
        Spot::Load(access.site)
    }
}

/// The work-item that makes an access, and where it comes; none where the item is not of the launch.
pub fn accessing(world: &World, access: Access) -> Option<Visit>
    requires { IsSound world.now }
    ensures { MatchOption result (item_count (setup world.now) ≤ access.item) (IsVisit (setup world.now) access.item (access_spot (access_seen access))) }
{
    visit_of(world, access.item, spot_of(access))
}

/// An item of a world.
pub fn item_at<'w, 'a>(world: &'w World<'a>, number: usize) -> &'w Item<'a>
    requires { number < length world.now.items.items }
    ensures { item_seen result.now ≡ items_of world.now number }
{
    &world.items[number]
}

/// The number of the statement in front, where anything is left.
fn front_number(item: &Item) -> Option<u32>
    ensures { result ≡ front_number (item_seen item.now).left }
{
    match item.left.front {
        Some(frame) => Some(frame.statement.number()),
        None => None,
    }
}

/// The barrier at which an item waits, or the end of the kernel for one that has ended.
fn standing_spot(typed: &Typed, item: &Item) -> Spot
    ensures { spot_seen result ≡ standing_spot (names_seen typed.now.0) (item_seen item.now) }
{
    if matches!(item.status, Status::Waiting) {
        Spot::Barrier(site_at(typed.names(), front_number(item)))
    } else {
        Spot::End
    }
}

/// The work-item of a number and the barrier or the end at which it stands; none where the launch has no such item.
pub fn standing(typed: &Typed, world: &World, number: u64) -> Option<Visit>
    requires { IsSound world.now }
    ensures { MatchOption result (item_count (setup world.now) ≤ number) (IsVisit (setup world.now) number (standing_spot (names_seen typed.now.0) (items_of world.now number))) }
{
    if number >= world.items.len() as u64 {
        return None;
    }
    let item = item_at(world, number as usize);
    visit_of(world, number, standing_spot(typed, item))
}
