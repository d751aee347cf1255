//! Places of items, kept and used.

ghost use Rattle.std.specs.Prelude.{◌≡◌, ◌<◌, ◌≤◌, ℕ, true, length, IfOk};
ghost use Rattle.semantics.specs.Setup.{Setup, group_size, member, place as place_at};
ghost use Rattle.core_code.specs.View.{kernel as kernel_seen};
ghost use Rattle.launch.specs.View.{counts as counts_seen};
ghost use Rattle.work_item.specs.View.{ids};
ghost use Rattle.lane_groups.specs.Groups.{setup, IsSound};
ghost use Rattle.lane_groups.specs.Members.{IsWho};
ghost use Rattle.lane_groups.specs.Places.{ArePlaces, local_of};

use crate::local_id::LocalId;
use crate::places::{Crew, Places};
use crate::work_group::Group;
use core_code::tree::Core;
use launch::launches::Counts;
use std::alloc::{AllocError, Global};
use work_item::dimension::Dimension;
use work_item::evaluation::Identity;
use work_item::identity::{group_size, identity};

/// The local sizes of a kernel.
fn sizes_of(core: &Core) -> Counts
    ensures { counts_seen result ≡ (kernel_seen core.now).sizes }
{
    Counts {
        x: core.sizes[0],
        y: core.sizes[1],
        z: core.sizes[2],
    }
}

/// Whether two sizes are the same.
fn are_same(a: Counts, b: Counts) -> bool
    ensures { result ≡ true → counts_seen a ≡ counts_seen b }
{
    a.x == b.x && a.y == b.y && a.z == b.z
}

/// The place of an item.
fn place_of(who: &Identity<'_>) -> LocalId
    ensures { (s : Setup) (g k : ℕ) → k < group_size s → IsWho s (member s g k) who.now → local_of result ≡ place_at s.kernel.sizes k }
{
    LocalId {
        x: who.x.local,
        y: who.y.local,
        z: who.z.local,
    }
}

/// The item of a lane, by its number.
fn item_of<'b>(group: &Group<'b>, lane: u64) -> Result<Identity<'b>, AllocError>
    requires sound { IsSound group.now }
    requires inside { lane < group_size (setup group.now) }
    ensures { IfOk result (λ who. IsWho (setup group.now) (member (setup group.now) group.now.number lane) who) }
{
    let number = group.member(lane)?;
    Ok(identity(group.core, group.launch, number))
}

/// The places of the items of a group.
fn places_of(alloc: Global, group: &Group<'_>) -> Result<Vec<LocalId>, AllocError>
    requires { IsSound group.now }
    ensures count { IfOk result (λ v. length v.items ≡ group_size (setup group.now)) }
    ensures places { IfOk result (λ v. ArePlaces (kernel_seen group.now.core.now).sizes v.items) }
{
    let count = group_size(group.core);
    let mut places = Vec::with_capacity(alloc, count as usize)?;
    for lane in 0..count {
        let who = item_of(group, lane)?;
        places.push(place_of(&who))?;
    }
    Ok(places)
}

/// A place along a dimension, with the group of an item.
#[inline(always)]
fn at_place(first: Dimension, local: u32) -> Dimension
    requires { local ≤ 1024 }
    ensures { ids result ≡ record { local = local; group = first.group; size = first.size; count = first.count } }
{
    Dimension {
        local,
        group: first.group,
        size: first.size,
        count: first.count,
    }
}

/// The item at a place of the group whose first item this is.
#[inline(always)]
pub fn standing<'b>(first: &Identity<'b>, place: LocalId) -> Identity<'b>
    ensures { (s : Setup) (g k : ℕ) → k < group_size s → IsWho s (member s g 0) first.now → local_of place ≡ place_at s.kernel.sizes k → IsWho s (member s g k) result }
{
    Identity {
        core: first.core,
        launch: first.launch,
        x: at_place(first.x, place.x),
        y: at_place(first.y, place.y),
        z: at_place(first.z, place.z),
        group: first.group,
    }
}

impl Places {
    /// The places of no item, for groups of size 0.
    pub fn none(alloc: Global) -> Places {
        Places {
            sizes: Counts { x: 0, y: 0, z: 0 },
            places: Vec::new(alloc),
        }
    }

    // Whether these are known to be the places of so many items of a kernel's groups.
    fn are_known(&self, core: &Core, count: u64) -> bool
        ensures count { result ≡ true → length self.now.places.items ≡ count }
        ensures places { result ≡ true → ArePlaces (kernel_seen core.now).sizes self.now.places.items }
    {
        self.places.len() as u64 == count && are_same(self.sizes, sizes_of(core))
    }

    /// The places of a group's items, which may be those of another group.
    pub fn of(self, alloc: Global, group: &Group<'_>) -> Result<Places, AllocError>
        requires { IsSound group.now }
        ensures count { IfOk result (λ places. length places.places.items ≡ group_size (setup group.now)) }
        ensures places { IfOk result (λ places. ArePlaces (kernel_seen group.now.core.now).sizes places.places.items) }
    {
        if self.are_known(group.core, group_size(group.core)) {
            return Ok(self);
        }
        let places = places_of(alloc, group)?;
        Ok(Places {
            sizes: sizes_of(group.core),
            places,
        })
    }
}

/// The items of a group, by the places of another group's.
pub fn crew_of<'b>(alloc: Global, group: &Group<'b>, places: Places) -> Result<Crew<'b>, AllocError>
    requires { IsSound group.now }
    ensures count { IfOk result (λ crew. length crew.places.places.items ≡ group_size (setup group.now)) }
    ensures first { IfOk result (λ crew. IsWho (setup group.now) (member (setup group.now) group.now.number 0) crew.first) }
    ensures places { IfOk result (λ crew. ArePlaces (setup group.now).kernel.sizes crew.places.places.items) }
{
    let places = places.of(alloc, group)?;
    let _some = group_size(group.core);
    let first = item_of(group, 0)?;
    Ok(Crew { first, places })
}
