//! Who a work-item is, by its number.

ghost use Rattle.std.specs.Prelude.{◌≡◌, ◌<◌, ◌≤◌, ◌%◌, ◌/◌, ℕ, true};
ghost use Rattle.semantics.specs.Launch as launches;
ghost use Rattle.semantics.specs.Launch.{product};
ghost use Rattle.semantics.specs.Setup as setup;
ghost use Rattle.core_code.specs.View.{kernel as kernel_seen};
ghost use Rattle.launch.specs.View.{launch as launch_seen, counts as counts_seen};
ghost use Rattle.work_item.specs.Proper.{are_sizes};
ghost use Rattle.work_item.specs.View.{setup_of, AreFew, IsItem};

use crate::dimension::Dimension;
use crate::evaluation::Identity;
use crate::ids::place;
use core_code::tree::Core;
use launch::launches::{Counts, Launch};

/// The local sizes of a kernel.
fn sizes_of(core: &Core) -> Counts
    ensures { counts_seen result ≡ (kernel_seen core.now).sizes }
{
    Counts {
        x: core.sizes[0],
        y: core.sizes[1],
        z: core.sizes[2],
    }
}

/// The product of the numbers of all dimensions.
pub fn product_of(counts: Counts) -> u64
    requires { AreFew (counts_seen counts) }
    ensures { result ≡ product (counts_seen counts) }
{
    counts.x as u64 * counts.y as u64 * counts.z as u64
}

/// The number of work-items of a group.
#[tactic(auto, unfolding(semantics::specs::Setup::group_size))]
pub fn group_size(core: &Core) -> u64
    requires { are_sizes (kernel_seen core.now).sizes ≡ true }
    ensures value { (l : launches.Launch) → result ≡ setup.group_size (setup.at_launch (kernel_seen core.now) l) }
    ensures small { result ≤ 1024 }
    ensures some { 0 < result }
{
    product_of(sizes_of(core))
}

/// The item at a place of a group's.
fn item_at<'a>(
    core: &'a Core,
    launch: &'a Launch,
    number: u64,
    group: Counts,
    local: Counts,
) -> Identity<'a>
    requires sizes { are_sizes (kernel_seen core.now).sizes ≡ true }
    requires counts { AreFew (launch_seen launch.now).groups }
    requires group { setup.IsPlace (launch_seen launch.now).groups (counts_seen group) }
    requires local { setup.IsPlace (kernel_seen core.now).sizes (counts_seen local) }
    ensures item { (i : ℕ) → number ≡ setup.group_of (setup_of core.now launch.now) i → counts_seen group ≡ setup.place (launch_seen launch.now).groups (setup.group_of (setup_of core.now launch.now) i) → counts_seen local ≡ setup.place (kernel_seen core.now).sizes (i % setup.group_size (setup_of core.now launch.now)) → IsItem result i }
    ensures core { result.core.now ≡ core.now }
    ensures launch { result.launch.now ≡ launch.now }
{
    Identity {
        core,
        launch,
        x: Dimension {
            local: local.x,
            group: group.x,
            size: core.sizes[0],
            count: launch.groups.x,
        },
        y: Dimension {
            local: local.y,
            group: group.y,
            size: core.sizes[1],
            count: launch.groups.y,
        },
        z: Dimension {
            local: local.z,
            group: group.z,
            size: core.sizes[2],
            count: launch.groups.z,
        },
        group: number,
    }
}

/// The work-item of a number, in a kernel's launch.
pub fn identity<'a>(core: &'a Core, launch: &'a Launch, number: u64) -> Identity<'a>
    requires sizes { are_sizes (kernel_seen core.now).sizes ≡ true }
    requires counts { AreFew (launch_seen launch.now).groups }
    requires number { number < setup.item_count (setup_of core.now launch.now) }
    ensures item { IsItem result number }
    ensures core { result.core.now ≡ core.now }
    ensures launch { result.launch.now ≡ launch.now }
{
    let sizes = sizes_of(core);
    let size = group_size(core);
    let group = number / size;
    let of_group = place(launch.groups, group);
    let local = place(sizes, number % size);
    item_at(core, launch, group, of_group, local)
}
