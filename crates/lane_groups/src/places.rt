//! Where the work-items of a group stand in it: their local ids, which are the same in all groups.

ghost use Rattle.launch.specs.View.{counts as counts_seen};
ghost use Rattle.lane_groups.specs.Places.{ArePlaces};

use crate::local_id::LocalId;
use launch::launches::Counts;
use work_item::evaluation::Identity;

/// The places of so many items of groups of a size, in their order.
#[derive(Drop)]
pub struct Places {
    pub sizes: Counts,
    pub places: Vec<LocalId>,
    pub ghost are: { ArePlaces (counts_seen sizes) places.items },
}

/// The items of a group: the first one, and where each stands.
#[derive(Drop)]
pub struct Crew<'b> {
    pub first: Identity<'b>,
    pub places: Places,
}
