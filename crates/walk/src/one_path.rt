//! One path of a place, with its place, and what comes behind it.

ghost use Rattle.std.specs.Prelude.{◌≡◌, ◌≤◌, true, map, IfOk, IfErr};
ghost use Rattle.core_code.specs.View.{kernel as core_seen};
ghost use Rattle.facts.specs.Launching.{are_sizes};
ghost use Rattle.obligations.specs.Listing.{is_some};
ghost use Rattle.obligations.specs.View.{seen};
ghost use Rattle.path_steps.specs.View.{setting as setting_seen, choice as choice_seen};
ghost use Rattle.places.specs.View.{place as place_seen};
ghost use Rattle.walk.specs.Cursors.{IsWithin};
ghost use Rattle.walk.specs.Planting.{planted_by};
ghost use Rattle.walk.specs.Steps.{IsOn};
ghost use Rattle.walk.specs.Walks.{IsStuck};

use crate::choices::next_choices;
use crate::error::FindError;
use crate::following::follow;
use crate::numbers::{number_at, statement_of};
use crate::paths::count_ends;
use arrival_claims::Placing;
use core_code::tree::Core;
use domain::Domain;
use obligations::Notes;
use path_steps::{Choice, Setting};
use places::Place;
use two_thread::Tagged;

/// A path with its place, how many paths of the place came to an end with it, and the choices of the next one.
#[derive(Drop)]
pub struct OnePath<D> {
    pub path: Tagged<D>,
    pub ends: usize,
    pub next: Option<Vec<Choice>>,
}

/// A start of paths: a place, the number of claims before it, and the number of its paths that came to an end so far.
#[derive(Drop)]
pub struct Start<'a, 'p> {
    pub place: &'a Place<'p>,
    pub claims: u32,
    pub ends: usize,
}

/// There is a number.
fn is_there(number: Option<u32>) -> bool
    ensures { result ≡ is_some number }
{
    match number {
        None => false,
        Some(_) => true,
    }
}

/// The path of a place along these choices. More than 256 paths that come to an end are refused.
pub fn walk_one<D: Domain>(
    setting: &Setting<D>,
    core: &Core,
    notes: &Notes,
    start: &Start<'_, '_>,
    given: Vec<Choice>,
) -> Result<OnePath<D>, FindError>
    requires sizes { are_sizes (core_seen core.now).sizes ≡ true }
    requires few { start.now.ends ≤ 256 }
    requires within { IsWithin (planted_by D.Domain (setting_seen D.Domain setting.now) (core_seen core.now) (seen notes.now setting.now.entries.items) start.now.claims (place_seen start.now.place.now)) start.now.ends (map choice_seen given.items) }
    ensures on { IfOk result (λ w. IsOn (planted_by D.Domain (setting_seen D.Domain setting.now) (core_seen core.now) (seen notes.now setting.now.entries.items) start.now.claims (place_seen start.now.place.now)) (map choice_seen given.items) start.now.ends w) }
    ensures stuck { IfErr result (IsStuck (planted_by D.Domain (setting_seen D.Domain setting.now) (core_seen core.now) (seen notes.now setting.now.entries.items) start.now.claims (place_seen start.now.place.now))) }
{
    let anchor = number_at(&start.place.anchor);
    let head = number_at(&start.place.head);
    let placing = Placing {
        setting,
        core,
        notes,
        anchor,
        head,
    };
    let path = follow(&placing, start.place, start.claims, given)?;
    let ends = count_ends(statement_of(anchor, head), start.ends, path.ends.len())?;
    let next = next_choices(setting.alloc, path.taken.as_slice(), path.count)?;
    let path = Tagged {
        anchor,
        is_head: is_there(head),
        path,
    };
    Ok(OnePath { path, ends, next })
}
