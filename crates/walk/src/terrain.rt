//! What the walks of a kernel go over: cursors over its paths, and searches that walk its places one by one.

ghost use Rattle.std.specs.Prelude.{◌≡◌, List, Bool, map, true, IfOk, IfErr};
ghost use Rattle.core_code.specs.View.{kernel as core_seen};
ghost use Rattle.arrivals.specs.Places as meaning;
ghost use Rattle.places.specs.View.{place as place_seen};
ghost use Rattle.facts.specs.Launching.{are_sizes};
ghost use Rattle.facts.specs.Refusals.{IsMemory};
ghost use Rattle.obligations.specs.View.{seen};
ghost use Rattle.obligations.specs.Telling.{TellsOfItems};
ghost use Rattle.path_steps.specs.View.{setting as setting_seen};
ghost use Rattle.walk.specs.Cursors.{IsWalkable, IsWhole};
ghost use Rattle.walk.specs.Owned.{AllAreOwn};

use crate::error::FindError;
use crate::finding::setting_of;
use crate::paths::{FromPlace, walk_from};
use core_code::tree::Core;
use domain::Domain;
use facts::{WalkError, launch_facts};
use launch::conditions::Conditions;
use obligations::Notes;
use obligations::laws::trees_have_own_symbols;
use path_steps::Setting;
use places::Place;
use std::alloc::Global;
use two_thread::{Obligations, OwnPath, Premises, own_paths};

/// The paths of a place, and how many claims stand behind the last of theirs.
#[derive(Drop)]
pub struct PlacePaths<D> {
    pub after: u32,
    pub paths: Vec<OwnPath<D>>,
}

/// A kernel with its conditions, its places, and what is said of these, and the setting in which it is walked. Cursors stand on it, each
/// with a few numbers and choices of its own; a search walks its places one by one.
#[derive(Drop)]
pub struct Terrain<'a, D> {
    pub core: &'a Core,
    pub conditions: &'a Conditions,
    pub notes: &'a Notes,
    pub places: &'a [Place<'a>],
    pub setting: Setting<D>,
}

/// The paths of a place, before which so many claims stand, of the parts of a terrain that their walk reads: nothing is promised. Workers
/// share these parts by themselves, each by a reference.
pub fn paths_of<D: Domain>(
    setting: &Setting<D>,
    core: &Core,
    notes: &Notes,
    place: &Place<'_>,
    claims: u32,
) -> Result<PlacePaths<D>, FindError>
    requires sizes { are_sizes (core_seen core.now).sizes ≡ true }
    requires own { AllAreOwn D.Domain (setting_seen D.Domain setting.now) (core_seen core.now) (seen notes.now setting.now.entries.items) }
{
    let from = walk_from(setting, core, notes, place, claims)?;
    let FromPlace { walked, after } = from;
    let paths = own_paths(setting.alloc, walked)?;
    Ok(PlacePaths { after, paths })
}

/// All places of a kernel, where the obligations that are flagged have an entry.
pub fn terrain_of<'a, D: Domain>(
    alloc: Global,
    core: &'a Core,
    conditions: &'a Conditions,
    notes: &'a Notes,
    places: &'a [Place<'a>],
    entries: Vec<bool>,
) -> Result<Terrain<'a, D>, WalkError>
    requires sizes { are_sizes (core_seen core.now).sizes ≡ true }
    requires places { map place_seen places.now ≡ meaning.places (core_seen core.now).body }
    requires items { (flags : List Bool) → TellsOfItems (seen notes.now flags) }
    ensures whole { IfOk result (λ t. IsWhole D.Domain t) }
    ensures kernel { IfOk result (λ t. t.core.now ≡ core.now) }
    ensures conditions { IfOk result (λ t. t.conditions.now ≡ conditions.now) }
    ensures notes { IfOk result (λ t. t.notes.now ≡ notes.now) }
    ensures entries { IfOk result (λ t. t.setting.entries.items ≡ entries.items) }
    ensures memory { IfErr result IsMemory }
{
    trees_have_own_symbols::<D>();
    let setting = setting_of::<D>(alloc, notes.is_wide, notes.joins, core, conditions, entries)?;
    Ok(Terrain {
        core,
        conditions,
        notes,
        places,
        setting,
    })
}

impl<'a, D: Domain> Terrain<'a, D> {
    /// For each claim, by its number, whether it has an entry.
    pub fn flags(&self) -> &[bool] {
        self.setting.entries.as_slice()
    }

    /// The paths of a place, before which so many claims stand. A search goes on with them: nothing is promised.
    pub fn paths(&self, place: &Place<'_>, claims: u32) -> Result<PlacePaths<D>, FindError>
        requires { IsWalkable D.Domain self.now }
    {
        paths_of(&self.setting, self.core, self.notes, place, claims)
    }

    /// The claims along the paths of all places, and the flags. Pairs of ends and of accesses can be added to them.
    pub fn claims(
        self,
        alloc: Global,
        paths: Vec<OwnPath<D>>,
    ) -> Result<(Obligations<D>, Vec<bool>), FindError> {
        let Terrain {
            conditions,
            notes,
            setting,
            ..
        } = self;
        let launch = launch_facts(alloc, conditions)?;
        let Setting { known, entries, .. } = setting;
        let premises = Premises { launch, known };
        let found = Obligations::of_paths(alloc, premises, paths, notes)?;
        Ok((found, entries))
    }
}
