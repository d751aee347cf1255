//! All that is to be shown of a kernel's places under conditions.

ghost use Rattle.std.specs.Prelude.{◌≡◌, List, Bool, map, true, IfOk, OnOk, IfErr};
ghost use Rattle.words.specs.View.{kind};
ghost use Rattle.core_code.specs.View.{kernel as core_seen, local_array};
ghost use Rattle.arrivals.specs.Places as meaning;
ghost use Rattle.places.specs.View.{place as place_seen};
ghost use Rattle.launch.specs.View.{conditions as conditions_seen};
ghost use Rattle.facts.specs.Launching.{are_sizes};
ghost use Rattle.facts.specs.Launching as launching;
ghost use Rattle.facts.specs.Refusals.{IsMemory};
ghost use Rattle.facts.specs.View.{known_seen, buffer_bound};
ghost use Rattle.obligations.specs.View.{seen};
ghost use Rattle.obligations.specs.Telling.{TellsOfItems};
ghost use Rattle.obligations.specs.Listing.{all_trees};
ghost use Rattle.obligations.specs.Fitting.{trees_fit};
ghost use Rattle.obligations.specs.Shown.{obligations};
ghost use Rattle.two_thread.specs.Listed.{listed, found_fits};
ghost use Rattle.walk.specs.Fitting.{own_fits};
ghost use Rattle.walk.specs.Unfound.{HaveFewPaths, IsUnfound};

use crate::error::FindError;
use crate::every::walk_all;
use core_code::tree::Core;
use domain::Domain;
use facts::{WalkError, buffer_bounds, known, launch_facts};
use launch::conditions::Conditions;
use obligations::Notes;
use obligations::laws::trees_have_own_symbols;
use path_steps::Setting;
use places::Place;
use std::alloc::Global;
use two_thread::{Obligations, Premises};

/// The setting in which a kernel's places are walked: whether the walk is the wide one, and joins ways, what the domain knows under the
/// conditions, the kernel's sizes and arrays, what the conditions say that buffers hold, and the entries.
pub fn setting_of<D: Domain>(
    alloc: Global,
    is_wide: bool,
    joins: bool,
    core: &Core,
    conditions: &Conditions,
    entries: Vec<bool>,
) -> Result<Setting<D>, WalkError>
    ensures wide { IfOk result (λ s. s.is_wide ≡ is_wide) }
    ensures joins { IfOk result (λ s. s.joins ≡ joins) }
    ensures known { IfOk result (λ s. known_seen s.known ≡ launching.known D.Domain (core_seen core.now).sizes (conditions_seen conditions.now)) }
    ensures sizes { IfOk result (λ s. s.sizes ≡ core.now.sizes) }
    ensures buffers { IfOk result (λ s. map kind s.buffers.items ≡ (core_seen core.now).buffers) }
    ensures arrays { IfOk result (λ s. map local_array s.arrays.items ≡ (core_seen core.now).arrays) }
    ensures contents { IfOk result (λ s. map buffer_bound s.contents.items ≡ launching.buffer_bounds (conditions_seen conditions.now)) }
    ensures entries { IfOk result (λ s. s.entries.items ≡ entries.items) }
    ensures memory { IfErr result IsMemory }
{
    let known = known::<D>(alloc, core.sizes, conditions)?;
    let buffers = Vec::from_slice(alloc, core.buffers.as_slice())?;
    let arrays = Vec::from_slice(alloc, core.arrays.as_slice())?;
    let contents = buffer_bounds(alloc, conditions)?;
    Ok(Setting {
        alloc,
        is_wide,
        joins,
        known,
        sizes: core.sizes,
        buffers,
        arrays,
        contents,
        entries,
    })
}

/// All that is to be shown of a kernel's places, where the obligations that are flagged have an entry. Whether the own forms of a pair are
/// of `i64` is asked of it by its number.
pub fn find<D: Domain>(
    alloc: Global,
    core: &Core,
    conditions: &Conditions,
    notes: &Notes,
    places: &[Place<'_>],
    entries: Vec<bool>,
) -> Result<Obligations<D>, FindError>
    requires sizes { are_sizes (core_seen core.now).sizes ≡ true }
    requires places { map place_seen places.now ≡ meaning.places (core_seen core.now).body }
    requires items { (flags : List Bool) → TellsOfItems (seen notes.now flags) }
    ensures listed { IfOk result (λ o. listed D.Domain o ≡ obligations D.Domain (core_seen core.now) (conditions_seen conditions.now) (seen notes.now entries.items)) }
    ensures own { IfOk result (λ o. found_fits o ≡ own_fits D.Domain (core_seen core.now) (conditions_seen conditions.now) (seen notes.now entries.items)) }
    ensures fits { OnOk result (trees_fit (all_trees D.Domain (core_seen core.now) (conditions_seen conditions.now) (seen notes.now entries.items)) ≡ true) }
    ensures few { OnOk result (HaveFewPaths (all_trees D.Domain (core_seen core.now) (conditions_seen conditions.now) (seen notes.now entries.items))) }
    ensures unfound { IfErr result (IsUnfound D.Domain (core_seen core.now) (conditions_seen conditions.now) (seen notes.now entries.items)) }
{
    trees_have_own_symbols::<D>();
    let setting = setting_of::<D>(alloc, notes.is_wide, notes.joins, core, conditions, entries)?;
    let walked = walk_all(&setting, core, notes, places)?;
    let launch = launch_facts(alloc, conditions)?;
    let premises = Premises {
        launch,
        known: setting.known,
    };
    let found = Obligations::of(alloc, premises, walked, core, conditions, notes)?;
    Ok(found)
}
