//! All that is to be shown of a kernel, against a certificate's entries.

ghost use Rattle.std.specs.Prelude.{◌≡◌, List, [], Bool, None, true, IfOk, IfErr, map};
ghost use Rattle.std.specs.List.{All};
ghost use Rattle.arrivals.specs.Places as meaning;
ghost use Rattle.core_code.specs.View.{kernel as core_seen};
ghost use Rattle.launch.specs.View.{conditions as conditions_seen};
ghost use Rattle.facts.specs.Launching.{are_sizes};
ghost use Rattle.walk_trees.specs.Shown.{IsShownWithProducts};
ghost use Rattle.obligations.specs.View.{seen};
ghost use Rattle.obligations.specs.Telling.{TellsOfItems};
ghost use Rattle.places.specs.View.{place as place_seen};
ghost use Rattle.certificate_text.specs.Rules.{rises, entry_is_before};
ghost use Rattle.certificate.specs.EntryCursors.{left, stopped};
ghost use Rattle.walk.specs.Cursors.{IsWhole, conditions_of, kernel_of, notes_of};
ghost use Rattle.entry_check.specs.Entries.{AreFlags};
ghost use Rattle.entry_check.specs.View.{stated as stated_seen};
ghost use Rattle.entry_check.specs.Lacking.{PassesOf, TellsOwing, owing, with_entries};

use crate::accesses::take_all_accesses;
use crate::asked::Asked;
use crate::claims::{are_denied, take_all_claims};
use crate::ends::take_all_ends;
use crate::error::ShowError;
use crate::hand::Premises;
use crate::held::hold;
use crate::said::Said;
use crate::tally::Tally;
use certificate::Entries;
use core_code::tree::Core;
use domain::Domain;
use facts::launch_facts;
use launch::conditions::Conditions;
use places::Place;
use std::alloc::Global;
use two_thread::copy_alike;
use walk::{Paths, Terrain, terrain_of};

/// All that is to be shown on a terrain is shown by entries, and no entry is past the last of it. Nothing is said but what is noted there.
fn show_on<'a, D: Domain>(
    alloc: Global,
    terrain: &'a Terrain<'a, D>,
    said: &'a Said<'a>,
    entries: &mut Entries<'_>,
) -> Result<(), ShowError>
    requires terrain { IsWhole D.Domain terrain.now }
    requires notes { notes_of terrain.now ≡ with_entries (left entries.old).entries (seen said.now.notes.now []) }
    requires starts { stopped entries.old ≡ None }
    requires whole { (left entries.old).fault ≡ None }
    requires rises { rises entry_is_before (left entries.old).entries ≡ true }
    ensures shown { IfOk result (λ _. All IsShownWithProducts (owing D.Domain (kernel_of terrain.now) (conditions_of terrain.now) (seen said.now.notes.now []) (left entries.old).entries)) }
    ensures passed { IfOk result (λ _. PassesOf D.Domain (kernel_of terrain.now) (conditions_of terrain.now) (stated_seen said.now.names) (seen said.now.notes.now []) (left entries.old).entries) }
    ensures lacks { IfErr result (TellsOwing D.Domain (kernel_of terrain.now) (conditions_of terrain.now) (stated_seen said.now.names) (seen said.now.notes.now []) (left entries.old).entries) }
{
    let mut behind = Paths::of(terrain);
    let mut met = hold(terrain, &mut behind, Vec::new(alloc))?;
    let fit = are_denied(terrain, &met, &behind)?;
    let launch = launch_facts(alloc, terrain.conditions)?;
    let alike = copy_alike(alloc, terrain.notes)?;
    let asked = Asked {
        alloc,
        premises: Premises {
            launch: launch.as_slice(),
            known: &terrain.setting.known,
            alike: alike.as_slice(),
        },
        said,
    };
    let mut tally = Tally::of(entries, fit)?;
    take_all_claims(&mut tally, &asked, terrain, &met, &behind)?;
    take_all_ends(&mut tally, &asked, terrain, &mut met, &behind)?;
    take_all_accesses(&mut tally, &asked, terrain, &mut met, &behind)?;
    tally.end()
}

/// All that is to be shown of a kernel under conditions, with what is said of its places and loops, is shown by the entries of a
/// certificate, which are read one by one. 53, and 54 of a tree, come first (all is counted before an error is answered). Then the first
/// obligation that stops the check decides: 54 where its own forms are not of `i64`, else 52 with its number. Then comes 52 with 0 for an
/// entry past the last. The flags tell which obligations have entries, and nothing is wrong with the text of the entries: whoever calls has
/// gone over it before. As many paths of the kernel's places are held as there is room for, and of the others one at a time beside them.
pub fn show_all<D: Domain>(
    alloc: Global,
    core: &Core,
    conditions: &Conditions,
    places: &[Place<'_>],
    said: &Said<'_>,
    flags: Vec<bool>,
    entries: &mut Entries<'_>,
) -> Result<(), ShowError>
    requires sizes { are_sizes (core_seen core.now).sizes ≡ true }
    requires places { map place_seen places.now ≡ meaning.places (core_seen core.now).body }
    requires items { (flags : List Bool) → TellsOfItems (seen said.now.notes.now flags) }
    requires starts { stopped entries.old ≡ None }
    requires whole { (left entries.old).fault ≡ None }
    requires rises { rises entry_is_before (left entries.old).entries ≡ true }
    requires flags { AreFlags (left entries.old).entries flags.items }
    ensures shown { IfOk result (λ _. All IsShownWithProducts (owing D.Domain (core_seen core.now) (conditions_seen conditions.now) (seen said.now.notes.now []) (left entries.old).entries)) }
    ensures passed { IfOk result (λ _. PassesOf D.Domain (core_seen core.now) (conditions_seen conditions.now) (stated_seen said.now.names) (seen said.now.notes.now []) (left entries.old).entries) }
    ensures lacks { IfErr result (TellsOwing D.Domain (core_seen core.now) (conditions_seen conditions.now) (stated_seen said.now.names) (seen said.now.notes.now []) (left entries.old).entries) }
{
    let terrain = terrain_of::<D>(alloc, core, conditions, said.notes, places, flags)?;
    show_on(alloc, &terrain, said, entries)
}
