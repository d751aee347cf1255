//! What a certificate says, against what is to be shown.

ghost use Rattle.std.specs.Prelude.{◌≡◌, nat_lt, true, map, List, [], Bool, None, IfOk, IfErr};
ghost use Rattle.arrivals.specs.Places as meant;
ghost use Rattle.certificate_text.specs.Rules.{rises, entry_is_before};
ghost use Rattle.certificate.specs.EntryCursors.{left, stopped};
ghost use Rattle.certificate_notes.specs.Noted.{stated};
ghost use Rattle.core_code.specs.View.{kernel as core_seen};
ghost use Rattle.facts.specs.Launching.{are_sizes};
ghost use Rattle.launch.specs.View.{conditions as conditions_seen};
ghost use Rattle.obligations.specs.View.{seen};
ghost use Rattle.obligations.specs.Telling.{TellsOfItems};
ghost use Rattle.places.specs.View.{place as place_seen};
ghost use Rattle.plain_kernels.specs.Domains.{domain};
ghost use Rattle.kernel_names.specs.View.{names_seen};
ghost use Rattle.entry_check.specs.Entries.{AreFlags};
ghost use Rattle.entry_check.specs.View.{stated as stated_seen};
ghost use Rattle.entry_check.specs.Lacking.{PassesOf, TellsOf, steps_of};
ghost use Rattle.cert_check.specs.Checked.{AllIsShown};

use certificate::Entries;
use certificate_notes::{NamesError, names_of};
use core_code::tree::Core;
use domain::Elements;
use entry_check::{Said, ShowError, show_all};
use launch::conditions::Conditions;
use loop_bounds::cost;
use obligations::Notes;
use places::Place;
use shown_kernels::laws::noted_rankings_are_limits;
use std::alloc::Global;
use typed_kernels::Typed;

/// An item may take more steps than the budget.
fn is_over(core: &Core, notes: &Notes, budget: u64) -> bool
    ensures { (entries : List Bool) → result ≡ nat_lt budget (steps_of (core_seen core.now) (seen notes.now entries)) }
{
    noted_rankings_are_limits(notes);
    match cost(core, notes.rankings.as_slice()) {
        Ok(steps) => steps > budget,
        Err(_) => true,
    }
}

/// Shows all that is to be shown of a kernel, with what is said of it, within the budget; an error tells what is not shown.
fn show_noted(
    alloc: Global,
    core: &Core,
    conditions: &Conditions,
    places: &[Place<'_>],
    said: &Said<'_>,
    flags: Vec<bool>,
    entries: &mut Entries<'_>,
) -> Result<(), ShowError>
    requires sizes { are_sizes (core_seen core.now).sizes ≡ true }
    requires places { map place_seen places.now ≡ meant.places (core_seen core.now).body }
    requires items { (flags : List Bool) → TellsOfItems (seen said.now.notes.now flags) }
    requires starts { stopped entries.old ≡ None }
    requires whole { (left entries.old).fault ≡ None }
    requires rises { rises entry_is_before (left entries.old).entries ≡ true }
    requires flags { AreFlags (left entries.old).entries flags.items }
    ensures passed { IfOk result (λ _. PassesOf domain (core_seen core.now) (conditions_seen conditions.now) (stated_seen said.now.names) (seen said.now.notes.now []) (left entries.old).entries) }
    ensures shown { IfOk result (λ _. AllIsShown (core_seen core.now) (conditions_seen conditions.now)) }
    ensures lacks { IfErr result (TellsOf domain (core_seen core.now) (conditions_seen conditions.now) (stated_seen said.now.names) (seen said.now.notes.now []) (left entries.old).entries) }
{
    noted_rankings_are_limits(said.notes);
    show_all::<Elements>(alloc, core, conditions, places, said, flags, entries)?;
    if is_over(core, said.notes, conditions.budget) {
        return Err(ShowError::OverBudget);
    }
    Ok(())
}

/// Shows all that is to be shown of a kernel, with notes of its places and loops and the entries of a certificate as they are read. An
/// error tells what is not shown.
pub(crate) fn show<'n>(
    alloc: Global,
    typed: &'n Typed,
    conditions: &Conditions,
    places: &[Place<'_>],
    notes: &'n Notes,
    flags: Vec<bool>,
    entries: &mut Entries<'_>,
) -> Result<(), ShowError>
    requires sizes { are_sizes (core_seen typed.now.1).sizes ≡ true }
    requires places { map place_seen places.now ≡ meant.places (core_seen typed.now.1).body }
    requires items { (flags : List Bool) → TellsOfItems (seen notes.now flags) }
    requires starts { stopped entries.old ≡ None }
    requires whole { (left entries.old).fault ≡ None }
    requires rises { rises entry_is_before (left entries.old).entries ≡ true }
    requires flags { AreFlags (left entries.old).entries flags.items }
    ensures passed { IfOk result (λ _. PassesOf domain (core_seen typed.now.1) (conditions_seen conditions.now) (stated (core_seen typed.now.1) (names_seen typed.now.0)) (seen notes.now []) (left entries.old).entries) }
    ensures shown { IfOk result (λ _. AllIsShown (core_seen typed.now.1) (conditions_seen conditions.now)) }
    ensures lacks { IfErr result (TellsOf domain (core_seen typed.now.1) (conditions_seen conditions.now) (stated (core_seen typed.now.1) (names_seen typed.now.0)) (seen notes.now []) (left entries.old).entries) }
{
    let names = match names_of(alloc, typed) {
        Ok(names) => names,
        Err(NamesError::Memory) => return Err(ShowError::Memory),
    };
    let said = Said { notes, names };
    show_noted(
        alloc,
        typed.core(),
        conditions,
        places,
        &said,
        flags,
        entries,
    )
}
