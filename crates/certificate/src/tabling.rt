//! The table of the forms of a certificate, in the order of first use.

ghost use Rattle.std.specs.Prelude.{◌≡◌, map, fold, IfOk, OnOk};
ghost use Rattle.std.specs.List.{flat_map};
ghost use Rattle.certificate_text.specs.Lines.{FactItem, CongruenceItem, MultipleItem, BoundItem};
ghost use Rattle.certificate_text.specs.Items as items;
ghost use Rattle.certificate_text.specs.FormTables.{with_form};
ghost use Rattle.certificate_text.specs.NumberedText as text;
ghost use Rattle.certificate.specs.View as view;
ghost use Rattle.certificate.specs.Certificates.{certificate};
ghost use Rattle.certificate.specs.Tables.{table as table_seen};
ghost use Rattle.certificate.specs.UsedForms.{with_forms};

use crate::certificate::Certificate;
use crate::form_table::FormTable;
use crate::tree::{Bound, Congruence, Entry, EntrySort, Form, Lemma, Multiple, Place};
use std::alloc::{AllocError, Global};

#[tactic(auto, using(crate::proofs::Noting::one_noted, crate::proofs::Noting::all_noted))]
fn note_facts(alloc: Global, table: &mut FormTable, forms: &[Form]) -> Result<(), AllocError>
    ensures { OnOk result (table_seen table.new ≡ with_forms (table_seen table.old) (map FactItem (map view.form forms.now))) }
{
    for form in forms {
        table.note(alloc, form)?;
    }
    Ok(())
}

#[tactic(auto, using(crate::proofs::Noting::one_noted, crate::proofs::Noting::all_noted))]
fn note_congruences(
    alloc: Global,
    table: &mut FormTable,
    congruences: &[Congruence],
) -> Result<(), AllocError>
    ensures { OnOk result (table_seen table.new ≡ with_forms (table_seen table.old) (map CongruenceItem (map view.congruence congruences.now))) }
{
    for congruence in congruences {
        table.note(alloc, &congruence.form)?;
    }
    Ok(())
}

#[tactic(auto, using(crate::proofs::Noting::two_noted, crate::proofs::Noting::all_noted))]
fn note_multiples(
    alloc: Global,
    table: &mut FormTable,
    multiples: &[Multiple],
) -> Result<(), AllocError>
    ensures { OnOk result (table_seen table.new ≡ with_forms (table_seen table.old) (map MultipleItem (map view.multiple multiples.now))) }
{
    for multiple in multiples {
        table.note(alloc, &multiple.form)?;
        table.note(alloc, &multiple.of)?;
    }
    Ok(())
}

fn note_place(alloc: Global, table: &mut FormTable, place: &Place) -> Result<(), AllocError>
    ensures { OnOk result (table_seen table.new ≡ with_forms (table_seen table.old) (items.place_items (view.place place.now))) }
{
    note_facts(alloc, table, place.facts.as_slice())?;
    note_congruences(alloc, table, place.congruences.as_slice())?;
    note_multiples(alloc, table, place.multiples.as_slice())?;
    Ok(())
}

#[tactic(auto, using(crate::proofs::Noting::block_noted, crate::proofs::Noting::blocks_noted))]
fn note_places(alloc: Global, table: &mut FormTable, places: &[Place]) -> Result<(), AllocError>
    ensures { OnOk result (table_seen table.new ≡ with_forms (table_seen table.old) (flat_map items.place_items (map view.place places.now))) }
{
    for place in places {
        note_place(alloc, table, place)?;
    }
    Ok(())
}

#[tactic(auto, using(crate::proofs::Noting::one_noted, crate::proofs::Noting::all_noted))]
fn note_bounds(alloc: Global, table: &mut FormTable, bounds: &[Bound]) -> Result<(), AllocError>
    ensures { OnOk result (table_seen table.new ≡ with_forms (table_seen table.old) (map BoundItem (map view.bound bounds.now))) }
{
    for bound in bounds {
        table.note(alloc, &bound.form)?;
    }
    Ok(())
}

fn note_sort(alloc: Global, table: &mut FormTable, sort: &EntrySort) -> Result<(), AllocError>
    ensures { OnOk result (table_seen table.new ≡ fold with_form (table_seen table.old) (items.sort_forms (view.sort sort.now))) }
{
    match sort {
        EntrySort::Show | EntrySort::Positive | EntrySort::Negative => Ok(()),
        EntrySort::Quotient(form) => table.note(alloc, form),
    }
}

fn note_lemma(alloc: Global, table: &mut FormTable, lemma: &Lemma) -> Result<(), AllocError>
    ensures { OnOk result (table_seen table.new ≡ with_forms (table_seen table.old) (items.lemma_items (view.lemma lemma.now))) }
{
    table.note(alloc, &lemma.form)?;
    Ok(())
}

#[tactic(auto, using(crate::proofs::Noting::block_noted, crate::proofs::Noting::blocks_noted))]
fn note_lemmas(alloc: Global, table: &mut FormTable, lemmas: &[Lemma]) -> Result<(), AllocError>
    ensures { OnOk result (table_seen table.new ≡ with_forms (table_seen table.old) (flat_map items.lemma_items (map view.lemma lemmas.now))) }
{
    for lemma in lemmas {
        note_lemma(alloc, table, lemma)?;
    }
    Ok(())
}

fn note_entry(alloc: Global, table: &mut FormTable, entry: &Entry) -> Result<(), AllocError>
    ensures { OnOk result (table_seen table.new ≡ with_forms (table_seen table.old) (items.entry_items (view.entry entry.now))) }
{
    note_sort(alloc, table, &entry.sort)?;
    note_lemmas(alloc, table, entry.lemmas.as_slice())?;
    Ok(())
}

#[tactic(auto, using(crate::proofs::Noting::block_noted, crate::proofs::Noting::blocks_noted))]
fn note_entries(alloc: Global, table: &mut FormTable, entries: &[Entry]) -> Result<(), AllocError>
    ensures { OnOk result (table_seen table.new ≡ with_forms (table_seen table.old) (flat_map items.entry_items (map view.entry entries.now))) }
{
    for entry in entries {
        note_entry(alloc, table, entry)?;
    }
    Ok(())
}

/// The forms of a certificate, each once, in the order of first use.
pub fn table_of(alloc: Global, of: &Certificate) -> Result<FormTable, AllocError>
    ensures { IfOk result (λ t. table_seen t ≡ text.forms_of (certificate of.now)) }
{
    let mut table = FormTable::new(alloc);
    note_places(alloc, &mut table, of.places())?;
    note_bounds(alloc, &mut table, of.bounds())?;
    note_entries(alloc, &mut table, of.entries())?;
    Ok(table)
}
