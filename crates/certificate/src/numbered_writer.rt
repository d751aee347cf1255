//! The text of version 2 of a certificate.

ghost use Rattle.std.specs.Prelude.{◌≡◌, ◌++◌, [], ◌∷◌, map, IfOk, OnOk};
ghost use Rattle.std.specs.List.{flat_map};
ghost use Rattle.std.specs.Fmt.{decimal};
ghost use Rattle.std.specs.String.{string_bytes};
ghost use Rattle.lines.specs.Lines.{text_of_lines};
ghost use Rattle.certificate_text.specs.FormTables as tables;
ghost use Rattle.certificate_text.specs.NumberedText as text;
ghost use Rattle.certificate.specs.View as view;
ghost use Rattle.certificate.specs.Certificates.{certificate};
ghost use Rattle.certificate.specs.NumberedLines as lines;
ghost use Rattle.certificate.specs.Tables.{table as table_seen};

use crate::certificate::Certificate;
use crate::form_table::FormTable;
use crate::part_writer::{push_descent, push_form, push_main, push_same, push_spot, push_steps};
use crate::tabling::table_of;
use crate::tree::{Bound, Congruence, Entry, EntrySort, Form, Lemma, Multiple, Place};
use std::alloc::{AllocError, Global};

fn push_table_line(out: &mut String, form: &Form) -> Result<(), AllocError>
    ensures { OnOk result (string_bytes out.new ≡ string_bytes out.old ++ (text.table_line (view.form form.now) ++ 10 ∷ [])) }
{
    out.push_str("form ")?;
    push_form(out, form)?;
    out.push_str("\n")
}

#[tactic(auto, using(crate::proofs::NumberedTexts::table_over))]
fn push_table(out: &mut String, table: &FormTable) -> Result<(), AllocError>
    ensures { OnOk result (string_bytes out.new ≡ string_bytes out.old ++ text_of_lines (map text.table_line (table_seen table.now))) }
{
    for index in 0..table.len() {
        let Some(form) = table.at(index) else {
            return Ok(());
        };
        push_table_line(out, form)?;
    }
    Ok(())
}

fn push_number(
    alloc: Global,
    out: &mut String,
    table: &FormTable,
    form: &Form,
) -> Result<(), AllocError>
    ensures { OnOk result (string_bytes out.new ≡ string_bytes out.old ++ decimal (tables.number_of (table_seen table.now) (view.form form.now))) }
{
    let number = table.number_of(alloc, form)?;
    write!(out, "{number}")
}

fn push_fact(
    alloc: Global,
    out: &mut String,
    table: &FormTable,
    form: &Form,
) -> Result<(), AllocError>
    ensures { OnOk result (string_bytes out.new ≡ string_bytes out.old ++ (lines.fact_line (table_seen table.now) (view.form form.now) ++ 10 ∷ [])) }
{
    out.push_str("fact ")?;
    push_number(alloc, out, table, form)?;
    out.push_str("\n")
}

#[tactic(auto, using(crate::proofs::Texts::one_line, crate::proofs::Texts::no_line))]
fn push_facts(
    alloc: Global,
    out: &mut String,
    table: &FormTable,
    forms: &[Form],
) -> Result<(), AllocError>
    ensures { OnOk result (string_bytes out.new ≡ string_bytes out.old ++ text_of_lines (map (lines.fact_line (table_seen table.now)) (map view.form forms.now))) }
{
    for form in forms {
        push_fact(alloc, out, table, form)?;
    }
    Ok(())
}

fn push_congruence(
    alloc: Global,
    out: &mut String,
    table: &FormTable,
    congruence: &Congruence,
) -> Result<(), AllocError>
    ensures { OnOk result (string_bytes out.new ≡ string_bytes out.old ++ (lines.congruence_line (table_seen table.now) (view.congruence congruence.now) ++ 10 ∷ [])) }
{
    let modulus = congruence.modulus;
    write!(out, "mod {modulus} ")?;
    push_number(alloc, out, table, &congruence.form)?;
    out.push_str("\n")
}

#[tactic(auto, using(crate::proofs::Texts::one_line, crate::proofs::Texts::no_line))]
fn push_congruences(
    alloc: Global,
    out: &mut String,
    table: &FormTable,
    congruences: &[Congruence],
) -> Result<(), AllocError>
    ensures { OnOk result (string_bytes out.new ≡ string_bytes out.old ++ text_of_lines (map (lines.congruence_line (table_seen table.now)) (map view.congruence congruences.now))) }
{
    for congruence in congruences {
        push_congruence(alloc, out, table, congruence)?;
    }
    Ok(())
}

fn push_multiple(
    alloc: Global,
    out: &mut String,
    table: &FormTable,
    multiple: &Multiple,
) -> Result<(), AllocError>
    ensures { OnOk result (string_bytes out.new ≡ string_bytes out.old ++ (lines.multiple_line (table_seen table.now) (view.multiple multiple.now) ++ 10 ∷ [])) }
{
    out.push_str("multiple ")?;
    push_number(alloc, out, table, &multiple.form)?;
    out.push_str(" of ")?;
    push_number(alloc, out, table, &multiple.of)?;
    out.push_str("\n")
}

#[tactic(auto, using(crate::proofs::Texts::one_line, crate::proofs::Texts::no_line))]
fn push_multiples(
    alloc: Global,
    out: &mut String,
    table: &FormTable,
    multiples: &[Multiple],
) -> Result<(), AllocError>
    ensures { OnOk result (string_bytes out.new ≡ string_bytes out.old ++ text_of_lines (map (lines.multiple_line (table_seen table.now)) (map view.multiple multiples.now))) }
{
    for multiple in multiples {
        push_multiple(alloc, out, table, multiple)?;
    }
    Ok(())
}

#[tactic(auto, using(crate::proofs::Texts::five))]
fn push_place(
    alloc: Global,
    out: &mut String,
    table: &FormTable,
    place: &Place,
) -> Result<(), AllocError>
    ensures { OnOk result (string_bytes out.new ≡ string_bytes out.old ++ text_of_lines (lines.place_lines (table_seen table.now) (view.place place.now))) }
{
    push_spot(out, place.spot)?;
    push_same(out, place.same.as_slice())?;
    push_facts(alloc, out, table, place.facts.as_slice())?;
    push_congruences(alloc, out, table, place.congruences.as_slice())?;
    push_multiples(alloc, out, table, place.multiples.as_slice())
}

#[tactic(auto, using(crate::proofs::Texts::one_block, crate::proofs::Texts::no_block))]
fn push_places(
    alloc: Global,
    out: &mut String,
    table: &FormTable,
    places: &[Place],
) -> Result<(), AllocError>
    ensures { OnOk result (string_bytes out.new ≡ string_bytes out.old ++ text_of_lines (flat_map (lines.place_lines (table_seen table.now)) (map view.place places.now))) }
{
    for place in places {
        push_place(alloc, out, table, place)?;
    }
    Ok(())
}

fn push_bound(
    alloc: Global,
    out: &mut String,
    table: &FormTable,
    bound: &Bound,
) -> Result<(), AllocError>
    ensures { OnOk result (string_bytes out.new ≡ string_bytes out.old ++ (lines.bound_line (table_seen table.now) (view.bound bound.now) ++ 10 ∷ [])) }
{
    let number = bound.number;
    write!(out, "loop {number} ")?;
    push_descent(out, bound.descent)?;
    let most = bound.most;
    write!(out, " {most} ")?;
    push_number(alloc, out, table, &bound.form)?;
    out.push_str("\n")
}

#[tactic(auto, using(crate::proofs::Texts::one_line, crate::proofs::Texts::no_line))]
fn push_bounds(
    alloc: Global,
    out: &mut String,
    table: &FormTable,
    bounds: &[Bound],
) -> Result<(), AllocError>
    ensures { OnOk result (string_bytes out.new ≡ string_bytes out.old ++ text_of_lines (map (lines.bound_line (table_seen table.now)) (map view.bound bounds.now))) }
{
    for bound in bounds {
        push_bound(alloc, out, table, bound)?;
    }
    Ok(())
}

fn push_sort(
    alloc: Global,
    out: &mut String,
    table: &FormTable,
    sort: &EntrySort,
) -> Result<(), AllocError>
    ensures { OnOk result (string_bytes out.new ≡ string_bytes out.old ++ lines.sort_text (table_seen table.now) (view.sort sort.now)) }
{
    match sort {
        EntrySort::Show => out.push_str("show"),
        EntrySort::Positive => out.push_str("pos"),
        EntrySort::Negative => out.push_str("neg"),
        EntrySort::Quotient(form) => {
            out.push_str("quot ")?;
            push_number(alloc, out, table, form)
        }
    }
}

fn push_lemma(
    alloc: Global,
    out: &mut String,
    table: &FormTable,
    lemma: &Lemma,
) -> Result<(), AllocError>
    ensures { OnOk result (string_bytes out.new ≡ string_bytes out.old ++ text_of_lines (lines.lemma_lines (table_seen table.now) (view.lemma lemma.now))) }
{
    out.push_str("l ")?;
    push_number(alloc, out, table, &lemma.form)?;
    out.push_str("\n")?;
    push_steps(out, lemma.steps.as_slice())
}

#[tactic(auto, using(crate::proofs::Texts::one_block, crate::proofs::Texts::no_block))]
fn push_lemmas(
    alloc: Global,
    out: &mut String,
    table: &FormTable,
    lemmas: &[Lemma],
) -> Result<(), AllocError>
    ensures { OnOk result (string_bytes out.new ≡ string_bytes out.old ++ text_of_lines (flat_map (lines.lemma_lines (table_seen table.now)) (map view.lemma lemmas.now))) }
{
    for lemma in lemmas {
        push_lemma(alloc, out, table, lemma)?;
    }
    Ok(())
}

fn push_entry_line(
    alloc: Global,
    out: &mut String,
    table: &FormTable,
    entry: &Entry,
) -> Result<(), AllocError>
    ensures { OnOk result (string_bytes out.new ≡ string_bytes out.old ++ (lines.entry_line (table_seen table.now) (view.entry entry.now) ++ 10 ∷ [])) }
{
    let obligation = entry.obligation;
    write!(out, "ob {obligation} ")?;
    push_sort(alloc, out, table, &entry.sort)?;
    out.push_str("\n")
}

#[tactic(auto, using(crate::proofs::Texts::four))]
fn push_entry(
    alloc: Global,
    out: &mut String,
    table: &FormTable,
    entry: &Entry,
) -> Result<(), AllocError>
    ensures { OnOk result (string_bytes out.new ≡ string_bytes out.old ++ text_of_lines (lines.entry_lines (table_seen table.now) (view.entry entry.now))) }
{
    push_entry_line(alloc, out, table, entry)?;
    push_lemmas(alloc, out, table, entry.lemmas.as_slice())?;
    push_main(out, entry.lemmas.as_slice())?;
    push_steps(out, entry.steps.as_slice())
}

#[tactic(auto, using(crate::proofs::Texts::one_block, crate::proofs::Texts::no_block))]
fn push_entries(
    alloc: Global,
    out: &mut String,
    table: &FormTable,
    entries: &[Entry],
) -> Result<(), AllocError>
    ensures { OnOk result (string_bytes out.new ≡ string_bytes out.old ++ text_of_lines (flat_map (lines.entry_lines (table_seen table.now)) (map view.entry entries.now))) }
{
    for entry in entries {
        push_entry(alloc, out, table, entry)?;
    }
    Ok(())
}

/// The first lines, and behind them the other lines of versions 2 and 4 of a certificate.
fn write_behind(alloc: Global, first: &str, from: &Certificate) -> Result<Vec<u8>, AllocError>
    ensures { IfOk result (λ v. v.items ≡ first.now ++ text_of_lines (text.lines_of_two (text.forms_of (certificate from.now)) (certificate from.now))) }
{
    let table = table_of(alloc, from)?;
    let mut out = String::from_str(alloc, first)?;
    push_table(&mut out, &table)?;
    push_places(alloc, &mut out, &table, from.places())?;
    push_bounds(alloc, &mut out, &table, from.bounds())?;
    push_entries(alloc, &mut out, &table, from.entries())?;
    out.push_str("end\n")?;
    Ok(out.into_bytes())
}

/// The text of version 2 of a certificate.
pub fn write(alloc: Global, from: &Certificate) -> Result<Vec<u8>, AllocError>
    ensures { IfOk result (λ v. v.items ≡ text.text_of_two (certificate from.now)) }
{
    write_behind(alloc, "certificate 2\n", from)
}

/// The text of version 4 of a certificate.
pub fn write_wide(alloc: Global, from: &Certificate) -> Result<Vec<u8>, AllocError>
    ensures { IfOk result (λ v. v.items ≡ text.text_of_four (certificate from.now)) }
{
    if from.joins() {
        return write_behind(alloc, "certificate 4\njoin\n", from);
    }
    write_behind(alloc, "certificate 4\n", from)
}
