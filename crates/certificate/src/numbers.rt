//! Lines with the numbers of forms, filled with the forms.

ghost use Rattle.std.specs.Prelude.{◌≡◌};
ghost use Rattle.std.specs.Option.{option_map};
ghost use Rattle.certificate_text.specs.NumberedReading as reading;
ghost use Rattle.certificate.specs.View as view;
ghost use Rattle.certificate.specs.Items as items;
ghost use Rattle.certificate.specs.Tables.{table as table_seen};
ghost use Rattle.certificate.specs.Numbers.{used_form, used_sort, sort_by, used_item};
ghost use Rattle.certificate.specs.WordAnswers.{Means};

use crate::copies::copy_of_form;
use crate::form_table::FormTable;
use crate::item::Item;
use crate::line_error::LineError;
use crate::tree::{Bound, Congruence, EntrySort, Form, Multiple};
use std::alloc::Global;

/// The number that stands for a form, written as a form without terms.
fn number_in(form: &Form) -> Option<u64>
    ensures { result ≡ reading.number_in (view.form form.now) }
{
    if !form.terms.as_slice().is_empty() || form.constant < 0 {
        return None;
    }
    Some(form.constant as u64)
}

/// The form of a number, which is at most one above the largest that was used.
fn allowed_form(table: &FormTable, used: u64, number: u64) -> Option<&Form>
    ensures { option_map (λ f. view.form f.now) result ≡ reading.allowed_form (table_seen table.now) used number }
{
    if number.saturating_sub(1) > used {
        return None;
    }
    table.form_at(number)
}

/// The form of the number that stands for it, and the largest number that is used then.
fn form_of(
    alloc: Global,
    table: &FormTable,
    used: u64,
    number: &Form,
) -> Result<(u64, Form), LineError>
    ensures { Means used_form result (reading.form_by (table_seen table.now) used (view.form number.now)) }
{
    let Some(number) = number_in(number) else {
        return Err(LineError::Bad);
    };
    let Some(form) = allowed_form(table, used, number) else {
        return Err(LineError::Bad);
    };
    Ok((used.max(number), copy_of_form(form)?))
}

fn filled_sort(
    alloc: Global,
    table: &FormTable,
    used: u64,
    sort: EntrySort,
) -> Result<(u64, EntrySort), LineError>
    ensures { Means used_sort result (sort_by (table_seen table.now) used (view.sort sort)) }
{
    match sort {
        EntrySort::Quotient(number) => {
            let (used, form) = form_of(alloc, table, used, &number)?;
            Ok((used, EntrySort::Quotient(form)))
        }
        sort => Ok((used, sort)),
    }
}

/// A line with the forms of its numbers in place of the numbers, and the largest number that is used then; an error where one is none of
/// the table, or over one above the largest that was used.
pub fn filled(
    alloc: Global,
    table: &FormTable,
    used: u64,
    item: Item,
) -> Result<(u64, Item), LineError>
    ensures { Means used_item result (reading.filled (table_seen table.now) used (items.item item)) }
{
    match item {
        Item::Fact(number) => {
            let (used, form) = form_of(alloc, table, used, &number)?;
            Ok((used, Item::Fact(form)))
        }
        Item::Congruence(congruence) => {
            let (used, form) = form_of(alloc, table, used, &congruence.form)?;
            let modulus = congruence.modulus;
            Ok((used, Item::Congruence(Congruence { modulus, form })))
        }
        Item::Multiple(multiple) => {
            let (used, form) = form_of(alloc, table, used, &multiple.form)?;
            let (used, of) = form_of(alloc, table, used, &multiple.of)?;
            Ok((used, Item::Multiple(Multiple { of, form })))
        }
        Item::Lemma(number) => {
            let (used, form) = form_of(alloc, table, used, &number)?;
            Ok((used, Item::Lemma(form)))
        }
        Item::Bound(bound) => {
            let (used, form) = form_of(alloc, table, used, &bound.form)?;
            Ok((used, Item::Bound(Bound { form, ..bound })))
        }
        Item::Entry(obligation, sort) => {
            let (used, sort) = filled_sort(alloc, table, used, sort)?;
            Ok((used, Item::Entry(obligation, sort)))
        }
        item => Ok((used, item)),
    }
}
