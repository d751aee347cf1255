//! Tables of forms: each form once, numbered from 1.

ghost use Rattle.std.specs.Prelude.{◌≡◌, IfOk};
ghost use Rattle.std.specs.String.{string_bytes};
ghost use Rattle.certificate_text.specs.Text.{form_text};
ghost use Rattle.certificate.specs.View as view;
ghost use Rattle.certificate.specs.Spelt.{AreIndexed};

use crate::copies::copy_of_form;
use crate::part_writer::push_form;
use crate::tree::Form;
use std::alloc::{AllocError, Global};
use std::collections::BTreeMap;

fn spelling(alloc: Global, form: &Form) -> Result<String, AllocError>
    ensures { IfOk result (λ s. string_bytes s ≡ form_text (view.form form.now)) }
{
    let mut out = String::new(alloc);
    push_form(&mut out, form)?;
    Ok(out)
}

/// Forms in the order of their numbers, and the index of each by its spelling. The map is ordered: with a hash whose seed is fixed,
/// whoever writes a certificate could choose forms that are all looked up in one place.
#[derive(Drop)]
pub struct FormTable {
    forms: Vec<Form>,
    indices: BTreeMap<String, usize>,
    ghost indexed: { AreIndexed indices forms.items },
}

impl FormTable {
    ghost use Rattle.std.specs.Prelude.{◌≡◌, ◌^◌, ◌<◌, [], length, not, false, slice_get, IfOk, OnOk};
    ghost use Rattle.std.specs.Option.{option_map};
    ghost use Rattle.std.specs.String.{string_bytes};
    ghost use Rattle.certificate_text.specs.FormTables as tables;
    ghost use Rattle.certificate_text.specs.Text.{form_text};
    ghost use Rattle.certificate.specs.View as view;
    ghost use Rattle.certificate.specs.Tables.{table};

    /// A table without forms.
    pub fn new(alloc: Global) -> FormTable
        ensures { table result ≡ [] }
    {
        FormTable {
            forms: Vec::new(alloc),
            indices: BTreeMap::new(alloc),
        }
    }

    /// The number of forms in the table.
    pub fn len(&self) -> usize
        ensures count { result ≡ length (table self.now) }
        ensures small { result < 2 ^ 63 }
    {
        self.forms.len()
    }

    /// The form at an index, counted from 0.
    pub fn at(&self, index: usize) -> Option<&Form>
        ensures { option_map (λ f. view.form f.now) result ≡ slice_get (table self.now) index }
    {
        self.forms.get(index)
    }

    /// The form of a number.
    pub fn form_at(&self, number: u64) -> Option<&Form>
        ensures { option_map (λ f. view.form f.now) result ≡ tables.form_at (table self.now) number }
    {
        if number == 0 {
            return None;
        }
        self.at((number - 1) as usize)
    }

    /// The number of a form; of one that is not there it is past the last.
    pub fn number_of(&self, alloc: Global, form: &Form) -> Result<usize, AllocError>
        ensures { IfOk result (λ n. n ≡ tables.number_of (table self.now) (view.form form.now)) }
    {
        let count = self.forms.len();
        let spelling = spelling(alloc, form)?;
        let Some(index) = self.indices.get(spelling.as_str()) else {
            return Ok(count + 1);
        };
        Ok(*index + 1)
    }

    /// Adds a form that is not there yet, of which the spelling is known.
    fn push(&mut self, spelling: String, form: Form) -> Result<(), AllocError>
        requires spelt { string_bytes spelling ≡ form_text (view.form form) }
        requires new { tables.has_form (table self.old) (view.form form) ≡ false }
        ensures { OnOk result (table self.new ≡ tables.with_form (table self.old) (view.form form)) }
    {
        let index = self.forms.len();
        self.forms.push(form)?;
        if self.indices.insert(spelling, index).is_err() {
            self.forms.pop();
            return Err(AllocError);
        }
        Ok(())
    }

    /// Adds a form, where it is not there yet, and says whether it was not.
    pub fn add(&mut self, alloc: Global, form: Form) -> Result<bool, AllocError>
        ensures added { IfOk result (λ added. added ≡ not (tables.has_form (table self.old) (view.form form))) }
        ensures with_form { OnOk result (table self.new ≡ tables.with_form (table self.old) (view.form form)) }
    {
        let spelling = spelling(alloc, &form)?;
        if self.indices.contains_key(spelling.as_str()) {
            return Ok(false);
        }
        self.push(spelling, form)?;
        Ok(true)
    }

    /// Adds a copy of a form, where it is not there yet.
    pub fn note(&mut self, alloc: Global, form: &Form) -> Result<(), AllocError>
        ensures { OnOk result (table self.new ≡ tables.with_form (table self.old) (view.form form.now)) }
    {
        let spelling = spelling(alloc, form)?;
        if self.indices.contains_key(spelling.as_str()) {
            return Ok(());
        }
        let copy = copy_of_form(form)?;
        self.push(spelling, copy)
    }
}
