//! Accesses to arrays.

ghost use Rattle.std.specs.Prelude.{◌≡◌, pos, MatchResult, slice_index_or};
ghost use Rattle.linear.specs.Forms.{form as form_seen};
ghost use Rattle.words.specs.View.{kind as kind_seen};
ghost use Rattle.semantics.specs.Core as semantics;
ghost use Rattle.semantics.specs.Memory.{no_array};
ghost use Rattle.core_code.specs.View.{array as array_seen, site as site_seen, local_array as local_array_seen};
ghost use Rattle.facts.specs.Refusals.{IsMemory};
ghost use Rattle.facts.specs.Symbols.{constant, minus};
ghost use Rattle.walk_trees.specs.Terms as terms;
ghost use Rattle.path_steps.specs.Leads.{Steps, Leads};
ghost use Rattle.path_steps.specs.Refusals.{StopsAtStep, Stops};
ghost use Rattle.path_steps.specs.View.{followed, setting as seen, value as value_seen};

use crate::contents::{keep_contents, know_contents};
use crate::path::{Path, Sort, Target, Value};
use crate::ranges::{claim_form, unknown};
use crate::setting::Setting;
use core_code::tree::{Array, LocalArray, Site, Space};
use domain::Domain;
use facts::{WalkError, less_number, once_length};
use linear::Form;
use std::alloc::Global;
use words::Kind;

/// A local array by its number, and past the end one without elements.
fn local_array<D: Domain>(setting: &Setting<D>, number: u32) -> LocalArray
    ensures { local_array_seen result ≡ slice_index_or (seen D.Domain setting.now).arrays number no_array }
{
    match setting.arrays.get(number as usize) {
        Some(array) => *array,
        None => LocalArray {
            kind: Kind::Int,
            length: 0,
        },
    }
}

/// The last index where there are so many elements.
fn last_number(alloc: Global, length: u32) -> Form
    ensures { form_seen result ≡ minus (constant (pos length)) (constant (pos 1)) }
{
    Form::constant(alloc, length as i64 - 1)
}

/// The last index of an array: one less than a buffer's length, which is a symbol, or than that of a local array, which is a number.
fn last_form<D: Domain>(setting: &Setting<D>, array: Array) -> Result<Form, WalkError>
    ensures { MatchResult result (λ f. form_seen f ≡ minus (terms.length_form (seen D.Domain setting.now) (array_seen array)) (constant (pos 1))) IsMemory }
{
    match array.space {
        Space::Global => {
            let length = once_length(setting.alloc, array.number as usize)?;
            less_number(setting.alloc, &length, 1)
        }
        Space::Local => {
            let length = local_array(setting, array.number).length;
            Ok(last_number(setting.alloc, length))
        }
    }
}

/// An index is at least 0, and at most a last one.
fn up_to_last<D: Domain>(
    setting: &Setting<D>,
    path: &mut Path<D>,
    last: &Form,
    index: &Form,
) -> Result<(), WalkError>
    ensures { MatchResult result (λ _. Steps (followed path.old) (followed path.new) (terms.up_to_last (seen D.Domain setting.now) (form_seen last.now) (form_seen index.now))) (λ e. StopsAtStep (followed path.old) e (terms.up_to_last (seen D.Domain setting.now) (form_seen last.now) (form_seen index.now))) }
{
    let room = last.sub(setting.alloc, index)?;
    let from_zero = index.copy(setting.alloc)?;
    claim_form(setting, path, Sort::OfIndex, true, from_zero)?;
    claim_form(setting, path, Sort::OfIndex, true, room)?;
    Ok(())
}

/// An index is at least 0, and below a number.
pub fn in_length<D: Domain>(
    setting: &Setting<D>,
    path: &mut Path<D>,
    length: u32,
    index: &Form,
) -> Result<(), WalkError>
    ensures { MatchResult result (λ _. Steps (followed path.old) (followed path.new) (terms.in_length (seen D.Domain setting.now) (constant (pos length)) (form_seen index.now))) (λ e. StopsAtStep (followed path.old) e (terms.in_length (seen D.Domain setting.now) (constant (pos length)) (form_seen index.now))) }
{
    let last = last_number(setting.alloc, length);
    up_to_last(setting, path, &last, index)
}

/// An index is at least 0, and below its array's length.
fn in_array<D: Domain>(
    setting: &Setting<D>,
    path: &mut Path<D>,
    array: Array,
    index: &Form,
) -> Result<(), WalkError>
    ensures { MatchResult result (λ _. Steps (followed path.old) (followed path.new) (terms.in_array (seen D.Domain setting.now) (array_seen array) (form_seen index.now))) (λ e. StopsAtStep (followed path.old) e (terms.in_array (seen D.Domain setting.now) (array_seen array) (form_seen index.now))) }
{
    let last = last_form(setting, array)?;
    up_to_last(setting, path, &last, index)
}

/// Notes an access at the site where its array is named, behind the claims that its index is in the array.
pub fn access<D: Domain>(
    setting: &Setting<D>,
    path: &mut Path<D>,
    is_store: bool,
    array: Array,
    site: Site,
    index: Form,
) -> Result<(), WalkError>
    ensures { MatchResult result (λ _. Steps (followed path.old) (followed path.new) (terms.access (seen D.Domain setting.now) is_store (array_seen array) (site_seen site) (form_seen index))) (λ e. StopsAtStep (followed path.old) e (terms.access (seen D.Domain setting.now) is_store (array_seen array) (site_seen site) (form_seen index))) }
{
    let place = path.spot_at(site);
    path.stand(place);
    in_array(setting, path, array, &index)?;
    let spot = path.spot_at(site);
    let target = Target {
        is_store,
        array,
        spot,
    };
    path.touch(target, index)?;
    Ok(())
}

/// The kind of a buffer's elements.
fn buffer_kind<D: Domain>(setting: &Setting<D>, number: u32) -> Kind
    ensures { kind_seen result ≡ terms.kind_in (seen D.Domain setting.now) semantics.Global number }
{
    match setting.buffers.get(number as usize) {
        Some(kind) => *kind,
        None => Kind::Int,
    }
}

/// The kind of an array's elements.
fn array_kind<D: Domain>(setting: &Setting<D>, array: Array) -> Kind
    ensures { kind_seen result ≡ terms.array_kind (seen D.Domain setting.now) (array_seen array) }
{
    match array.space {
        Space::Global => buffer_kind(setting, array.number),
        Space::Local => local_array(setting, array.number).kind,
    }
}

/// Any number of an array's kind that the array may hold.
fn element<D: Domain>(
    setting: &Setting<D>,
    path: &mut Path<D>,
    array: Array,
) -> Result<Value, WalkError>
    ensures { MatchResult result (λ v. Leads (followed path.old) (followed path.new) (terms.element (seen D.Domain setting.now) (array_seen array)) (value_seen v)) (λ e. Stops (followed path.old) e (terms.element (seen D.Domain setting.now) (array_seen array))) }
{
    let value = unknown(setting, path, array_kind(setting, array))?;
    know_contents(setting, path, array, &value.form)?;
    Ok(value)
}

/// A load: the access, then any number that the array may hold.
pub fn load<D: Domain>(
    setting: &Setting<D>,
    path: &mut Path<D>,
    array: Array,
    site: Site,
    index: Form,
) -> Result<Value, WalkError>
    ensures { MatchResult result (λ v. Leads (followed path.old) (followed path.new) (terms.load (seen D.Domain setting.now) (array_seen array) (site_seen site) (form_seen index)) (value_seen v)) (λ e. Stops (followed path.old) e (terms.load (seen D.Domain setting.now) (array_seen array) (site_seen site) (form_seen index))) }
{
    access(setting, path, false, array, site, index)?;
    element(setting, path, array)
}

/// A store of a value: it keeps what the array holds, then comes the access.
pub fn stored<D: Domain>(
    setting: &Setting<D>,
    path: &mut Path<D>,
    array: Array,
    site: Site,
    index: Value,
    value: Value,
) -> Result<(), WalkError>
    ensures { MatchResult result (λ _. Steps (followed path.old) (followed path.new) (terms.stored (seen D.Domain setting.now) (array_seen array) (site_seen site) (value_seen index) (value_seen value))) (λ e. StopsAtStep (followed path.old) e (terms.stored (seen D.Domain setting.now) (array_seen array) (site_seen site) (value_seen index) (value_seen value))) }
{
    let kind = array_kind(setting, array);
    keep_contents(setting, path, array, kind, site, value)?;
    access(setting, path, true, array, site, index.form)
}
