//! What becomes of the values of operands.

ghost use Rattle.std.specs.Prelude.{◌≡◌, pos, true, false, map, slice_index_or, MatchOption, MatchResult};
ghost use Rattle.linear.specs.Forms.{form as form_seen};
ghost use Rattle.words.specs.View.{kind as kind_seen};
ghost use Rattle.core_code.specs.View.{array as array_seen, direction as direction_seen, function as function_seen, operator as operator_seen, relation as relation_seen, site as site_seen, unary_operator as unary_seen};
ghost use Rattle.facts.specs.Refusals.{IsMemory};
ghost use Rattle.facts.specs.Symbols.{constant, minus};
ghost use Rattle.walk_trees.specs.Covered.{is_covered_unary};
ghost use Rattle.walk_trees.specs.Terms as terms;
ghost use Rattle.walk_trees.specs.Values as values;
ghost use Rattle.walk_trees.specs.Walks as walks;
ghost use Rattle.path_steps.specs.Halts.{Halts};
ghost use Rattle.path_steps.specs.Leads.{Leads};
ghost use Rattle.path_steps.specs.Paths.{with_spot};
ghost use Rattle.path_steps.specs.View.{followed, setting as seen, value as value_seen};
ghost use Rattle.path_walk.specs.Parts.{unary_at, brought_at, binary_at, compare_values, shift_values, within_at};

use crate::operators::{binary, unary};
use crate::sliding::shifted;
use core_code::tree::{Array, Direction, Function, Operator, Relation, Site, UnaryOperator};
use domain::Domain;
use facts::WalkError;
use linear::Form;
use path_steps::{
    Differences, Halt, Path, Setting, Value, both_brought, brought, id_form, in_length,
    joined_differences, load, pick_joined, split,
};
use std::alloc::Global;
use words::{Kind, same_kind};

/// The value of a number that is of this kind.
pub fn literal(alloc: Global, kind: Kind, number: u32) -> Value
    ensures { value_seen result ≡ values.value (kind_seen kind) (constant (pos number)) }
{
    Value {
        kind,
        form: Form::constant(alloc, number as i64),
    }
}

/// A test's outcome as a value.
pub fn truth(alloc: Global, holds: bool) -> Value
    ensures { value_seen result ≡ terms.truth_value holds }
{
    let number = if holds { 1 } else { 0 };
    literal(alloc, Kind::Int, number)
}

/// A copy of a value.
fn copied(alloc: Global, value: &Value) -> Result<Value, WalkError>
    ensures { MatchResult result (λ v. value_seen v ≡ value_seen value.now) IsMemory }
{
    let form = value.form.copy(alloc)?;
    Ok(Value {
        kind: value.kind,
        form,
    })
}

/// The value at a slot, and past the end 0.
fn value_at(alloc: Global, variables: &[Value], slot: u32) -> Result<Value, WalkError>
    ensures { MatchResult result (λ v. value_seen v ≡ slice_index_or (map value_seen variables.now) slot terms.no_value) IsMemory }
{
    match variables.get(slot as usize) {
        Some(value) => copied(alloc, value),
        None => Ok(literal(alloc, Kind::Int, 0)),
    }
}

#[tactic(auto, unfolding(path_steps::specs::View::followed))]
/// The value that a variable has on the path.
pub fn variable<D: Domain>(alloc: Global, path: &Path<D>, slot: u32) -> Result<Value, WalkError>
    ensures { MatchResult result (λ v. value_seen v ≡ terms.variable (followed path.now).state slot) IsMemory }
{
    value_at(alloc, path.variables.as_slice(), slot)
}

/// The value of what a work-item function answers in a dimension, as one of a kind.
pub fn id_value<D: Domain>(
    setting: &Setting<D>,
    kind: Kind,
    function: Function,
    dimension: u32,
) -> Result<Value, WalkError>
    ensures { MatchResult result (λ v. value_seen v ≡ values.value (kind_seen kind) (terms.id_form (seen D.Domain setting.now) (function_seen function) dimension)) IsMemory }
{
    let form = id_form(setting, function, dimension)?;
    Ok(Value { kind, form })
}

/// The walk stands at a site of its statement.
fn stand_at<D: Domain>(path: &mut Path<D>, site: Site)
    ensures { followed path.new ≡ with_spot (followed path.old) (walks.spot_at (site_seen site) (followed path.old).state) }
{
    let spot = path.spot_at(site);
    path.stand(spot);
}

/// A load of the element that an index names.
pub fn loaded<D: Domain>(
    setting: &Setting<D>,
    path: &mut Path<D>,
    array: Array,
    site: Site,
    index: Value,
) -> Result<Value, Halt>
    ensures { MatchResult result (λ v. Leads (followed path.old) (followed path.new) (terms.load (seen D.Domain setting.now) (array_seen array) (site_seen site) (value_seen index).form) (value_seen v)) (λ h. Halts (followed path.old) (followed path.new) h (terms.load (seen D.Domain setting.now) (array_seen array) (site_seen site) (value_seen index).form)) }
{
    let value = load(setting, path, array, site, index.form)?;
    Ok(value)
}

/// An operator with one operand, at its site.
pub fn unary_at<D: Domain>(
    setting: &Setting<D>,
    path: &mut Path<D>,
    operator: UnaryOperator,
    kind: Kind,
    site: Site,
    of: Value,
) -> Result<Value, Halt>
    requires { is_covered_unary (unary_seen operator) (kind_seen kind) ≡ true }
    ensures { MatchResult result (λ v. Leads (followed path.old) (followed path.new) (unary_at (seen D.Domain setting.now) (unary_seen operator) (kind_seen kind) (site_seen site) (value_seen of)) (value_seen v)) (λ h. Halts (followed path.old) (followed path.new) h (unary_at (seen D.Domain setting.now) (unary_seen operator) (kind_seen kind) (site_seen site) (value_seen of))) }
{
    stand_at(path, site);
    let value = unary(setting, path, operator, kind, &of)?;
    Ok(value)
}

/// A value that is converted to a kind, at the site of the conversion.
pub fn brought_at<D: Domain>(
    setting: &Setting<D>,
    path: &mut Path<D>,
    kind: Kind,
    site: Site,
    of: Value,
) -> Result<Value, Halt>
    ensures { MatchResult result (λ v. Leads (followed path.old) (followed path.new) (brought_at (seen D.Domain setting.now) (kind_seen kind) (site_seen site) (value_seen of)) (value_seen v)) (λ h. Halts (followed path.old) (followed path.new) h (brought_at (seen D.Domain setting.now) (kind_seen kind) (site_seen site) (value_seen of))) }
{
    stand_at(path, site);
    let value = brought(setting, path, kind, of)?;
    Ok(value)
}

/// An operator with two operands, of a kind, at its site.
#[derive(Clone, Copy)]
pub struct Operation {
    pub operator: Operator,
    pub kind: Kind,
    pub site: Site,
}

/// An operator with two operands, at its site, which first brings both to its kind.
pub fn binary_at<D: Domain>(
    setting: &Setting<D>,
    path: &mut Path<D>,
    operation: Operation,
    left: Value,
    right: Value,
) -> Result<Value, Halt>
    ensures { MatchResult result (λ v. Leads (followed path.old) (followed path.new) (binary_at (seen D.Domain setting.now) (operator_seen operation.operator) (kind_seen operation.kind) (site_seen operation.site) (value_seen left) (value_seen right)) (value_seen v)) (λ h. Halts (followed path.old) (followed path.new) h (binary_at (seen D.Domain setting.now) (operator_seen operation.operator) (kind_seen operation.kind) (site_seen operation.site) (value_seen left) (value_seen right))) }
{
    stand_at(path, operation.site);
    let (first, second) = both_brought(setting, path, operation.kind, left, right)?;
    let value = binary(
        setting,
        path,
        operation.operator,
        operation.kind,
        &first.form,
        &second.form,
    )?;
    Ok(value)
}

/// A comparison, which first brings both operands to its kind.
pub fn compare_values<D: Domain>(
    setting: &Setting<D>,
    path: &mut Path<D>,
    relation: Relation,
    kind: Kind,
    left: Value,
    right: Value,
) -> Result<bool, Halt>
    ensures { MatchResult result (λ b. Leads (followed path.old) (followed path.new) (compare_values (seen D.Domain setting.now) (relation_seen relation) (kind_seen kind) (value_seen left) (value_seen right)) b) (λ h. Halts (followed path.old) (followed path.new) h (compare_values (seen D.Domain setting.now) (relation_seen relation) (kind_seen kind) (value_seen left) (value_seen right))) }
{
    let (first, second) = both_brought(setting, path, kind, left, right)?;
    split(setting, path, false, relation, &first.form, &second.form)
}

/// A shift by a term, which first brings the left operand to its kind.
pub fn shift_values<D: Domain>(
    setting: &Setting<D>,
    path: &mut Path<D>,
    direction: Direction,
    kind: Kind,
    left: Value,
    count: Value,
) -> Result<Value, Halt>
    ensures { MatchResult result (λ v. Leads (followed path.old) (followed path.new) (shift_values (seen D.Domain setting.now) (direction_seen direction) (kind_seen kind) (value_seen left) (value_seen count)) (value_seen v)) (λ h. Halts (followed path.old) (followed path.new) h (shift_values (seen D.Domain setting.now) (direction_seen direction) (kind_seen kind) (value_seen left) (value_seen count))) }
{
    let left = brought(setting, path, kind, left)?;
    let value = shifted(setting, path, direction, kind, &left.form, &count.form)?;
    Ok(value)
}

/// An index that has to be below a number, at its site.
pub fn within_at<D: Domain>(
    setting: &Setting<D>,
    path: &mut Path<D>,
    site: Site,
    length: u32,
    index: Value,
) -> Result<Value, Halt>
    ensures { MatchResult result (λ v. Leads (followed path.old) (followed path.new) (within_at (seen D.Domain setting.now) (site_seen site) length (value_seen index)) (value_seen v)) (λ h. Halts (followed path.old) (followed path.new) h (within_at (seen D.Domain setting.now) (site_seen site) length (value_seen index))) }
{
    stand_at(path, site);
    in_length(setting, path, length, &index.form)?;
    Ok(index)
}

/// The differences of two values, if the ways on which one is less and on which it is not are joined.
fn picked_differences<D: Domain>(
    setting: &Setting<D>,
    path: &Path<D>,
    left: &Value,
    right: &Value,
) -> Result<Option<Differences>, WalkError>
    ensures { MatchResult result (λ r. MatchOption r (terms.is_joined_pick (seen D.Domain setting.now) (value_seen left.now) (value_seen right.now) (followed path.now).state ≡ false) (λ d. (terms.is_joined_pick (seen D.Domain setting.now) (value_seen left.now) (value_seen right.now) (followed path.now).state ≡ true) × (form_seen d.more ≡ minus (value_seen right.now).form (value_seen left.now).form) × (form_seen d.less ≡ minus (value_seen left.now).form (value_seen right.now).form))) IsMemory }
{
    if !same_kind(left.kind, right.kind) {
        return Ok(None);
    }
    joined_differences(setting, path, false, &right.form, &left.form)
}

/// The smaller of two values (OpenCL 1.2, 6.12.3): the right one where it is less, else the left one. Where ways are joined, one value.
pub fn smaller<D: Domain>(
    setting: &Setting<D>,
    path: &mut Path<D>,
    left: Value,
    right: Value,
) -> Result<Value, Halt>
    ensures { MatchResult result (λ v. Leads (followed path.old) (followed path.new) (terms.pick (seen D.Domain setting.now) false (value_seen right) (value_seen left) (value_seen right) (value_seen left)) (value_seen v)) (λ h. Halts (followed path.old) (followed path.new) h (terms.pick (seen D.Domain setting.now) false (value_seen right) (value_seen left) (value_seen right) (value_seen left))) }
{
    if let Some(apart) = picked_differences(setting, path, &right, &left)? {
        let value = pick_joined(setting, path, false, &right, &left, &apart)?;
        return Ok(value);
    }
    smaller_split(setting, path, left, right)
}

/// The smaller of two values, each on a way of its own.
fn smaller_split<D: Domain>(
    setting: &Setting<D>,
    path: &mut Path<D>,
    left: Value,
    right: Value,
) -> Result<Value, Halt>
    ensures { MatchResult result (λ v. Leads (followed path.old) (followed path.new) (terms.pick_split (seen D.Domain setting.now) (value_seen right) (value_seen left) (value_seen right) (value_seen left)) (value_seen v)) (λ h. Halts (followed path.old) (followed path.new) h (terms.pick_split (seen D.Domain setting.now) (value_seen right) (value_seen left) (value_seen right) (value_seen left))) }
{
    let is_wide = setting.is_wide;
    let is_less = split(
        setting,
        path,
        is_wide,
        Relation::Less,
        &right.form,
        &left.form,
    )?;
    if is_less { Ok(right) } else { Ok(left) }
}

/// The larger of two values (OpenCL 1.2, 6.12.3): the right one where the left one is less, else the left one. Where ways are joined, one
/// value.
pub fn larger<D: Domain>(
    setting: &Setting<D>,
    path: &mut Path<D>,
    left: Value,
    right: Value,
) -> Result<Value, Halt>
    ensures { MatchResult result (λ v. Leads (followed path.old) (followed path.new) (terms.pick (seen D.Domain setting.now) true (value_seen left) (value_seen right) (value_seen right) (value_seen left)) (value_seen v)) (λ h. Halts (followed path.old) (followed path.new) h (terms.pick (seen D.Domain setting.now) true (value_seen left) (value_seen right) (value_seen right) (value_seen left))) }
{
    if let Some(apart) = picked_differences(setting, path, &left, &right)? {
        let value = pick_joined(setting, path, true, &left, &right, &apart)?;
        return Ok(value);
    }
    larger_split(setting, path, left, right)
}

/// The larger of two values, each on a way of its own.
fn larger_split<D: Domain>(
    setting: &Setting<D>,
    path: &mut Path<D>,
    left: Value,
    right: Value,
) -> Result<Value, Halt>
    ensures { MatchResult result (λ v. Leads (followed path.old) (followed path.new) (terms.pick_split (seen D.Domain setting.now) (value_seen left) (value_seen right) (value_seen right) (value_seen left)) (value_seen v)) (λ h. Halts (followed path.old) (followed path.new) h (terms.pick_split (seen D.Domain setting.now) (value_seen left) (value_seen right) (value_seen right) (value_seen left))) }
{
    let is_wide = setting.is_wide;
    let is_less = split(
        setting,
        path,
        is_wide,
        Relation::Less,
        &left.form,
        &right.form,
    )?;
    if is_less { Ok(right) } else { Ok(left) }
}
