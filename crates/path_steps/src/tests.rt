//! Tests: each way begins with the facts of its outcome.

ghost use Rattle.std.specs.Prelude.{◌≡◌, ◌&&◌, true, false, pos, negsuc, int_lt, MatchResult};
ghost use Rattle.linear.specs.Exact.{fits_i64, multiple};
ghost use Rattle.linear.specs.Forms.{form as form_seen};
ghost use Rattle.semantics.specs.Word.{Equal, Unequal};
ghost use Rattle.core_code.specs.View.{relation as relation_seen};
ghost use Rattle.facts.specs.Symbols.{Fact, constant, minus};
ghost use Rattle.facts.specs.Refusals.{IsMemory, IsUnfit};
ghost use Rattle.walk_trees.specs.Walks as walks;
ghost use Rattle.walk_trees.specs.Tests as tests;
ghost use Rattle.path_steps.specs.Leads.{Steps, Leads};
ghost use Rattle.path_steps.specs.Paths.{choosing_unless};
ghost use Rattle.path_steps.specs.Halts.{HaltsAtStep, Halts};
ghost use Rattle.path_steps.specs.Sides.{side, split_sides, one_below, one_way, apart, choosing_side, choosing_equal, AreLeftOut};
ghost use Rattle.path_steps.specs.View.{followed, setting as seen};

use crate::bounds::is_refuted;
use crate::halt::Halt;
use crate::joins::{joined_differences, joined_negation, tell_apart};
use crate::narrowing::narrow;
use crate::path::Path;
use crate::setting::Setting;
use core_code::tree::Relation;
use domain::Domain;
use facts::{WalkError, less_number, number_less};
use linear::Form;
use std::alloc::Global;

/// The form has no terms, so that it is a number.
pub fn is_number(form: &Form) -> bool
    ensures { result ≡ walks.is_number (form_seen form.now) }
{
    form.terms().is_empty()
}

/// A number of 64 bits is below 0.
fn is_negative(number: i64) -> bool
    ensures { result ≡ (fits_i64 number && int_lt number (pos 0)) }
{
    number < 0
}

/// No item goes on where the form would have to be at least 0.
fn is_dead(form: &Form) -> bool
    ensures { result ≡ walks.is_dead (form_seen form.now) }
{
    is_number(form) && is_negative(form.constant_part())
}

/// No item goes on: the form would have to be at least 0, and it is a negative number or, where elements are asked, they refute it.
fn is_left_out<D: Domain>(
    setting: &Setting<D>,
    path: &Path<D>,
    by_elements: bool,
    form: &Form,
) -> bool
    ensures { result ≡ walks.is_left_out (seen D.Domain setting.now) by_elements (form_seen form.now) (followed path.now).state }
{
    (by_elements && is_refuted(setting, path, form)) || is_dead(form)
}

/// A fact of a test, which narrows. Where elements are asked no item goes on if they refute it.
fn know_test<D: Domain>(
    setting: &Setting<D>,
    path: &mut Path<D>,
    by_elements: bool,
    fact: Form,
) -> Result<(), Halt>
    ensures { MatchResult result (λ _. Steps (followed path.old) (followed path.new) (walks.know_test (seen D.Domain setting.now) by_elements (form_seen fact))) (λ h. HaltsAtStep (followed path.old) (followed path.new) h (walks.know_test (seen D.Domain setting.now) by_elements (form_seen fact))) }
{
    if is_left_out(setting, path, by_elements, &fact) {
        return Err(Halt::Dead);
    }
    narrow(setting, path, &fact)?;
    path.know(fact)?;
    Ok(())
}

/// One form less another.
pub fn difference(alloc: Global, left: &Form, right: &Form) -> Result<Form, WalkError>
    ensures { MatchResult result (λ f. form_seen f ≡ minus (form_seen left.now) (form_seen right.now)) (λ e. IsUnfit e (minus (form_seen left.now) (form_seen right.now))) }
{
    let form = left.sub(alloc, right)?;
    Ok(form)
}

/// A form is below another: the difference less 1, in the order in which no number on the way leaves 64 bits.
fn below(alloc: Global, left: &Form, right: &Form) -> Result<Form, WalkError>
    ensures { MatchResult result (λ f. form_seen f ≡ tests.below (form_seen left.now) (form_seen right.now)) (λ e. IsUnfit e (tests.below (form_seen left.now) (form_seen right.now))) }
{
    if is_negative(right.constant_part()) {
        let form = difference(alloc, right, left)?;
        return less_number(alloc, &form, 1);
    }
    let most = less_number(alloc, right, 1)?;
    difference(alloc, &most, left)
}

/// The fact that begins a way of a comparison; of `==` and `!=`, the two ways on which the values differ.
fn side_fact(
    alloc: Global,
    relation: Relation,
    first: bool,
    left: &Form,
    right: &Form,
) -> Result<Form, WalkError>
    ensures { MatchResult result (λ f. form_seen f ≡ side (relation_seen relation) first (form_seen left.now) (form_seen right.now)) (λ e. IsUnfit e (side (relation_seen relation) first (form_seen left.now) (form_seen right.now))) }
{
    match (relation, first) {
        (Relation::Less, true) | (Relation::AtLeast, false) => below(alloc, left, right),
        (Relation::AtMost, false) | (Relation::More, true) => below(alloc, right, left),
        (Relation::Less, false) | (Relation::AtLeast, true) => difference(alloc, left, right),
        (Relation::AtMost, true) | (Relation::More, false) => difference(alloc, right, left),
        (Relation::Equal | Relation::Unequal, true) => below(alloc, left, right),
        (Relation::Equal | Relation::Unequal, false) => below(alloc, right, left),
    }
}

/// A way of a comparison, and whether elements are asked.
#[derive(Clone, Copy)]
struct Way {
    relation: Relation,
    first: bool,
    by_elements: bool,
}

/// The fact of a way of a comparison.
fn know_side<D: Domain>(
    setting: &Setting<D>,
    path: &mut Path<D>,
    way: Way,
    left: &Form,
    right: &Form,
) -> Result<(), Halt>
    ensures { MatchResult result (λ _. Steps (followed path.old) (followed path.new) (walks.know_test (seen D.Domain setting.now) way.by_elements (side (relation_seen way.relation) way.first (form_seen left.now) (form_seen right.now)))) (λ h. HaltsAtStep (followed path.old) (followed path.new) h (walks.know_test (seen D.Domain setting.now) way.by_elements (side (relation_seen way.relation) way.first (form_seen left.now) (form_seen right.now)))) }
{
    let fact = side_fact(setting.alloc, way.relation, way.first, left, right)?;
    know_test(setting, path, way.by_elements, fact)
}

/// The fact of a way of `==` or `!=`, or, by its relation, of another comparison, where the wide walk asks the elements.
fn know_apart<D: Domain>(
    setting: &Setting<D>,
    path: &mut Path<D>,
    relation: Relation,
    first: bool,
    left: &Form,
    right: &Form,
) -> Result<(), Halt>
    ensures { MatchResult result (λ _. Steps (followed path.old) (followed path.new) (walks.know_test (seen D.Domain setting.now) setting.now.is_wide (side (relation_seen relation) first (form_seen left.now) (form_seen right.now)))) (λ h. HaltsAtStep (followed path.old) (followed path.new) h (walks.know_test (seen D.Domain setting.now) setting.now.is_wide (side (relation_seen relation) first (form_seen left.now) (form_seen right.now)))) }
{
    let way = Way {
        relation,
        first,
        by_elements: setting.is_wide,
    };
    know_side(setting, path, way, left, right)
}

/// Two facts of a test: the forms are equal.
fn know_equal<D: Domain>(
    setting: &Setting<D>,
    path: &mut Path<D>,
    left: &Form,
    right: &Form,
) -> Result<(), Halt>
    ensures { MatchResult result (λ _. Steps (followed path.old) (followed path.new) (walks.know_two (seen D.Domain setting.now) setting.now.is_wide (minus (form_seen left.now) (form_seen right.now)) (minus (form_seen right.now) (form_seen left.now)))) (λ h. HaltsAtStep (followed path.old) (followed path.new) h (walks.know_two (seen D.Domain setting.now) setting.now.is_wide (minus (form_seen left.now) (form_seen right.now)) (minus (form_seen right.now) (form_seen left.now)))) }
{
    know_apart(setting, path, Relation::AtLeast, true, left, right)?;
    know_apart(setting, path, Relation::AtLeast, true, right, left)
}

/// A way is left out, by its fact. None is whose fact is too large for `i64`.
fn leaves_out<D: Domain>(
    setting: &Setting<D>,
    path: &Path<D>,
    by_elements: bool,
    fact: Result<Form, WalkError>,
) -> Result<bool, WalkError>
    ensures { (f : Fact) → MatchResult fact (λ x. form_seen x ≡ f) (λ e. IsUnfit e f) → MatchResult result (λ b. b ≡ walks.is_left_out (seen D.Domain setting.now) by_elements f (followed path.now).state) IsMemory }
{
    match fact {
        Ok(form) => Ok(is_left_out(setting, path, by_elements, &form)),
        Err(WalkError::TooLarge) => Ok(false),
        Err(WalkError::TooMany) => Err(WalkError::TooMany),
        Err(WalkError::Memory) => Err(WalkError::Memory),
    }
}

/// A way of a comparison is left out.
fn leaves_out_side<D: Domain>(
    setting: &Setting<D>,
    path: &Path<D>,
    way: Way,
    left: &Form,
    right: &Form,
) -> Result<bool, WalkError>
    ensures { MatchResult result (λ b. b ≡ walks.is_left_out (seen D.Domain setting.now) way.by_elements (side (relation_seen way.relation) way.first (form_seen left.now) (form_seen right.now)) (followed path.now).state) IsMemory }
{
    let fact = side_fact(setting.alloc, way.relation, way.first, left, right);
    leaves_out(setting, path, way.by_elements, fact)
}

/// A way of `==` or `!=`, or, by its relation, of another comparison, is left out, where the wide walk asks the elements.
fn leaves_out_apart<D: Domain>(
    setting: &Setting<D>,
    path: &Path<D>,
    relation: Relation,
    first: bool,
    left: &Form,
    right: &Form,
) -> Result<bool, WalkError>
    ensures { MatchResult result (λ b. b ≡ walks.is_left_out (seen D.Domain setting.now) setting.now.is_wide (side (relation_seen relation) first (form_seen left.now) (form_seen right.now)) (followed path.now).state) IsMemory }
{
    let way = Way {
        relation,
        first,
        by_elements: setting.is_wide,
    };
    leaves_out_side(setting, path, way, left, right)
}

/// The way on which two forms are equal is left out.
fn leaves_out_equal<D: Domain>(
    setting: &Setting<D>,
    path: &Path<D>,
    left: &Form,
    right: &Form,
) -> Result<bool, WalkError>
    ensures { MatchResult result (λ b. b ≡ walks.is_either_left_out (seen D.Domain setting.now) setting.now.is_wide (minus (form_seen left.now) (form_seen right.now)) (minus (form_seen right.now) (form_seen left.now)) (followed path.now).state) IsMemory }
{
    if leaves_out_apart(setting, path, Relation::AtLeast, true, left, right)? {
        return Ok(true);
    }
    leaves_out_apart(setting, path, Relation::AtLeast, true, right, left)
}

/// The ways on which two forms differ are left out.
fn leaves_out_unequal<D: Domain>(
    setting: &Setting<D>,
    path: &Path<D>,
    left: &Form,
    right: &Form,
) -> Result<bool, WalkError>
    ensures { MatchResult result (λ b. b ≡ walks.are_both_left_out (seen D.Domain setting.now) setting.now.is_wide (tests.below (form_seen left.now) (form_seen right.now)) (tests.below (form_seen right.now) (form_seen left.now)) (followed path.now).state) IsMemory }
{
    if leaves_out_apart(setting, path, Relation::Equal, true, left, right)? {
        return leaves_out_apart(setting, path, Relation::Equal, false, left, right);
    }
    Ok(false)
}

/// The way of a comparison that is gone along, and whether it is the first.
fn choose_side<D: Domain>(
    setting: &Setting<D>,
    path: &mut Path<D>,
    by_elements: bool,
    relation: Relation,
    left: &Form,
    right: &Form,
) -> Result<bool, WalkError>
    ensures { MatchResult result (Leads (followed path.old) (followed path.new) (choosing_side (seen D.Domain setting.now) by_elements (side (relation_seen relation) true (form_seen left.now) (form_seen right.now)) (side (relation_seen relation) false (form_seen left.now) (form_seen right.now)))) IsMemory }
{
    let one = Way {
        relation,
        first: true,
        by_elements,
    };
    let other = Way {
        relation,
        first: false,
        by_elements,
    };
    let first_is_out = leaves_out_side(setting, path, one, left, right)?;
    let second_is_out = leaves_out_side(setting, path, other, left, right)?;
    path.choose_unless(first_is_out, second_is_out)
}

/// Whether two forms are equal on the way that is gone along.
fn choose_equal<D: Domain>(
    setting: &Setting<D>,
    path: &mut Path<D>,
    left: &Form,
    right: &Form,
) -> Result<bool, WalkError>
    ensures { MatchResult result (Leads (followed path.old) (followed path.new) (choosing_equal (seen D.Domain setting.now) (form_seen left.now) (form_seen right.now))) IsMemory }
{
    let equal_is_out = leaves_out_equal(setting, path, left, right)?;
    let unequal_is_out = leaves_out_unequal(setting, path, left, right)?;
    path.choose_unless(equal_is_out, unequal_is_out)
}

/// For each of three ways, whether it is left out.
#[derive(Clone, Copy)]
pub struct LeftOut {
    pub first: bool,
    pub second: bool,
    pub third: bool,
}

/// The second way and the third one are left out.
fn leaves_out_rest(out: LeftOut) -> bool
    ensures { result ≡ (out.second && out.third) }
{
    out.second && out.third
}

/// The first of three ways is gone along.
fn choose_first<D: Domain>(path: &mut Path<D>, out: LeftOut) -> Result<bool, WalkError>
    ensures { MatchResult result (Leads (followed path.old) (followed path.new) (choosing_unless out.first (out.second && out.third))) IsMemory }
{
    path.choose_unless(out.first, leaves_out_rest(out))
}

/// The ways of an inequality that are left out: below, above, equal.
fn left_out_of_order<D: Domain>(
    setting: &Setting<D>,
    path: &Path<D>,
    left: &Form,
    right: &Form,
) -> Result<LeftOut, WalkError>
    ensures { MatchResult result (AreLeftOut (seen D.Domain setting.now) (tests.below (form_seen left.now) (form_seen right.now)) (tests.below (form_seen right.now) (form_seen left.now)) (minus (form_seen left.now) (form_seen right.now)) (minus (form_seen right.now) (form_seen left.now)) (followed path.now).state) IsMemory }
{
    let first = leaves_out_apart(setting, path, Relation::Unequal, true, left, right)?;
    let second = leaves_out_apart(setting, path, Relation::Unequal, false, left, right)?;
    let third = leaves_out_equal(setting, path, left, right)?;
    Ok(LeftOut {
        first,
        second,
        third,
    })
}

/// The two ways of a relation, one form below the other on one of them.
fn split_sides<D: Domain>(
    setting: &Setting<D>,
    path: &mut Path<D>,
    by_elements: bool,
    relation: Relation,
    left: &Form,
    right: &Form,
) -> Result<bool, Halt>
    ensures { MatchResult result (λ b. Leads (followed path.old) (followed path.new) (split_sides (seen D.Domain setting.now) by_elements (relation_seen relation) (form_seen left.now) (form_seen right.now)) b) (λ h. Halts (followed path.old) (followed path.new) h (split_sides (seen D.Domain setting.now) by_elements (relation_seen relation) (form_seen left.now) (form_seen right.now))) }
{
    let first = choose_side(setting, path, by_elements, relation, left, right)?;
    let way = Way {
        relation,
        first,
        by_elements,
    };
    know_side(setting, path, way, left, right)?;
    Ok(first)
}

/// One form is below another, or the other way round.
fn split_below<D: Domain>(
    setting: &Setting<D>,
    path: &mut Path<D>,
    left: &Form,
    right: &Form,
) -> Result<bool, Halt>
    ensures { MatchResult result (λ b. Leads (followed path.old) (followed path.new) (one_below (seen D.Domain setting.now) (form_seen left.now) (form_seen right.now)) b) (λ h. Halts (followed path.old) (followed path.new) h (one_below (seen D.Domain setting.now) (form_seen left.now) (form_seen right.now))) }
{
    let first = choose_side(setting, path, setting.is_wide, Relation::Equal, left, right)?;
    know_apart(setting, path, Relation::Equal, first, left, right)?;
    Ok(false)
}

/// Two forms differ, by their differences.
fn one_way<D: Domain>(
    setting: &Setting<D>,
    path: &mut Path<D>,
    more: &Form,
    less: &Form,
) -> Result<bool, Halt>
    ensures { MatchResult result (λ b. Leads (followed path.old) (followed path.new) (one_way (seen D.Domain setting.now) (form_seen more.now) (form_seen less.now)) b) (λ h. Halts (followed path.old) (followed path.new) h (one_way (seen D.Domain setting.now) (form_seen more.now) (form_seen less.now))) }
{
    tell_apart(setting, path, more, less)?;
    Ok(false)
}

/// Two forms differ: one is below the other, or, where these ways are joined, one way.
fn split_apart<D: Domain>(
    setting: &Setting<D>,
    path: &mut Path<D>,
    left: &Form,
    right: &Form,
) -> Result<bool, Halt>
    ensures { MatchResult result (λ b. Leads (followed path.old) (followed path.new) (apart (seen D.Domain setting.now) (form_seen left.now) (form_seen right.now)) b) (λ h. Halts (followed path.old) (followed path.new) h (apart (seen D.Domain setting.now) (form_seen left.now) (form_seen right.now))) }
{
    match joined_differences(setting, path, true, left, right)? {
        Some(differences) => one_way(setting, path, &differences.more, &differences.less),
        None => split_below(setting, path, left, right),
    }
}

/// The ways of equality: equal, then those on which the forms differ.
fn split_equal<D: Domain>(
    setting: &Setting<D>,
    path: &mut Path<D>,
    left: &Form,
    right: &Form,
) -> Result<bool, Halt>
    ensures { MatchResult result (λ b. Leads (followed path.old) (followed path.new) (tests.split (seen D.Domain setting.now) setting.now.is_wide Equal (form_seen left.now) (form_seen right.now)) b) (λ h. Halts (followed path.old) (followed path.new) h (tests.split (seen D.Domain setting.now) setting.now.is_wide Equal (form_seen left.now) (form_seen right.now))) }
{
    if choose_equal(setting, path, left, right)? {
        know_equal(setting, path, left, right)?;
        return Ok(true);
    }
    split_apart(setting, path, left, right)
}

/// The ways of inequality where none are joined: below, above, equal.
fn split_order<D: Domain>(
    setting: &Setting<D>,
    path: &mut Path<D>,
    left: &Form,
    right: &Form,
) -> Result<bool, Halt>
    ensures { MatchResult result (λ b. Leads (followed path.old) (followed path.new) (tests.split_sign (seen D.Domain setting.now) (tests.below (form_seen left.now) (form_seen right.now)) (tests.below (form_seen right.now) (form_seen left.now)) (minus (form_seen left.now) (form_seen right.now)) (minus (form_seen right.now) (form_seen left.now))) b) (λ h. Halts (followed path.old) (followed path.new) h (tests.split_sign (seen D.Domain setting.now) (tests.below (form_seen left.now) (form_seen right.now)) (tests.below (form_seen right.now) (form_seen left.now)) (minus (form_seen left.now) (form_seen right.now)) (minus (form_seen right.now) (form_seen left.now)))) }
{
    let out = left_out_of_order(setting, path, left, right)?;
    if choose_first(path, out)? {
        know_apart(setting, path, Relation::Unequal, true, left, right)?;
        return Ok(true);
    }
    if path.choose_unless(out.second, out.third)? {
        know_apart(setting, path, Relation::Unequal, false, left, right)?;
        return Ok(true);
    }
    know_equal(setting, path, left, right)?;
    Ok(false)
}

/// The ways of inequality: below, above, equal; or, where the first two are joined, unequal, equal.
fn split_unequal<D: Domain>(
    setting: &Setting<D>,
    path: &mut Path<D>,
    left: &Form,
    right: &Form,
) -> Result<bool, Halt>
    ensures { MatchResult result (λ b. Leads (followed path.old) (followed path.new) (tests.split (seen D.Domain setting.now) setting.now.is_wide Unequal (form_seen left.now) (form_seen right.now)) b) (λ h. Halts (followed path.old) (followed path.new) h (tests.split (seen D.Domain setting.now) setting.now.is_wide Unequal (form_seen left.now) (form_seen right.now))) }
{
    match joined_differences(setting, path, true, left, right)? {
        Some(differences) => {
            split_from_zero(setting, path, &differences.more, &differences.less)
        }
        None => split_order(setting, path, left, right),
    }
}

/// The ways of a comparison, in their order. The wide walk leaves out ways of `==` and `!=` that the elements refute, and others where it
/// is asked to. Where ways are joined, one on which the operands of `==` or `!=` differ stands in the place of two.
pub fn split<D: Domain>(
    setting: &Setting<D>,
    path: &mut Path<D>,
    by_elements: bool,
    relation: Relation,
    left: &Form,
    right: &Form,
) -> Result<bool, Halt>
    ensures { MatchResult result (λ b. Leads (followed path.old) (followed path.new) (tests.split (seen D.Domain setting.now) by_elements (relation_seen relation) (form_seen left.now) (form_seen right.now)) b) (λ h. Halts (followed path.old) (followed path.new) h (tests.split (seen D.Domain setting.now) by_elements (relation_seen relation) (form_seen left.now) (form_seen right.now))) }
{
    match relation {
        Relation::Less => split_sides(setting, path, by_elements, Relation::Less, left, right),
        Relation::AtMost => split_sides(setting, path, by_elements, Relation::AtMost, left, right),
        Relation::More => split_sides(setting, path, by_elements, Relation::More, left, right),
        Relation::AtLeast => split_sides(
            setting,
            path,
            by_elements,
            Relation::AtLeast,
            left,
            right,
        ),
        Relation::Equal => split_equal(setting, path, left, right),
        Relation::Unequal => split_unequal(setting, path, left, right),
    }
}

/// A copy of a form.
pub fn copied(alloc: Global, form: &Form) -> Result<Form, WalkError>
    ensures { MatchResult result (λ f. form_seen f ≡ form_seen form.now) IsMemory }
{
    let copy = form.copy(alloc)?;
    Ok(copy)
}

/// The negation of a form; an error where a number is too large for `i64`.
pub fn negated(alloc: Global, form: &Form) -> Result<Form, WalkError>
    ensures { MatchResult result (λ f. form_seen f ≡ multiple (negsuc 0) (form_seen form.now)) (λ e. IsUnfit e (multiple (negsuc 0) (form_seen form.now))) }
{
    let negation = form.times(alloc, -1)?;
    Ok(negation)
}

/// Goes on where a form is above 0: that is known, and the domain is narrowed by it.
fn know_above<D: Domain>(setting: &Setting<D>, path: &mut Path<D>, form: &Form) -> Result<(), Halt>
    ensures { MatchResult result (λ _. Steps (followed path.old) (followed path.new) (walks.know_test (seen D.Domain setting.now) setting.now.is_wide (minus (form_seen form.now) (constant (pos 1))))) (λ h. HaltsAtStep (followed path.old) (followed path.new) h (walks.know_test (seen D.Domain setting.now) setting.now.is_wide (minus (form_seen form.now) (constant (pos 1))))) }
{
    let fact = less_number(setting.alloc, form, 1)?;
    know_test(setting, path, setting.is_wide, fact)
}

/// Goes on where a form is below 0: that is known, and the domain is narrowed by it.
fn know_below<D: Domain>(setting: &Setting<D>, path: &mut Path<D>, form: &Form) -> Result<(), Halt>
    ensures { MatchResult result (λ _. Steps (followed path.old) (followed path.new) (walks.know_test (seen D.Domain setting.now) setting.now.is_wide (minus (constant (negsuc 0)) (form_seen form.now)))) (λ h. HaltsAtStep (followed path.old) (followed path.new) h (walks.know_test (seen D.Domain setting.now) setting.now.is_wide (minus (constant (negsuc 0)) (form_seen form.now)))) }
{
    let fact = number_less(setting.alloc, -1, form)?;
    know_test(setting, path, setting.is_wide, fact)
}

/// A form is at least 0.
fn know_form<D: Domain>(setting: &Setting<D>, path: &mut Path<D>, form: &Form) -> Result<(), Halt>
    ensures { MatchResult result (λ _. Steps (followed path.old) (followed path.new) (walks.know_test (seen D.Domain setting.now) setting.now.is_wide (form_seen form.now))) (λ h. HaltsAtStep (followed path.old) (followed path.new) h (walks.know_test (seen D.Domain setting.now) setting.now.is_wide (form_seen form.now))) }
{
    let fact = copied(setting.alloc, form)?;
    know_test(setting, path, setting.is_wide, fact)
}

/// A form is at most 0.
fn know_negated<D: Domain>(
    setting: &Setting<D>,
    path: &mut Path<D>,
    form: &Form,
) -> Result<(), Halt>
    ensures { MatchResult result (λ _. Steps (followed path.old) (followed path.new) (walks.know_test (seen D.Domain setting.now) setting.now.is_wide (multiple (negsuc 0) (form_seen form.now)))) (λ h. HaltsAtStep (followed path.old) (followed path.new) h (walks.know_test (seen D.Domain setting.now) setting.now.is_wide (multiple (negsuc 0) (form_seen form.now)))) }
{
    let fact = negated(setting.alloc, form)?;
    know_test(setting, path, setting.is_wide, fact)
}

/// Two facts of a test: a form is 0.
fn know_zero<D: Domain>(setting: &Setting<D>, path: &mut Path<D>, form: &Form) -> Result<(), Halt>
    ensures { MatchResult result (λ _. Steps (followed path.old) (followed path.new) (walks.know_two (seen D.Domain setting.now) setting.now.is_wide (form_seen form.now) (multiple (negsuc 0) (form_seen form.now)))) (λ h. HaltsAtStep (followed path.old) (followed path.new) h (walks.know_two (seen D.Domain setting.now) setting.now.is_wide (form_seen form.now) (multiple (negsuc 0) (form_seen form.now)))) }
{
    know_form(setting, path, form)?;
    know_negated(setting, path, form)
}

/// Two facts of a test: a form and its negation are at least 0.
fn know_both<D: Domain>(
    setting: &Setting<D>,
    path: &mut Path<D>,
    form: &Form,
    negation: &Form,
) -> Result<(), Halt>
    ensures { MatchResult result (λ _. Steps (followed path.old) (followed path.new) (walks.know_two (seen D.Domain setting.now) setting.now.is_wide (form_seen form.now) (form_seen negation.now))) (λ h. HaltsAtStep (followed path.old) (followed path.new) h (walks.know_two (seen D.Domain setting.now) setting.now.is_wide (form_seen form.now) (form_seen negation.now))) }
{
    know_form(setting, path, form)?;
    know_form(setting, path, negation)
}

/// A form with its negation is not 0, or it is.
fn split_from_zero<D: Domain>(
    setting: &Setting<D>,
    path: &mut Path<D>,
    form: &Form,
    negation: &Form,
) -> Result<bool, Halt>
    ensures { MatchResult result (λ b. Leads (followed path.old) (followed path.new) (tests.split_from_zero (seen D.Domain setting.now) (form_seen form.now) (form_seen negation.now)) b) (λ h. Halts (followed path.old) (followed path.new) h (tests.split_from_zero (seen D.Domain setting.now) (form_seen form.now) (form_seen negation.now))) }
{
    if path.choose()? {
        tell_apart(setting, path, form, negation)?;
        return Ok(true);
    }
    know_both(setting, path, form, negation)?;
    Ok(false)
}

/// The way on which a form is above 0 is left out.
fn leaves_out_above<D: Domain>(
    setting: &Setting<D>,
    path: &Path<D>,
    form: &Form,
) -> Result<bool, WalkError>
    ensures { MatchResult result (λ b. b ≡ walks.is_left_out (seen D.Domain setting.now) setting.now.is_wide (minus (form_seen form.now) (constant (pos 1))) (followed path.now).state) IsMemory }
{
    let fact = less_number(setting.alloc, form, 1);
    leaves_out(setting, path, setting.is_wide, fact)
}

/// The way on which a form is below 0 is left out.
fn leaves_out_below<D: Domain>(
    setting: &Setting<D>,
    path: &Path<D>,
    form: &Form,
) -> Result<bool, WalkError>
    ensures { MatchResult result (λ b. b ≡ walks.is_left_out (seen D.Domain setting.now) setting.now.is_wide (minus (constant (negsuc 0)) (form_seen form.now)) (followed path.now).state) IsMemory }
{
    let fact = number_less(setting.alloc, -1, form);
    leaves_out(setting, path, setting.is_wide, fact)
}

/// The way on which a form is 0 is left out.
fn leaves_out_zero<D: Domain>(
    setting: &Setting<D>,
    path: &Path<D>,
    form: &Form,
) -> Result<bool, WalkError>
    ensures { MatchResult result (λ b. b ≡ walks.is_either_left_out (seen D.Domain setting.now) setting.now.is_wide (form_seen form.now) (multiple (negsuc 0) (form_seen form.now)) (followed path.now).state) IsMemory }
{
    if is_left_out(setting, path, setting.is_wide, form) {
        return Ok(true);
    }
    let fact = negated(setting.alloc, form);
    leaves_out(setting, path, setting.is_wide, fact)
}

/// The ways of a number as a test that are left out: above 0, below 0, or 0.
fn left_out_of_sign<D: Domain>(
    setting: &Setting<D>,
    path: &Path<D>,
    form: &Form,
) -> Result<LeftOut, WalkError>
    ensures { MatchResult result (AreLeftOut (seen D.Domain setting.now) (minus (form_seen form.now) (constant (pos 1))) (minus (constant (negsuc 0)) (form_seen form.now)) (form_seen form.now) (multiple (negsuc 0) (form_seen form.now)) (followed path.now).state) IsMemory }
{
    let first = leaves_out_above(setting, path, form)?;
    let second = leaves_out_below(setting, path, form)?;
    let third = leaves_out_zero(setting, path, form)?;
    Ok(LeftOut {
        first,
        second,
        third,
    })
}

/// A number as a test, where no ways are joined: above 0, below 0, or 0.
fn split_sign<D: Domain>(
    setting: &Setting<D>,
    path: &mut Path<D>,
    form: &Form,
) -> Result<bool, Halt>
    ensures { MatchResult result (λ b. Leads (followed path.old) (followed path.new) (tests.split_sign (seen D.Domain setting.now) (minus (form_seen form.now) (constant (pos 1))) (minus (constant (negsuc 0)) (form_seen form.now)) (form_seen form.now) (multiple (negsuc 0) (form_seen form.now))) b) (λ h. Halts (followed path.old) (followed path.new) h (tests.split_sign (seen D.Domain setting.now) (minus (form_seen form.now) (constant (pos 1))) (minus (constant (negsuc 0)) (form_seen form.now)) (form_seen form.now) (multiple (negsuc 0) (form_seen form.now)))) }
{
    let out = left_out_of_sign(setting, path, form)?;
    if choose_first(path, out)? {
        know_above(setting, path, form)?;
        return Ok(true);
    }
    if path.choose_unless(out.second, out.third)? {
        know_below(setting, path, form)?;
        return Ok(true);
    }
    know_zero(setting, path, form)?;
    Ok(false)
}

/// A number as a test: above 0, below 0, or 0; or, where the first two are joined, not 0, or 0. The wide walk leaves out ways that the
/// elements refute.
pub fn split_number<D: Domain>(
    setting: &Setting<D>,
    path: &mut Path<D>,
    form: &Form,
) -> Result<bool, Halt>
    ensures { MatchResult result (λ b. Leads (followed path.old) (followed path.new) (tests.split_number (seen D.Domain setting.now) (form_seen form.now)) b) (λ h. Halts (followed path.old) (followed path.new) h (tests.split_number (seen D.Domain setting.now) (form_seen form.now))) }
{
    match joined_negation(setting, path, form)? {
        Some(negation) => split_from_zero(setting, path, form, &negation),
        None => split_sign(setting, path, form),
    }
}
