//! The bits that one of two forms has, or only one of them, in the wide walk.

ghost use Rattle.std.specs.Prelude.{◌≡◌, ◌≤◌, ◌^◌, ◌+◌, ◌<ℤ◌, pos, true, false, cond, IfOk, MatchOption, MatchResult};
ghost use Rattle.linear.specs.Exact.{sum, fits};
ghost use Rattle.linear.specs.Forms.{form as form_seen};
ghost use Rattle.linear.specs.Sizes.{size};
ghost use Rattle.words.specs.View.{kind as kind_seen};
ghost use Rattle.facts.specs.Symbols.{constant};
ghost use Rattle.facts.specs.Refusals.{IsMemory, IsUnfit};
ghost use Rattle.walk_trees.specs.Bits as bits;
ghost use Rattle.walk_trees.specs.Bits.{tell_where};
ghost use Rattle.path_steps.specs.Leads.{Steps, Leads};
ghost use Rattle.path_steps.specs.Refusals.{StopsAtStep, Stops};
ghost use Rattle.path_steps.specs.View.{followed, setting as seen};
ghost use Rattle.path_walk.specs.BitSteps.{told_above, told_sum, bit_from, changed, both_joined};

use crate::bit_places::bit_in;
use crate::meeting::bits_from;
use crate::powers::power_of;
use crate::widths;
use domain::Domain;
use facts::WalkError;
use linear::{Form, LinearError};
use path_steps::{
    Path, Setting, any_of, copied, difference, invent, is_natural, name_left, tell,
    tell_order_where, times,
};
use std::alloc::Global;
use words::Kind;

/// The bits of a disjunction are at least each operand.
fn told_above<D: Domain>(
    setting: &Setting<D>,
    path: &mut Path<D>,
    is_or: bool,
    left: &Form,
    right: &Form,
    of: &Form,
) -> Result<(), WalkError>
    ensures { MatchResult result (λ _. Steps (followed path.old) (followed path.new) (told_above (seen D.Domain setting.now) is_or (form_seen left.now) (form_seen right.now) (form_seen of.now))) (λ e. StopsAtStep (followed path.old) e (told_above (seen D.Domain setting.now) is_or (form_seen left.now) (form_seen right.now) (form_seen of.now))) }
{
    tell_order_where(setting, path, is_or, of, left)?;
    tell_order_where(setting, path, is_or, of, right)
}

/// The sum of two forms, where its numbers are of 64 bits.
fn sum_if_fit(alloc: Global, left: &Form, right: &Form) -> Result<Option<Form>, WalkError>
    ensures { MatchResult result (λ o. MatchOption o (fits (sum (form_seen left.now) (form_seen right.now)) ≡ false) (λ f. (form_seen f ≡ sum (form_seen left.now) (form_seen right.now)) × (fits (sum (form_seen left.now) (form_seen right.now)) ≡ true))) IsMemory }
{
    match left.add(alloc, right) {
        Ok(form) => Ok(Some(form)),
        Err(LinearError::TooLarge) => Ok(None),
        Err(LinearError::Memory) => Err(WalkError::Memory),
    }
}

/// They are at most the sum of the operands.
fn told_sum<D: Domain>(
    setting: &Setting<D>,
    path: &mut Path<D>,
    left: &Form,
    right: &Form,
    of: &Form,
) -> Result<(), WalkError>
    ensures { MatchResult result (λ _. Steps (followed path.old) (followed path.new) (told_sum (seen D.Domain setting.now) (form_seen left.now) (form_seen right.now) (form_seen of.now))) (λ e. StopsAtStep (followed path.old) e (told_sum (seen D.Domain setting.now) (form_seen left.now) (form_seen right.now) (form_seen of.now))) }
{
    match sum_if_fit(setting.alloc, left, right)? {
        Some(sum) => tell_order_where(setting, path, true, &sum, of),
        None => Ok(()),
    }
}

/// A new symbol for `x | y` or `x ^ y` of two operands that are not negative, with the domain's element of it.
fn join_any<D: Domain>(
    setting: &Setting<D>,
    path: &mut Path<D>,
    is_or: bool,
    kind: Kind,
    left: &Form,
    right: &Form,
) -> Result<Form, WalkError>
    ensures { MatchResult result (λ f. Leads (followed path.old) (followed path.new) (bits.join_any (seen D.Domain setting.now) is_or (kind_seen kind) (form_seen left.now) (form_seen right.now)) (form_seen f)) (λ e. Stops (followed path.old) e (bits.join_any (seen D.Domain setting.now) is_or (kind_seen kind) (form_seen left.now) (form_seen right.now))) }
{
    let element = widths::joined(setting, path, kind, left, right);
    let joined = invent(setting, path, element)?;
    told_above(setting, path, is_or, left, right, &joined)?;
    told_sum(setting, path, left, right, &joined)?;
    Ok(joined)
}

/// A bit of a form that is not negative.
fn bit_from<D: Domain>(
    setting: &Setting<D>,
    path: &mut Path<D>,
    kind: Kind,
    of: &Form,
    lowest: u32,
) -> Result<Form, WalkError>
    requires few { lowest ≤ 30 }
    requires wide { setting.now.is_wide ≡ true }
    ensures leads { MatchResult result (λ f. Leads (followed path.old) (followed path.new) (bit_from (seen D.Domain setting.now) (kind_seen kind) (form_seen of.now) lowest) (form_seen f)) (λ e. Stops (followed path.old) e (bit_from (seen D.Domain setting.now) (kind_seen kind) (form_seen of.now) lowest)) }
    ensures small { IfOk result (λ f. size (form_seen f) ≡ 1) }
    ensures bare { IfOk result (λ f. (form_seen f).constant ≡ pos 0) }
{
    let above = bits_from(setting, path, kind, of, lowest)?;
    name_left(setting, path, kind, &above, 2)
}

/// A form and a number.
fn more_number(alloc: Global, of: &Form, number: i64) -> Result<Form, WalkError>
    ensures { MatchResult result (λ f. form_seen f ≡ sum (form_seen of.now) (constant number)) (λ e. IsUnfit e (sum (form_seen of.now) (constant number))) }
{
    let form = of.add(alloc, &Form::constant(alloc, number))?;
    Ok(form)
}

/// A form with a bit more, and so many times that bit less.
fn changed(
    alloc: Global,
    of: &Form,
    lowest: u32,
    number: i64,
    bit: &Form,
) -> Result<Form, WalkError>
    requires few { lowest ≤ 30 }
    requires above { pos 0 <ℤ number }
    requires small { size (form_seen bit.now) ≡ 1 }
    requires bare { (form_seen bit.now).constant ≡ pos 0 }
    ensures { MatchResult result (λ f. form_seen f ≡ changed (form_seen of.now) lowest number (form_seen bit.now)) (λ e. IsUnfit e (changed (form_seen of.now) lowest number (form_seen bit.now))) }
{
    let more = more_number(alloc, of, power_of(lowest))?;
    let less = times(alloc, number, bit)?;
    difference(alloc, &more, &less)
}

/// A form is at least 0, which narrows.
fn told<D: Domain>(setting: &Setting<D>, path: &mut Path<D>, form: &Form) -> Result<(), WalkError>
    ensures { MatchResult result (λ _. Steps (followed path.old) (followed path.new) (tell_where (seen D.Domain setting.now) true (form_seen form.now))) (λ e. StopsAtStep (followed path.old) e (tell_where (seen D.Domain setting.now) true (form_seen form.now))) }
{
    let fact = copied(setting.alloc, form)?;
    tell(setting, path, fact)
}

/// A form with a bit, or with that bit turned.
fn with_bit<D: Domain>(
    setting: &Setting<D>,
    path: &mut Path<D>,
    kind: Kind,
    of: &Form,
    lowest: u32,
    number: i64,
) -> Result<Form, WalkError>
    requires few { lowest ≤ 30 }
    requires above { pos 0 <ℤ number }
    requires wide { setting.now.is_wide ≡ true }
    ensures { MatchResult result (λ f. Leads (followed path.old) (followed path.new) (bits.with_bit (seen D.Domain setting.now) (kind_seen kind) (form_seen of.now) lowest number) (form_seen f)) (λ e. Stops (followed path.old) e (bits.with_bit (seen D.Domain setting.now) (kind_seen kind) (form_seen of.now) lowest number)) }
{
    let bit = bit_from(setting, path, kind, of, lowest)?;
    let form = changed(setting.alloc, of, lowest, number, &bit)?;
    told(setting, path, &form)?;
    Ok(form)
}

/// The multiple of the bit that is taken from the sum of both operands: its place value for `|`, twice that for `^`.
fn bit_times(is_or: bool, lowest: u32) -> i64
    requires { lowest ≤ 30 }
    ensures exact { result ≡ cond is_or (pos (2 ^ lowest)) (pos (2 ^ (lowest + 1))) }
    ensures above { pos 0 <ℤ result }
{
    if is_or {
        power_of(lowest)
    } else {
        power_of(lowest + 1)
    }
}

/// `x | y` or `x ^ y`, neither of which is negative: exactly, where the right one is a single bit.
fn join_by<D: Domain>(
    setting: &Setting<D>,
    path: &mut Path<D>,
    is_or: bool,
    kind: Kind,
    left: &Form,
    right: &Form,
) -> Result<Form, WalkError>
    requires { setting.now.is_wide ≡ true }
    ensures { MatchResult result (λ f. Leads (followed path.old) (followed path.new) (λ st go. bits.join_by (seen D.Domain setting.now) (bits.bit_in (form_seen right.now)) is_or (kind_seen kind) (form_seen left.now) (form_seen right.now) st go) (form_seen f)) (λ e. Stops (followed path.old) e (λ st go. bits.join_by (seen D.Domain setting.now) (bits.bit_in (form_seen right.now)) is_or (kind_seen kind) (form_seen left.now) (form_seen right.now) st go)) }
{
    match bit_in(right) {
        Some(lowest) => {
            let number = bit_times(is_or, lowest);
            with_bit(setting, path, kind, left, lowest, number)
        }
        None => join_any(setting, path, is_or, kind, left, right),
    }
}

/// `x | y` or `x ^ y`; of operands of which one may be negative no more is known than the kind.
fn joins<D: Domain>(
    setting: &Setting<D>,
    path: &mut Path<D>,
    is_or: bool,
    kind: Kind,
    left: &Form,
    right: &Form,
) -> Result<Form, WalkError>
    requires { setting.now.is_wide ≡ true }
    ensures { MatchResult result (λ f. Leads (followed path.old) (followed path.new) (both_joined (seen D.Domain setting.now) is_or (kind_seen kind) (form_seen left.now) (form_seen right.now)) (form_seen f)) (λ e. Stops (followed path.old) e (both_joined (seen D.Domain setting.now) is_or (kind_seen kind) (form_seen left.now) (form_seen right.now))) }
{
    if is_natural(setting, path, kind, left) && is_natural(setting, path, kind, right) {
        return join_by(setting, path, is_or, kind, left, right);
    }
    invent(setting, path, any_of(kind))
}

/// The form of `x | y` on a path of the wide walk.
pub fn join<D: Domain>(
    setting: &Setting<D>,
    path: &mut Path<D>,
    kind: Kind,
    left: &Form,
    right: &Form,
) -> Result<Form, WalkError>
    requires { setting.now.is_wide ≡ true }
    ensures { MatchResult result (λ f. Leads (followed path.old) (followed path.new) (bits.join (seen D.Domain setting.now) (kind_seen kind) (form_seen left.now) (form_seen right.now)) (form_seen f)) (λ e. Stops (followed path.old) e (bits.join (seen D.Domain setting.now) (kind_seen kind) (form_seen left.now) (form_seen right.now))) }
{
    joins(setting, path, true, kind, left, right)
}

/// The form of `x ^ y` on a path of the wide walk.
pub fn differ<D: Domain>(
    setting: &Setting<D>,
    path: &mut Path<D>,
    kind: Kind,
    left: &Form,
    right: &Form,
) -> Result<Form, WalkError>
    requires { setting.now.is_wide ≡ true }
    ensures { MatchResult result (λ f. Leads (followed path.old) (followed path.new) (bits.differ (seen D.Domain setting.now) (kind_seen kind) (form_seen left.now) (form_seen right.now)) (form_seen f)) (λ e. Stops (followed path.old) e (bits.differ (seen D.Domain setting.now) (kind_seen kind) (form_seen left.now) (form_seen right.now))) }
{
    joins(setting, path, false, kind, left, right)
}
