//! The bits that two forms have in common, in the wide walk.

ghost use Rattle.std.specs.Prelude.{◌≡◌, ◌≤◌, ◌<◌, ◌^◌, ◌<ℤ◌, ◌+ℤ◌, pos, int_div, true, false, IfOk, MatchResult};
ghost use Rattle.linear.specs.Exact.{multiple};
ghost use Rattle.linear.specs.Forms.{form as form_seen};
ghost use Rattle.linear.specs.Sizes.{size};
ghost use Rattle.words.specs.View.{kind as kind_seen};
ghost use Rattle.walk_trees.specs.Bits as bits;
ghost use Rattle.facts.specs.Refusals.{IsMemory};
ghost use Rattle.path_steps.specs.Leads.{Leads};
ghost use Rattle.path_steps.specs.Refusals.{Stops};
ghost use Rattle.path_steps.specs.View.{followed, setting as seen};
ghost use Rattle.path_walk.specs.BitSteps.{left_run, run_above};

use crate::bit_places::{is_upper, run_in};
use crate::cases::are_from_zero;
use crate::powers::power_of;
use crate::widths::greatest;
use domain::Domain;
use facts::{WalkError, between};
use linear::Form;
use path_steps::{
    Path, Setting, any_of, copied, element_at, invent, is_natural, name_left, sized_quotient,
    tell_order_where, times,
};
use std::alloc::Global;
use words::Kind;

/// The bits from a place above the lowest one on, as a number.
fn upper_bits<D: Domain>(
    setting: &Setting<D>,
    path: &mut Path<D>,
    kind: Kind,
    of: &Form,
    lowest: u32,
) -> Result<Form, WalkError>
    requires above { 0 < lowest }
    requires few { lowest ≤ 31 }
    ensures leads { MatchResult result (λ f. Leads (followed path.old) (followed path.new) (λ st go. bits.bits_from (seen D.Domain setting.now) (kind_seen kind) (form_seen of.now) lowest st go) (form_seen f)) (λ e. Stops (followed path.old) e (λ st go. bits.bits_from (seen D.Domain setting.now) (kind_seen kind) (form_seen of.now) lowest st go)) }
    ensures small { IfOk result (λ f. size (form_seen f) ≡ 1) }
{
    let parts = sized_quotient(setting, path, kind, of, power_of(lowest))?;
    Ok(parts.0)
}

/// The bits from a place on, as a number.
pub fn bits_from<D: Domain>(
    setting: &Setting<D>,
    path: &mut Path<D>,
    kind: Kind,
    of: &Form,
    lowest: u32,
) -> Result<Form, WalkError>
    requires { lowest ≤ 31 }
    ensures { MatchResult result (λ f. Leads (followed path.old) (followed path.new) (λ st go. bits.bits_from (seen D.Domain setting.now) (kind_seen kind) (form_seen of.now) lowest st go) (form_seen f)) (λ e. Stops (followed path.old) e (λ st go. bits.bits_from (seen D.Domain setting.now) (kind_seen kind) (form_seen of.now) lowest st go)) }
{
    if lowest == 0 {
        return copied(setting.alloc, of);
    }
    upper_bits(setting, path, kind, of, lowest)
}

/// The domain's element of `x & y`, before more is told of it.
fn met<D: Domain>(setting: &Setting<D>, path: &Path<D>, kind: Kind, left: &Form, right: &Form) -> D
    ensures { result ≡ bits.met (seen D.Domain setting.now) (followed path.now).state (kind_seen kind) (form_seen left.now) (form_seen right.now) }
{
    if are_from_zero(setting, path, left, right) {
        return element_at(setting, path, left).mask(element_at(setting, path, right));
    }
    if is_natural(setting, path, kind, left) || is_natural(setting, path, kind, right) {
        return between(0, greatest(kind));
    }
    any_of(kind)
}

/// A new symbol for `x & y`, which is at most each operand that is not negative.
fn meet_any<D: Domain>(
    setting: &Setting<D>,
    path: &mut Path<D>,
    kind: Kind,
    left: &Form,
    right: &Form,
) -> Result<Form, WalkError>
    ensures { MatchResult result (λ f. Leads (followed path.old) (followed path.new) (bits.meet_any (seen D.Domain setting.now) (kind_seen kind) (form_seen left.now) (form_seen right.now)) (form_seen f)) (λ e. Stops (followed path.old) e (bits.meet_any (seen D.Domain setting.now) (kind_seen kind) (form_seen left.now) (form_seen right.now))) }
{
    let first = is_natural(setting, path, kind, left);
    let second = is_natural(setting, path, kind, right);
    let element = met(setting, path, kind, left, right);
    let both = invent(setting, path, element)?;
    tell_order_where(setting, path, first, left, &both)?;
    tell_order_where(setting, path, second, right, &both)?;
    Ok(both)
}

/// A small form at a place: it is made, but for memory.
fn at_place(alloc: Global, lowest: u32, of: &Form) -> Result<Form, WalkError>
    requires few { lowest ≤ 31 }
    requires small { size (form_seen of.now) ≡ 1 }
    ensures { MatchResult result (λ f. form_seen f ≡ multiple (pos (2 ^ lowest)) (form_seen of.now)) IsMemory }
{
    times(alloc, power_of(lowest), of)
}

/// The modulus of a run of bits: the number of values that they can have.
fn run_width(kind: Kind, lowest: u32, number: i64) -> i64
    requires few { lowest ≤ 31 }
    requires run { bits.is_run (kind_seen kind) lowest number ≡ true }
    requires within { bits.is_upper (kind_seen kind) lowest number ≡ false }
    ensures exact { result ≡ int_div (number +ℤ pos (2 ^ lowest)) (pos (2 ^ lowest)) }
    ensures above { pos 0 <ℤ result }
{
    (number + power_of(lowest)) / power_of(lowest)
}

/// The remainder of the bits from a place on, by the modulus of a run.
fn left_run<D: Domain>(
    setting: &Setting<D>,
    path: &mut Path<D>,
    kind: Kind,
    above: &Form,
    lowest: u32,
    number: i64,
) -> Result<Form, WalkError>
    requires few { lowest ≤ 31 }
    requires run { bits.is_run (kind_seen kind) lowest number ≡ true }
    requires within { bits.is_upper (kind_seen kind) lowest number ≡ false }
    requires wide { setting.now.is_wide ≡ true }
    ensures { MatchResult result (λ f. Leads (followed path.old) (followed path.new) (left_run (seen D.Domain setting.now) (kind_seen kind) (form_seen above.now) lowest number) (form_seen f)) (λ e. Stops (followed path.old) e (left_run (seen D.Domain setting.now) (kind_seen kind) (form_seen above.now) lowest number)) }
{
    let bits = name_left(setting, path, kind, above, run_width(kind, lowest, number))?;
    at_place(setting.alloc, lowest, &bits)
}

/// The bits of a run, of those from its lowest place on.
fn run_above<D: Domain>(
    setting: &Setting<D>,
    path: &mut Path<D>,
    kind: Kind,
    above: &Form,
    lowest: u32,
    number: i64,
) -> Result<Form, WalkError>
    requires few { lowest ≤ 31 }
    requires small { size (form_seen above.now) ≡ 1 }
    requires run { bits.is_run (kind_seen kind) lowest number ≡ true }
    requires wide { setting.now.is_wide ≡ true }
    ensures { MatchResult result (λ f. Leads (followed path.old) (followed path.new) (run_above (seen D.Domain setting.now) (kind_seen kind) (form_seen above.now) lowest number) (form_seen f)) (λ e. Stops (followed path.old) e (run_above (seen D.Domain setting.now) (kind_seen kind) (form_seen above.now) lowest number)) }
{
    if is_upper(kind, lowest, number) {
        return at_place(setting.alloc, lowest, above);
    }
    left_run(setting, path, kind, above, lowest, number)
}

/// The bits of a form in a run.
fn in_run<D: Domain>(
    setting: &Setting<D>,
    path: &mut Path<D>,
    kind: Kind,
    of: &Form,
    lowest: u32,
    number: i64,
) -> Result<Form, WalkError>
    requires above { 0 < lowest }
    requires few { lowest ≤ 31 }
    requires run { bits.is_run (kind_seen kind) lowest number ≡ true }
    requires wide { setting.now.is_wide ≡ true }
    ensures { MatchResult result (λ f. Leads (followed path.old) (followed path.new) (λ st go. bits.in_run (seen D.Domain setting.now) (kind_seen kind) (form_seen of.now) lowest number st go) (form_seen f)) (λ e. Stops (followed path.old) e (λ st go. bits.in_run (seen D.Domain setting.now) (kind_seen kind) (form_seen of.now) lowest number st go)) }
{
    let above = upper_bits(setting, path, kind, of, lowest)?;
    run_above(setting, path, kind, &above, lowest, number)
}

/// The bits that two operands both have: exactly, where the right one is a run.
pub fn meet<D: Domain>(
    setting: &Setting<D>,
    path: &mut Path<D>,
    kind: Kind,
    left: &Form,
    right: &Form,
) -> Result<Form, WalkError>
    requires { setting.now.is_wide ≡ true }
    ensures { MatchResult result (λ f. Leads (followed path.old) (followed path.new) (bits.meet (seen D.Domain setting.now) (kind_seen kind) (form_seen left.now) (form_seen right.now)) (form_seen f)) (λ e. Stops (followed path.old) e (bits.meet (seen D.Domain setting.now) (kind_seen kind) (form_seen left.now) (form_seen right.now))) }
{
    match run_in(kind, right) {
        Some(lowest) => in_run(setting, path, kind, left, lowest, right.constant_part()),
        None => meet_any(setting, path, kind, left, right),
    }
}
