//! Shifts by a term.

ghost use Rattle.std.specs.Prelude.{◌≡◌, ◌≤◌, ◌^◌, ◌&&◌, pos, IfSome, MatchResult};
ghost use Rattle.std.specs.Ordering.{int_eq};
ghost use Rattle.linear.specs.Forms.{form as form_seen};
ghost use Rattle.words.specs.View.{kind as kind_seen};
ghost use Rattle.core_code.specs.View.{direction as direction_seen};
ghost use Rattle.semantics.specs.Word as semantics;
ghost use Rattle.walk_trees.specs.Shifts as sliding;
ghost use Rattle.path_steps.specs.Leads.{Leads};
ghost use Rattle.path_steps.specs.Refusals.{Stops};
ghost use Rattle.path_steps.specs.View.{followed, setting as seen, value as value_seen};
ghost use Rattle.path_walk.specs.OperatorSteps.{quotient_value, termed_value};

use crate::meeting::bits_from;
use crate::shifts::shifted_left;
use crate::widths::greatest;
use core_code::tree::Direction;
use domain::Domain;
use facts::{WalkError, between};
use linear::Form;
use path_steps::{
    Path, Setting, Value, any_of, invent, is_natural, is_number, known_form, tell_order_where,
    unknown,
};
use words::Kind;

/// The distance of a shift by a number: its lowest five bits (OpenCL 1.2, 6.3 j).
fn count_of(number: i64) -> u32
    ensures value { result ≡ semantics.count_of number }
    ensures few { result ≤ 31 }
{
    number.rem_euclid(32) as u32
}

/// The distance of a shift whose count is a number; else none.
fn count_in(count: &Form) -> Option<u32>
    ensures value { result ≡ sliding.count_in (form_seen count.now) }
    ensures few { IfSome result (λ n. n ≤ 31) }
{
    if is_number(count) {
        return Some(count_of(count.constant_part()));
    }
    None
}

/// The form is the number 1.
fn is_one(of: &Form) -> bool
    ensures { result ≡ sliding.is_one (form_seen of.now) }
{
    is_number(of) && of.constant_part() == 1
}

/// The domain's element of a value that is shifted to the left by an unknown count: `1u` becomes one of 2^0 to 2^31.
fn left_element<D: Domain>(setting: &Setting<D>, kind: Kind, of: &Form) -> D
    ensures { result ≡ sliding.left_element (seen D.Domain setting.now) (kind_seen kind) (form_seen of.now) }
{
    match kind {
        Kind::Uint if is_one(of) => between(1, 2_147_483_648),
        Kind::Int | Kind::Uint | Kind::Size => any_of(kind),
    }
}

/// The domain's element of a value that is shifted to the right by an unknown count: it is not negative where the value
/// was not.
fn right_element<D: Domain>(setting: &Setting<D>, path: &Path<D>, kind: Kind, of: &Form) -> D
    ensures { result ≡ sliding.right_element (seen D.Domain setting.now) (followed path.now).state (kind_seen kind) (form_seen of.now) }
{
    if is_natural(setting, path, kind, of) {
        return between(0, greatest(kind));
    }
    any_of(kind)
}

/// A value that is shifted to the right gets no greater, where it is not negative.
fn right_any<D: Domain>(
    setting: &Setting<D>,
    path: &mut Path<D>,
    kind: Kind,
    of: &Form,
) -> Result<Form, WalkError>
    ensures { MatchResult result (λ f. Leads (followed path.old) (followed path.new) (sliding.right_any (seen D.Domain setting.now) (kind_seen kind) (form_seen of.now)) (form_seen f)) (λ e. Stops (followed path.old) e (sliding.right_any (seen D.Domain setting.now) (kind_seen kind) (form_seen of.now))) }
{
    let is_natural = is_natural(setting, path, kind, of);
    let element = right_element(setting, path, kind, of);
    let shifted = invent(setting, path, element)?;
    tell_order_where(setting, path, is_natural, of, &shifted)?;
    Ok(shifted)
}

/// A value that is shifted by as many places as a term says.
fn by_term<D: Domain>(
    setting: &Setting<D>,
    path: &mut Path<D>,
    direction: Direction,
    kind: Kind,
    of: &Form,
) -> Result<Form, WalkError>
    ensures { MatchResult result (λ f. Leads (followed path.old) (followed path.new) (sliding.by_term (seen D.Domain setting.now) (direction_seen direction) (kind_seen kind) (form_seen of.now)) (form_seen f)) (λ e. Stops (followed path.old) e (sliding.by_term (seen D.Domain setting.now) (direction_seen direction) (kind_seen kind) (form_seen of.now))) }
{
    match direction {
        Direction::Leftward => {
            let element = left_element(setting, kind, of);
            invent(setting, path, element)
        }
        Direction::Rightward => right_any(setting, path, kind, of),
    }
}

/// The same as a value.
fn termed_value<D: Domain>(
    setting: &Setting<D>,
    path: &mut Path<D>,
    direction: Direction,
    kind: Kind,
    of: &Form,
) -> Result<Value, WalkError>
    ensures { MatchResult result (λ v. Leads (followed path.old) (followed path.new) (termed_value (seen D.Domain setting.now) (direction_seen direction) (kind_seen kind) (form_seen of.now)) (value_seen v)) (λ e. Stops (followed path.old) e (termed_value (seen D.Domain setting.now) (direction_seen direction) (kind_seen kind) (form_seen of.now))) }
{
    let form = by_term(setting, path, direction, kind, of)?;
    Ok(Value { kind, form })
}

/// A value that is shifted to the left by a number: a `uint` is the product.
fn left_by_number<D: Domain>(
    setting: &Setting<D>,
    path: &mut Path<D>,
    kind: Kind,
    count: u32,
    of: &Form,
) -> Result<Value, WalkError>
    requires { count ≤ 31 }
    ensures { MatchResult result (λ v. Leads (followed path.old) (followed path.new) (sliding.left_by_number (seen D.Domain setting.now) (kind_seen kind) count (form_seen of.now)) (value_seen v)) (λ e. Stops (followed path.old) e (sliding.left_by_number (seen D.Domain setting.now) (kind_seen kind) count (form_seen of.now))) }
{
    match kind {
        Kind::Int => unknown(setting, path, Kind::Int),
        Kind::Uint => shifted_left(setting, path, Kind::Uint, of, count),
        Kind::Size => unknown(setting, path, Kind::Size),
    }
}

/// A value that is shifted to the right by a number: the quotient, rounded down.
fn quotient_value<D: Domain>(
    setting: &Setting<D>,
    path: &mut Path<D>,
    kind: Kind,
    count: u32,
    of: &Form,
) -> Result<Value, WalkError>
    requires { count ≤ 31 }
    ensures { MatchResult result (λ v. Leads (followed path.old) (followed path.new) (quotient_value (seen D.Domain setting.now) (kind_seen kind) count (form_seen of.now)) (value_seen v)) (λ e. Stops (followed path.old) e (quotient_value (seen D.Domain setting.now) (kind_seen kind) count (form_seen of.now))) }
{
    let form = bits_from(setting, path, kind, of, count)?;
    Ok(Value { kind, form })
}

/// A value that is shifted by a number.
fn by_number<D: Domain>(
    setting: &Setting<D>,
    path: &mut Path<D>,
    direction: Direction,
    kind: Kind,
    count: u32,
    of: &Form,
) -> Result<Value, WalkError>
    requires { count ≤ 31 }
    ensures { MatchResult result (λ v. Leads (followed path.old) (followed path.new) (sliding.by_number (seen D.Domain setting.now) (direction_seen direction) (kind_seen kind) count (form_seen of.now)) (value_seen v)) (λ e. Stops (followed path.old) e (sliding.by_number (seen D.Domain setting.now) (direction_seen direction) (kind_seen kind) count (form_seen of.now))) }
{
    match direction {
        Direction::Leftward => left_by_number(setting, path, kind, count, of),
        Direction::Rightward => quotient_value(setting, path, kind, count, of),
    }
}

/// A value that is shifted by a number, or as a term says where none is known.
fn shift_by<D: Domain>(
    setting: &Setting<D>,
    path: &mut Path<D>,
    count: Option<u32>,
    direction: Direction,
    kind: Kind,
    of: &Form,
) -> Result<Value, WalkError>
    requires { IfSome count (λ n. n ≤ 31) }
    ensures { MatchResult result (λ v. Leads (followed path.old) (followed path.new) (sliding.shift_by (seen D.Domain setting.now) count (direction_seen direction) (kind_seen kind) (form_seen of.now)) (value_seen v)) (λ e. Stops (followed path.old) e (sliding.shift_by (seen D.Domain setting.now) count (direction_seen direction) (kind_seen kind) (form_seen of.now))) }
{
    match count {
        Some(count) => by_number(setting, path, direction, kind, count, of),
        None => termed_value(setting, path, direction, kind, of),
    }
}

/// A value of a kind, shifted by a form (OpenCL 1.2, 6.3 j; C99 6.5.7). A form that can be one number alone is taken as
/// that number.
pub fn shifted<D: Domain>(
    setting: &Setting<D>,
    path: &mut Path<D>,
    direction: Direction,
    kind: Kind,
    of: &Form,
    count: &Form,
) -> Result<Value, WalkError>
    ensures { MatchResult result (λ v. Leads (followed path.old) (followed path.new) (sliding.shifted (seen D.Domain setting.now) (direction_seen direction) (kind_seen kind) (form_seen of.now) (form_seen count.now)) (value_seen v)) (λ e. Stops (followed path.old) e (sliding.shifted (seen D.Domain setting.now) (direction_seen direction) (kind_seen kind) (form_seen of.now) (form_seen count.now))) }
{
    let known = known_form(setting, path, count)?;
    let count = count_in(&known);
    shift_by(setting, path, count, direction, kind, of)
}
