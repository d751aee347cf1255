//! Numbers by the places of their bits.

ghost use Rattle.std.specs.Prelude.{◌≡◌, ◌≤◌, ◌<◌, ◌^◌, ◌+ℤ◌, ◌≤ℤ◌, pos, cond, Some, IfSome};
ghost use Rattle.std.specs.Ordering.{int_eq};
ghost use Rattle.linear.specs.Forms.{form as form_seen};
ghost use Rattle.words.specs.View.{kind as kind_seen};
ghost use Rattle.walk_trees.specs.Quotients as quotients;
ghost use Rattle.walk_trees.specs.Bits as bits;

use crate::powers::{is_power, is_power_of, power_of};
use linear::Form;
use path_steps::is_number;
use words::Kind;

/// A number and a power of 2 are so much together.
fn is_total(number: i64, lowest: u32, total: i64) -> bool
    requires lowest { lowest ≤ 31 }
    requires total { pos 0 ≤ℤ total }
    ensures { result ≡ int_eq (number +ℤ pos (2 ^ lowest)) total }
{
    number == total - power_of(lowest)
}

/// All bits of a number of this kind from a place on.
pub fn is_upper(kind: Kind, lowest: u32, number: i64) -> bool
    requires { lowest ≤ 31 }
    ensures { result ≡ bits.is_upper (kind_seen kind) lowest number }
{
    match kind {
        Kind::Int => is_total(number, lowest, 0),
        Kind::Uint | Kind::Size => is_total(number, lowest, 4_294_967_296),
    }
}

/// A number and a power of 2 are together one of the powers from 2^0 to 2^31.
fn is_power_with(number: i64, lowest: u32) -> bool
    requires { lowest ≤ 31 }
    ensures { result ≡ quotients.is_power 31 (number +ℤ pos (2 ^ lowest)) }
{
    number < 4_294_967_296 && is_power(31, number + power_of(lowest))
}

/// The bits of a number are all those from a place on, or those from it up to below another.
fn is_run(kind: Kind, lowest: u32, number: i64) -> bool
    requires { lowest ≤ 31 }
    ensures { result ≡ bits.is_run (kind_seen kind) lowest number }
{
    is_upper(kind, lowest, number) || number > 0 && is_power_with(number, lowest)
}

/// A place, where it is one, or what was found before it.
fn place_or(is_one: bool, place: u32, before: Option<u32>) -> Option<u32>
    ensures { result ≡ cond is_one (Some place) before }
{
    if is_one { Some(place) } else { before }
}

/// The lowest place of a run, from 1 to the most; of several the highest.
fn run_of(most: u32, kind: Kind, number: i64) -> Option<u32>
    requires { most ≤ 31 }
    ensures { result ≡ bits.run_of most (kind_seen kind) number }
{
    let mut found = None;
    for smaller in 0..most {
        found = place_or(is_run(kind, smaller + 1, number), smaller + 1, found);
    }
    found
}

/// The run that a form is, if it is a number.
pub fn run_in(kind: Kind, form: &Form) -> Option<u32>
    ensures { result ≡ bits.run_in (kind_seen kind) (form_seen form.now) }
{
    if is_number(form) {
        return run_of(31, kind, form.constant_part());
    }
    None
}

/// The place of the only bit of a number, from 0 to the most.
fn bit_of(most: u32, number: i64) -> Option<u32>
    requires { most ≤ 31 }
    ensures { result ≡ bits.bit_of most number }
{
    let mut found = place_or(is_power_of(number, 0), 0, None);
    for smaller in 0..most {
        found = place_or(is_power_of(number, smaller + 1), smaller + 1, found);
    }
    found
}

/// The place of the only bit of a form that is a number.
pub fn bit_in(form: &Form) -> Option<u32>
    ensures { result ≡ bits.bit_in (form_seen form.now) }
{
    if is_number(form) {
        return bit_of(30, form.constant_part());
    }
    None
}
