//! How many bits numbers have.

ghost use Rattle.std.specs.Prelude.{◌≡◌, ◌≤◌, ◌^◌, ◌+◌, ◌-ℤ◌, int_le, pos, cond};
ghost use Rattle.linear.specs.Forms.{form as form_seen};
ghost use Rattle.words.specs.View.{kind as kind_seen};
ghost use Rattle.walk_trees.specs.Walks as walks;
ghost use Rattle.walk_trees.specs.Bits as bits;
ghost use Rattle.path_steps.specs.View.{followed, setting as seen};

use crate::powers::power_of;
use domain::Domain;
use facts::between;
use linear::Form;
use path_steps::{Path, Setting, bounds_of};
use words::Kind;

/// The greatest number of a kind.
pub fn greatest(kind: Kind) -> i64
    ensures { result ≡ walks.greatest (kind_seen kind) }
{
    match kind {
        Kind::Int => 2_147_483_647,
        Kind::Uint | Kind::Size => 4_294_967_295,
    }
}

/// The greatest number of so many bits.
fn all_bits(count: u32) -> i64
    requires { count ≤ 32 }
    ensures { result ≡ pos (2 ^ count) -ℤ pos 1 }
{
    power_of(count) - 1
}

/// `found` where the number has at most `count` bits, and else the greatest number of one bit more.
fn width_or(number: i64, count: u32, found: i64) -> i64
    requires { count ≤ 31 }
    ensures { result ≡ cond (int_le number (pos (2 ^ count) -ℤ pos 1)) found (pos (2 ^ (count + 1)) -ℤ pos 1) }
{
    if number <= all_bits(count) {
        found
    } else {
        all_bits(count + 1)
    }
}

/// The greatest number of as many bits as a number has, which are at most so many.
fn widest(most: u32, number: i64) -> i64
    requires { most ≤ 32 }
    ensures { result ≡ bits.widest most number }
{
    let mut found = 0;
    for smaller in 0..most {
        found = width_or(number, smaller, found);
    }
    found
}

/// An upper end, or that of a kind.
fn upper(kind: Kind, high: Option<i64>) -> i64
    ensures { result ≡ bits.upper (kind_seen kind) high }
{
    match high {
        Some(high) if high < greatest(kind) => high,
        _ => greatest(kind),
    }
}

/// The greater one of two numbers.
fn greater(left: i64, right: i64) -> i64
    ensures { result ≡ bits.greater left right }
{
    if left < right { right } else { left }
}

/// A form's upper end on the path, or that of its kind.
fn upper_of<D: Domain>(setting: &Setting<D>, path: &Path<D>, kind: Kind, form: &Form) -> i64
    ensures { result ≡ bits.upper (kind_seen kind) (walks.bounds_of (seen D.Domain setting.now) (followed path.now).state (form_seen form.now)).high }
{
    upper(kind, bounds_of(setting, path, form).high)
}

/// The range from 0 to the largest number with as many bits as two forms can have. Neither is negative.
pub fn joined<D: Domain>(
    setting: &Setting<D>,
    path: &Path<D>,
    kind: Kind,
    left: &Form,
    right: &Form,
) -> D
    ensures { result ≡ bits.joined (seen D.Domain setting.now) (followed path.now).state (kind_seen kind) (form_seen left.now) (form_seen right.now) }
{
    let most = greater(
        upper_of(setting, path, kind, left),
        upper_of(setting, path, kind, right),
    );
    between(0, widest(32, most))
}
