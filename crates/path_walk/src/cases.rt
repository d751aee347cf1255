//! Which form a result has.

ghost use Rattle.std.specs.Prelude.{◌≡◌};
ghost use Rattle.linear.specs.Forms.{form as form_seen};
ghost use Rattle.words.specs.View.{kind as kind_seen};
ghost use Rattle.walk_trees.specs.Operators as operators;
ghost use Rattle.path_steps.specs.View.{followed, setting as seen};

use crate::powers::is_low_bits;
use domain::Domain;
use linear::Form;
use path_steps::{Path, Setting, is_number, settles};
use words::Kind;

/// The lowest bits of a `uint` or a size; in the wide walk those of an `int`, too.
pub fn is_mask(is_wide: bool, kind: Kind, form: &Form) -> bool
    ensures { result ≡ operators.is_mask is_wide (kind_seen kind) (form_seen form.now) }
{
    match kind {
        Kind::Int => is_wide && is_number(form) && is_low_bits(31, form.constant_part()),
        Kind::Uint | Kind::Size => is_number(form) && is_low_bits(32, form.constant_part()),
    }
}

/// The domain knows two forms to be at least 0.
pub fn are_from_zero<D: Domain>(
    setting: &Setting<D>,
    path: &Path<D>,
    left: &Form,
    right: &Form,
) -> bool
    ensures { result ≡ operators.are_from_zero (seen D.Domain setting.now) (followed path.now).state (form_seen left.now) (form_seen right.now) }
{
    settles(setting, path, left) && settles(setting, path, right)
}
