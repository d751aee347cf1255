//! Facts that narrow, other than those of tests.

ghost use Rattle.std.specs.Prelude.{◌≡◌, true, MatchResult};
ghost use Rattle.linear.specs.Forms.{form as form_seen};
ghost use Rattle.facts.specs.Symbols.{minus};
ghost use Rattle.walk_trees.specs.Bits.{tell_where};
ghost use Rattle.path_steps.specs.Leads.{Steps};
ghost use Rattle.path_steps.specs.Refusals.{StopsAtStep};
ghost use Rattle.path_steps.specs.View.{followed, setting as seen};

use crate::narrowing::narrow;
use crate::path::Path;
use crate::setting::Setting;
use crate::tests::difference;
use domain::Domain;
use facts::WalkError;
use linear::Form;

/// A fact, which narrows.
pub fn tell<D: Domain>(
    setting: &Setting<D>,
    path: &mut Path<D>,
    fact: Form,
) -> Result<(), WalkError>
    ensures { MatchResult result (λ _. Steps (followed path.old) (followed path.new) (tell_where (seen D.Domain setting.now) true (form_seen fact))) (λ e. StopsAtStep (followed path.old) e (tell_where (seen D.Domain setting.now) true (form_seen fact))) }
{
    narrow(setting, path, &fact)?;
    path.know(fact)?;
    Ok(())
}

/// One form is at least another, which narrows.
fn tell_order<D: Domain>(
    setting: &Setting<D>,
    path: &mut Path<D>,
    greater: &Form,
    lesser: &Form,
) -> Result<(), WalkError>
    ensures { MatchResult result (λ _. Steps (followed path.old) (followed path.new) (tell_where (seen D.Domain setting.now) true (minus (form_seen greater.now) (form_seen lesser.now)))) (λ e. StopsAtStep (followed path.old) e (tell_where (seen D.Domain setting.now) true (minus (form_seen greater.now) (form_seen lesser.now)))) }
{
    let fact = difference(setting.alloc, greater, lesser)?;
    tell(setting, path, fact)
}

/// Where it is so, one form is at least another, which narrows.
pub fn tell_order_where<D: Domain>(
    setting: &Setting<D>,
    path: &mut Path<D>,
    is_so: bool,
    greater: &Form,
    lesser: &Form,
) -> Result<(), WalkError>
    ensures { MatchResult result (λ _. Steps (followed path.old) (followed path.new) (tell_where (seen D.Domain setting.now) is_so (minus (form_seen greater.now) (form_seen lesser.now)))) (λ e. StopsAtStep (followed path.old) e (tell_where (seen D.Domain setting.now) is_so (minus (form_seen greater.now) (form_seen lesser.now)))) }
{
    if is_so {
        return tell_order(setting, path, greater, lesser);
    }
    Ok(())
}
