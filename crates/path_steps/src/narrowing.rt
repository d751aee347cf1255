//! What facts of tests narrow.

ghost use Rattle.std.specs.Prelude.{◌≡◌, neg_ℤ, Some, MatchResult};
ghost use Rattle.linear.specs.Exact.{fits_i64};
ghost use Rattle.linear.specs.Forms.{form as form_seen};
ghost use Rattle.linear.specs.Terms.{term as term_seen};
ghost use Rattle.facts.specs.Refusals.{IsMemory};
ghost use Rattle.facts.specs.View.{known_seen};
ghost use Rattle.walk_trees.specs.Held as held;
ghost use Rattle.path_steps.specs.Paths.{with_held};
ghost use Rattle.path_steps.specs.View.{followed};

use crate::held::{element_number, element_without};
use crate::path::Path;
use crate::setting::Setting;
use domain::Domain;
use facts::WalkError;
use linear::{Form, Symbol, Term};

/// A symbol is at least what denies the upper end of the rest, unless that leaves 64 bits.
fn narrow_below<D: Domain>(
    path: &mut Path<D>,
    symbol: Symbol,
    element: D,
    high: i64,
) -> Result<(), WalkError>
    ensures { MatchResult result (λ _. followed path.new ≡ with_held (followed path.old) (held.from_below D.Domain (fits_i64 (neg_ℤ high)) symbol.number element (neg_ℤ high) (followed path.old).state.held)) IsMemory }
{
    if high == i64::MIN {
        return Ok(());
    }
    path.narrow(symbol, element.at_least(-high))?;
    Ok(())
}

/// Narrows the symbol of a term with coefficient 1 or -1 in a form that is at least 0, where the rest of the form is at most `high`.
fn narrow_by<D: Domain>(
    path: &mut Path<D>,
    term: Term,
    element: D,
    high: i64,
) -> Result<(), WalkError>
    ensures { MatchResult result (λ _. followed path.new ≡ with_held (followed path.old) (held.narrowed_by D.Domain (term_seen term).coefficient (term_seen term).symbol element (Some high) (followed path.old).state.held)) IsMemory }
{
    if term.coefficient == 1 {
        return narrow_below(path, term.symbol, element, high);
    }
    if term.coefficient == -1 {
        path.narrow(term.symbol, element.at_most(high))?;
    }
    Ok(())
}

/// Narrows the symbol of one term of a form that is at least 0, by the upper end of the form's other terms.
fn narrow_one<D: Domain>(
    setting: &Setting<D>,
    path: &mut Path<D>,
    form: &Form,
    term: Term,
) -> Result<(), WalkError>
    ensures { MatchResult result (λ _. followed path.new ≡ with_held (followed path.old) (held.narrow_one D.Domain (known_seen setting.now.known) (form_seen form.now) (term_seen term) (followed path.old).state.held)) IsMemory }
{
    let element = element_number(setting, path, term.symbol);
    let rest = element_without(setting, path, form, term.symbol);
    match rest.bounds().high {
        Some(high) => narrow_by(path, term, element, high),
        None => Ok(()),
    }
}

/// Narrows the symbols of a form that is at least 0, one after another.
pub fn narrow<D: Domain>(
    setting: &Setting<D>,
    path: &mut Path<D>,
    form: &Form,
) -> Result<(), WalkError>
    ensures { MatchResult result (λ _. followed path.new ≡ with_held (followed path.old) (held.narrow D.Domain (known_seen setting.now.known) (form_seen form.now) (followed path.old).state.held)) IsMemory }
{
    for term in form.terms() {
        narrow_one(setting, path, form, *term)?;
    }
    Ok(())
}
