//! Forms of a certificate as forms of symbols.

ghost use Rattle.std.specs.Prelude.{◌≡◌, IfOk, map, [], ◌∷◌};
ghost use Rattle.std.specs.Option.{option_map};
ghost use Rattle.linear.specs.Forms.{form as form_seen};
ghost use Rattle.linear.specs.Exact as exact;
ghost use Rattle.certificate.specs.View as view;
ghost use Rattle.certificate_notes.specs.Sights as sights;
ghost use Rattle.certificate_notes.specs.View.{chart as chart_seen, sight as sight_seen};

use crate::chart::Chart;
use crate::error::NamesError;
use crate::sight::{Sight, symbol};
use certificate::tree;
use linear::{Form, LinearError, Symbol};
use std::alloc::Global;

/// A multiple of a form, where it is one.
fn multiple_of(alloc: Global, form: &Form, by: i64) -> Result<Option<Form>, NamesError>
    ensures { IfOk result (λ r. option_map form_seen r ≡ sights.fitting (exact.multiple by (form_seen form.now))) }
{
    match form.times(alloc, by) {
        Ok(multiple) => Ok(Some(multiple)),
        Err(LinearError::TooLarge) => Ok(None),
        Err(LinearError::Memory) => Err(NamesError::Memory),
    }
}

/// The sum of two forms, where it is one.
fn sum_of(alloc: Global, form: &Form, other: &Form) -> Result<Option<Form>, NamesError>
    ensures { IfOk result (λ r. option_map form_seen r ≡ sights.fitting (exact.sum (form_seen form.now) (form_seen other.now))) }
{
    match form.add(alloc, other) {
        Ok(sum) => Ok(Some(sum)),
        Err(LinearError::TooLarge) => Ok(None),
        Err(LinearError::Memory) => Err(NamesError::Memory),
    }
}

/// A form and a multiple of a symbol.
fn with_term(
    alloc: Global,
    form: &Form,
    coefficient: i64,
    symbol: Symbol,
) -> Result<Option<Form>, NamesError>
    ensures { IfOk result (λ r. option_map form_seen r ≡ sights.with_term coefficient (form_seen form.now) symbol.number) }
{
    let once = Form::symbol(alloc, symbol)?;
    let Some(some) = multiple_of(alloc, &once, coefficient)? else {
        return Ok(None);
    };
    sum_of(alloc, form, &some)
}

/// A form with a term more, where its name is a symbol.
fn with_named(
    alloc: Global,
    chart: &Chart<'_>,
    sight: &Sight<'_>,
    form: &Form,
    term: &tree::Term,
) -> Result<Option<Form>, NamesError>
    ensures { IfOk result (λ r. option_map form_seen r ≡ sights.added (chart_seen chart.now) (sight_seen sight.now) (view.term term.now ∷ []) (form_seen form.now)) }
{
    let Some(symbol) = symbol(alloc, chart, sight, &term.name)? else {
        return Ok(None);
    };
    with_term(alloc, form, term.coefficient, symbol)
}

/// A form with more terms, where their names are symbols.
fn with_terms(
    alloc: Global,
    chart: &Chart<'_>,
    sight: &Sight<'_>,
    form: Form,
    terms: &[tree::Term],
) -> Result<Option<Form>, NamesError>
    ensures { IfOk result (λ r. option_map form_seen r ≡ sights.added (chart_seen chart.now) (sight_seen sight.now) (map view.term terms.now) (form_seen form)) }
{
    let mut sum = form;
    for term in terms {
        let Some(more) = with_named(alloc, chart, sight, &sum, term)? else {
            return Ok(None);
        };
        sum = more;
    }
    Ok(Some(sum))
}

/// A form of a certificate in symbols; none where a name means none of those that may stand there.
pub fn fact(
    alloc: Global,
    chart: &Chart<'_>,
    sight: &Sight<'_>,
    form: &tree::Form,
) -> Result<Option<Form>, NamesError>
    ensures { IfOk result (λ r. option_map form_seen r ≡ sights.fact (chart_seen chart.now) (sight_seen sight.now) (view.form form.now)) }
{
    let constant = Form::constant(alloc, form.constant);
    with_terms(alloc, chart, sight, constant, form.terms.as_slice())
}
