//! What the symbols of a place are on a path, products of them too.

ghost use Rattle.std.specs.Prelude.{◌≡◌, None, Some, MatchOption, MatchResult};
ghost use Rattle.linear.specs.Forms.{form as form_seen};
ghost use Rattle.linear.specs.Products.{unpacked, factors as factors_of, product, replaced_product};
ghost use Rattle.linear.specs.Terms.{terms as terms_seen};
ghost use Rattle.facts.specs.Refusals.{IsMemory};
ghost use Rattle.obligations.specs.Replacing as replacing;
ghost use Rattle.obligations.specs.Walking.{on_path};
ghost use Rattle.path_steps.specs.View.{followed};
ghost use Rattle.arrival_claims.specs.View.{placed};

use crate::placing::Placing;
use crate::symbols::symbol_form;
use domain::Domain;
use facts::WalkError;
use linear::{Form, Symbol, Term};
use path_steps::Path;

/// The product of a form and what a factor is on the path, if it has one.
fn times_factor<D: Domain>(
    placing: &Placing<'_, D>,
    path: &Path<D>,
    form: &Form,
    factor: Symbol,
) -> Result<Option<Form>, WalkError>
    ensures { MatchResult result (λ r. MatchOption r (product (form_seen form.now) (on_path (placed D.Domain placing.now) (followed path.now).state factor.number) ≡ None) (λ f. product (form_seen form.now) (on_path (placed D.Domain placing.now) (followed path.now).state factor.number) ≡ Some (form_seen f))) IsMemory }
{
    let other = symbol_form(placing, path, factor)?;
    let product = form.product(placing.setting.alloc, &other)?;
    Ok(product)
}

/// The product of what the factors are on the path, of which a number holds three at most, from the left; if it is one.
fn factors_form<D: Domain>(
    placing: &Placing<'_, D>,
    path: &Path<D>,
    number: u64,
) -> Result<Option<Form>, WalkError>
    ensures { MatchResult result (λ r. MatchOption r (replaced_product (on_path (placed D.Domain placing.now) (followed path.now).state) (unpacked 3 number) ≡ None) (λ f. replaced_product (on_path (placed D.Domain placing.now) (followed path.now).state) (unpacked 3 number) ≡ Some (form_seen f))) IsMemory }
{
    let digit = number % 1048576;
    if digit == 0 {
        return Ok(Some(Form::constant(placing.setting.alloc, 1)));
    }
    let mut so_far = symbol_form(placing, path, Symbol { number: digit - 1 })?;
    let mut left = number / 1048576;
    let mut most: u32 = 2;
    while most > 0 {
        let digit = left % 1048576;
        if digit == 0 {
            return Ok(Some(so_far));
        }
        let factor = Symbol { number: digit - 1 };
        let Some(product) = times_factor(placing, path, &so_far, factor)? else {
            return Ok(None);
        };
        so_far = product;
        left /= 1048576;
        most -= 1;
    }
    Ok(Some(so_far))
}

/// What a symbol is on the path, a product by its factors.
fn number_form<D: Domain>(
    placing: &Placing<'_, D>,
    path: &Path<D>,
    symbol: Symbol,
) -> Result<Option<Form>, WalkError>
    ensures { MatchResult result (λ r. MatchOption r (replaced_product (on_path (placed D.Domain placing.now) (followed path.now).state) (factors_of symbol.number) ≡ None) (λ f. replaced_product (on_path (placed D.Domain placing.now) (followed path.now).state) (factors_of symbol.number) ≡ Some (form_seen f))) IsMemory }
{
    if symbol.number % 16 == 15 {
        return factors_form(placing, path, symbol.number / 16);
    }
    let form = symbol_form(placing, path, symbol)?;
    Ok(Some(form))
}

/// What a symbol is on the path; 0 where it is a product that has no form there.
pub fn form_of<D: Domain>(
    placing: &Placing<'_, D>,
    path: &Path<D>,
    symbol: Symbol,
) -> Result<Form, WalkError>
    ensures { MatchResult result (λ f. form_seen f ≡ replacing.form_of (on_path (placed D.Domain placing.now) (followed path.now).state) symbol.number) IsMemory }
{
    match number_form(placing, path, symbol)? {
        Some(form) => Ok(form),
        None => Ok(Form::constant(placing.setting.alloc, 0)),
    }
}

/// Whether a symbol that may be a product has a form on the path.
fn has_form<D: Domain>(
    placing: &Placing<'_, D>,
    path: &Path<D>,
    symbol: Symbol,
) -> Result<bool, WalkError>
    ensures { MatchResult result (λ b. b ≡ replacing.is_form (replaced_product (on_path (placed D.Domain placing.now) (followed path.now).state) (factors_of symbol.number))) IsMemory }
{
    if symbol.number % 16 != 15 {
        return Ok(true);
    }
    match factors_form(placing, path, symbol.number / 16)? {
        Some(_) => Ok(true),
        None => Ok(false),
    }
}

/// Whether each product of these terms has a form on the path.
fn are_replaceable<D: Domain>(
    placing: &Placing<'_, D>,
    path: &Path<D>,
    terms: &[Term],
) -> Result<bool, WalkError>
    ensures { MatchResult result (λ b. b ≡ replacing.are_replaceable (on_path (placed D.Domain placing.now) (followed path.now).state) (terms_seen terms.now)) IsMemory }
{
    for term in terms {
        if !has_form(placing, path, term.symbol)? {
            return Ok(false);
        }
    }
    Ok(true)
}

/// Whether each product of a form has a form on the path.
pub fn is_replaceable<D: Domain>(
    placing: &Placing<'_, D>,
    path: &Path<D>,
    form: &Form,
) -> Result<bool, WalkError>
    ensures { MatchResult result (λ b. b ≡ replacing.is_replaceable (on_path (placed D.Domain placing.now) (followed path.now).state) (form_seen form.now)) IsMemory }
{
    are_replaceable(placing, path, form.terms())
}
