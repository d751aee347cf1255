//! The quotients by forms that a path has.

ghost use Rattle.std.specs.Prelude.{◌≡◌, None, Some, map, reverse, MatchOption, MatchResult};
ghost use Rattle.linear.specs.Forms.{form as form_seen};
ghost use Rattle.linear.specs.Terms.{term as term_seen, terms as terms_seen};
ghost use Rattle.facts.specs.Refusals.{IsMemory};
ghost use Rattle.walk_trees.specs.Shares as shares;
ghost use Rattle.path_steps.specs.Paths.{with_shared};
ghost use Rattle.path_steps.specs.View.{followed, maybe_shared, shared_seen};

use crate::path::{Path, Shared};
use crate::tests::copied;
use facts::WalkError;
use linear::{Form, Term};
use std::alloc::Global;

/// Two terms are the same.
fn is_same_term(left: Term, right: Term) -> bool
    ensures { result ≡ shares.is_same_term (term_seen left) (term_seen right) }
{
    left.coefficient == right.coefficient && left.symbol.number == right.symbol.number
}

/// Two lists of terms are the same, in order.
fn are_same_terms(left: &[Term], right: &[Term]) -> bool
    ensures { result ≡ shares.are_same_terms (terms_seen left.now) (terms_seen right.now) }
{
    if left.len() != right.len() {
        return false;
    }
    for i in 0..left.len() {
        if !is_same_term(left[i], right[i]) {
            return false;
        }
    }
    true
}

/// Two forms have the same terms and the same constant.
fn is_same(left: &Form, right: &Form) -> bool
    ensures { result ≡ shares.is_same (form_seen left.now) (form_seen right.now) }
{
    are_same_terms(left.terms(), right.terms()) && left.constant_part() == right.constant_part()
}

/// A quotient is that of a dividend and a divisor.
fn is_of(shared: &Shared, dividend: &Form, divisor: &Form) -> bool
    ensures { result ≡ shares.is_of (form_seen dividend.now) (form_seen divisor.now) (shared_seen shared.now) }
{
    is_same(&shared.dividend, dividend) && is_same(&shared.divisor, divisor)
}

/// The latest quotient of a dividend and a divisor.
fn last_of<'q>(quotients: &'q [Shared], dividend: &Form, divisor: &Form) -> Option<&'q Shared>
    ensures { MatchOption result (shares.shared_of (form_seen dividend.now) (form_seen divisor.now) (reverse (map shared_seen quotients.now)) ≡ None) (λ q. shares.shared_of (form_seen dividend.now) (form_seen divisor.now) (reverse (map shared_seen quotients.now)) ≡ Some (shared_seen q.now)) }
{
    let mut at = quotients.len();
    while at > 0 {
        at -= 1;
        if is_of(&quotients[at], dividend, divisor) {
            return Some(&quotients[at]);
        }
    }
    None
}

/// A quotient of two forms, with what it leaves.
fn shared(
    alloc: Global,
    dividend: &Form,
    divisor: &Form,
    quotient: &Form,
    left: &Form,
) -> Result<Shared, WalkError>
    ensures { MatchResult result (λ q. shared_seen q ≡ record { dividend = form_seen dividend.now; divisor = form_seen divisor.now; quotient = form_seen quotient.now; left = form_seen left.now }) IsMemory }
{
    let dividend = copied(alloc, dividend)?;
    let divisor = copied(alloc, divisor)?;
    let quotient = copied(alloc, quotient)?;
    let left = copied(alloc, left)?;
    Ok(Shared {
        dividend,
        divisor,
        quotient,
        left,
    })
}

/// The same quotient once more.
fn again(alloc: Global, of: &Shared) -> Result<Shared, WalkError>
    ensures { MatchResult result (λ q. shared_seen q ≡ shared_seen of.now) IsMemory }
{
    shared(alloc, &of.dividend, &of.divisor, &of.quotient, &of.left)
}

#[tactic(auto, unfolding(crate::specs::View::followed))]
/// The latest quotient of a dividend and a divisor on a path.
pub fn found_quotient<D: Copy>(
    alloc: Global,
    path: &Path<D>,
    dividend: &Form,
    divisor: &Form,
) -> Result<Option<Shared>, WalkError>
    ensures { MatchResult result (λ q. maybe_shared q ≡ shares.shared_of (form_seen dividend.now) (form_seen divisor.now) (followed path.now).state.quotients) IsMemory }
{
    match last_of(path.quotients.as_slice(), dividend, divisor) {
        Some(found) => Ok(Some(again(alloc, found)?)),
        None => Ok(None),
    }
}

/// Keeps a quotient of two forms on the path, and gives it.
pub fn keep<D: Copy>(
    alloc: Global,
    path: &mut Path<D>,
    dividend: &Form,
    divisor: &Form,
    quotient: &Form,
    left: &Form,
) -> Result<Shared, WalkError>
    ensures { MatchResult result (λ q. (shared_seen q ≡ record { dividend = form_seen dividend.now; divisor = form_seen divisor.now; quotient = form_seen quotient.now; left = form_seen left.now }) × (followed path.new ≡ with_shared (followed path.old) (shared_seen q))) IsMemory }
{
    let kept = shared(alloc, dividend, divisor, quotient, left)?;
    path.keep(again(alloc, &kept)?)?;
    Ok(kept)
}
