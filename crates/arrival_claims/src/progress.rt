//! What a loop's ranking does, by forms that are at least 0.

ghost use Rattle.std.specs.Prelude.{◌≡◌, ◌<◌, ◌≤◌, pos, negsuc, MatchResult};
ghost use Rattle.linear.specs.Exact.{sum};
ghost use Rattle.linear.specs.Forms.{form as form_seen};
ghost use Rattle.facts.specs.Refusals.{IsUnfit};
ghost use Rattle.facts.specs.Symbols.{minus, constant};
ghost use Rattle.obligations.specs.Notes as notes;
ghost use Rattle.arrival_claims.specs.Bounds.{bound};

use crate::dividing::{difference, times};
use facts::{WalkError, less_number, number_less};
use linear::Form;
use std::alloc::Global;

/// The change of a loop's form in each turn: it falls by a step at least, or to a half at most, or doubles at least.
#[derive(Clone, Copy, Drop)]
pub enum Progress {
    Down { step: u64, most: i64 },
    Halving { most: i64 },
    Doubling { least: i64, most: i64 },
}

/// The form that is at least 0 where the loop opens.
pub fn opens(alloc: Global, progress: Progress, now: &Form) -> Result<Form, WalkError>
    ensures { MatchResult result (λ f. form_seen f ≡ notes.opens (bound progress) (form_seen now.now)) (λ e. IsUnfit e (notes.opens (bound progress) (form_seen now.now))) }
{
    match progress {
        Progress::Down { most, .. } => number_less(alloc, most, now),
        Progress::Halving { most } => number_less(alloc, most, now),
        Progress::Doubling { least, .. } => less_number(alloc, now, least),
    }
}

/// The form that is at least 0 where the loop's test is true.
pub fn holds(alloc: Global, progress: Progress, now: &Form) -> Result<Form, WalkError>
    ensures { MatchResult result (λ f. form_seen f ≡ notes.holds (bound progress) (form_seen now.now)) (λ e. IsUnfit e (notes.holds (bound progress) (form_seen now.now))) }
{
    match progress {
        Progress::Down { .. } => less_number(alloc, now, 1),
        Progress::Halving { .. } => less_number(alloc, now, 1),
        Progress::Doubling { most, .. } => number_less(alloc, most, now),
    }
}

/// A form less a number below 2^63.
fn less_small(alloc: Global, of: &Form, number: u64) -> Result<Form, WalkError>
    requires { number < 9223372036854775808 }
    ensures { MatchResult result (λ f. form_seen f ≡ minus (form_seen of.now) (constant (pos number))) (λ e. IsUnfit e (minus (form_seen of.now) (constant (pos number)))) }
{
    less_number(alloc, of, number as i64)
}

/// A form less 2^63.
fn less_most(alloc: Global, of: &Form) -> Result<Form, WalkError>
    ensures { MatchResult result (λ f. form_seen f ≡ sum (form_seen of.now) (constant (negsuc 9223372036854775807))) (λ e. IsUnfit e (sum (form_seen of.now) (constant (negsuc 9223372036854775807)))) }
{
    let most = Form::constant(alloc, i64::MIN);
    let form = of.add(alloc, &most)?;
    Ok(form)
}

/// A form less a number of 2^63 or more: less what the number has above 2^63, then less 2^63.
fn less_large(alloc: Global, of: &Form, number: u64) -> Result<Form, WalkError>
    requires { 9223372036854775808 ≤ number }
    ensures { MatchResult result (λ f. form_seen f ≡ minus (form_seen of.now) (constant (pos number))) (λ e. IsUnfit e (minus (form_seen of.now) (constant (pos number)))) }
{
    let above = number - (1 << 63);
    let less = less_small(alloc, of, above)?;
    let form = less_most(alloc, &less)?;
    Ok(form)
}

/// A form less a number.
fn less_natural(alloc: Global, of: &Form, number: u64) -> Result<Form, WalkError>
    ensures { MatchResult result (λ f. form_seen f ≡ minus (form_seen of.now) (constant (pos number))) (λ e. IsUnfit e (minus (form_seen of.now) (constant (pos number)))) }
{
    if number >= 1 << 63 {
        return less_large(alloc, of, number);
    }
    less_small(alloc, of, number)
}

/// The form that is made on the way to the claim after a turn: by how much the ranking fell, or the double of its new value where it is
/// to halve, and of the old one where it is to double.
pub fn fallen_by(
    alloc: Global,
    progress: Progress,
    before: &Form,
    now: &Form,
) -> Result<Form, WalkError>
    ensures { MatchResult result (λ f. form_seen f ≡ notes.fallen_by (bound progress) (form_seen before.now) (form_seen now.now)) (λ e. IsUnfit e (notes.fallen_by (bound progress) (form_seen before.now) (form_seen now.now))) }
{
    match progress {
        Progress::Down { .. } => difference(alloc, before, now),
        Progress::Halving { .. } => times(alloc, 2, now),
        Progress::Doubling { .. } => times(alloc, 2, before),
    }
}

/// The form that is at least 0 after a turn.
pub fn fallen(
    alloc: Global,
    progress: Progress,
    before: &Form,
    now: &Form,
    way: &Form,
) -> Result<Form, WalkError>
    requires { form_seen way.now ≡ notes.fallen_by (bound progress) (form_seen before.now) (form_seen now.now) }
    ensures { MatchResult result (λ f. form_seen f ≡ notes.fallen (bound progress) (form_seen before.now) (form_seen now.now)) (λ e. IsUnfit e (notes.fallen (bound progress) (form_seen before.now) (form_seen now.now))) }
{
    match progress {
        Progress::Down { step, .. } => less_natural(alloc, way, step),
        Progress::Halving { .. } => difference(alloc, before, way),
        Progress::Doubling { .. } => difference(alloc, now, way),
    }
}
