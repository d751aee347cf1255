//! Claims, new symbols, and the ranges of kinds.

ghost use Rattle.std.specs.Prelude.{◌≡◌, ◌<◌, ◌^◌, ◌⊎◌, pos, Some, List, length, IfOk, IfErr, MatchResult};
ghost use Rattle.linear.specs.Forms.{form as form_seen};
ghost use Rattle.linear.specs.Sizes.{size};
ghost use Rattle.words.specs.View.{kind as kind_seen};
ghost use Rattle.semantics.specs.Word.{Uint};
ghost use Rattle.walk_trees.specs.Values as values;
ghost use Rattle.walk_trees.specs.Walks as walks;
ghost use Rattle.walk_trees.specs.Operators as operators;
ghost use Rattle.facts.specs.Symbols.{Fact};
ghost use Rattle.walk_trees.specs.Trees.{Tree};
ghost use Rattle.path_steps.specs.Paths.{collect};
ghost use Rattle.path_steps.specs.Leads.{Steps, Leads, LeadsTwo};
ghost use Rattle.facts.specs.Refusals.{IsUnfit};
ghost use Rattle.path_steps.specs.Refusals.{Refused, StopsAtStep, Stops, StopsTwo};
ghost use Rattle.path_steps.specs.View.{followed, setting as seen, sort as sort_seen, value as value_seen};

use crate::held::settles;
use crate::path::{Goal, Path, Sort, Value};
use crate::setting::Setting;
use domain::Domain;
use facts::{Side, WalkError, between, less_number, number_less, once_new};
use linear::Form;
use std::alloc::Global;
use words::Kind;

/// A claim that a form is at least 0.
pub fn claim_form<D: Domain>(
    setting: &Setting<D>,
    path: &mut Path<D>,
    sort: Sort,
    needed: bool,
    form: Form,
) -> Result<(), WalkError>
    ensures { MatchResult result (λ _. Steps (followed path.old) (followed path.new) (walks.claim_form (seen D.Domain setting.now) (sort_seen sort) needed (form_seen form))) (λ e. StopsAtStep (followed path.old) e (walks.claim_form (seen D.Domain setting.now) (sort_seen sort) needed (form_seen form))) }
{
    let settled = settles(setting, path, &form);
    path.claim(sort, needed, settled, Goal::AtLeastZero(form))?;
    Ok(())
}

#[tactic(auto, unfolding(crate::specs::View::followed))]
/// The number of new symbols on a path.
pub fn count_of_news<D: Copy>(path: &Path<D>) -> usize
    ensures exact { result ≡ length (followed path.now).state.held.news }
    ensures small { result < 2 ^ 60 }
{
    path.news.as_slice().len()
}

/// A new symbol, with its bounds as facts.
pub fn invent<D: Domain>(
    setting: &Setting<D>,
    path: &mut Path<D>,
    element: D,
) -> Result<Form, WalkError>
    ensures leads { MatchResult result (λ f. Leads (followed path.old) (followed path.new) (walks.invent (seen D.Domain setting.now) element) (form_seen f)) (λ e. Stops (followed path.old) e (walks.invent (seen D.Domain setting.now) element)) }
    ensures small { IfOk result (λ f. size (form_seen f) ≡ 1) }
    ensures bare { IfOk result (λ f. (form_seen f).constant ≡ pos 0) }
{
    let index = count_of_news(path);
    let newest = once_new(setting.alloc, Side::First, index)?;
    let bounds = element.bounds();
    know_low(setting.alloc, path, &newest, bounds.low)?;
    know_high(setting.alloc, path, &newest, bounds.high)?;
    path.invent(element)?;
    Ok(newest)
}

/// The element of all numbers of a kind.
pub fn any_of<D: Domain>(kind: Kind) -> D
    ensures { result ≡ walks.any_of D.Domain (kind_seen kind) }
{
    match kind {
        Kind::Int => between(-2_147_483_648, 2_147_483_647),
        Kind::Uint | Kind::Size => between(0, 4_294_967_295),
    }
}

/// A value of which no more is known than its kind.
pub fn unknown<D: Domain>(
    setting: &Setting<D>,
    path: &mut Path<D>,
    kind: Kind,
) -> Result<Value, WalkError>
    ensures { MatchResult result (λ v. Leads (followed path.old) (followed path.new) (walks.unknown (seen D.Domain setting.now) (kind_seen kind)) (value_seen v)) (λ e. Stops (followed path.old) e (walks.unknown (seen D.Domain setting.now) (kind_seen kind))) }
{
    let form = invent(setting, path, any_of(kind))?;
    Ok(Value { kind, form })
}

/// A form is at least its lower end, where there is one.
fn know_low<D: Copy>(
    alloc: Global,
    path: &mut Path<D>,
    of: &Form,
    low: Option<i64>,
) -> Result<(), WalkError>
    ensures leads { IfOk result (λ _. (more : List Fact) (rest : Tree D) → collect (followed path.old).found (walks.know_all (walks.lower_fact (form_seen of.now) low more) rest) ≡ collect (followed path.new).found (walks.know_all more rest)) }
    ensures state { IfOk result (λ _. (followed path.new).state ≡ (followed path.old).state) }
    ensures refused { IfErr result (λ e. (more : List Fact) (rest : Tree D) → Refused e (collect (followed path.old).found (walks.know_all (walks.lower_fact (form_seen of.now) low more) rest))) }
{
    if let Some(low) = low {
        let fact = less_number(alloc, of, low)?;
        path.know(fact)?;
    }
    Ok(())
}

/// A form is at most its upper end, where there is one.
fn know_high<D: Copy>(
    alloc: Global,
    path: &mut Path<D>,
    of: &Form,
    high: Option<i64>,
) -> Result<(), WalkError>
    ensures leads { IfOk result (λ _. (rest : Tree D) → collect (followed path.old).found (walks.know_all (walks.upper_fact (form_seen of.now) high) rest) ≡ collect (followed path.new).found rest) }
    ensures state { IfOk result (λ _. (followed path.new).state ≡ (followed path.old).state) }
    ensures refused { IfErr result (λ e. (rest : Tree D) → Refused e (collect (followed path.old).found (walks.know_all (walks.upper_fact (form_seen of.now) high) rest))) }
{
    if let Some(high) = high {
        let fact = number_less(alloc, high, of)?;
        path.know(fact)?;
    }
    Ok(())
}

/// Adds the facts that an element gives of a form: its ends, where it has them.
fn know_bounds<D: Domain>(
    alloc: Global,
    path: &mut Path<D>,
    of: &Form,
    element: D,
) -> Result<(), WalkError>
    ensures leads { IfOk result (λ _. (rest : Tree D) → collect (followed path.old).found (walks.know_all (walks.bound_facts (form_seen of.now) (D.bounds_of element)) rest) ≡ collect (followed path.new).found rest) }
    ensures state { IfOk result (λ _. (followed path.new).state ≡ (followed path.old).state) }
    ensures refused { IfErr result (λ e. (rest : Tree D) → Refused e (collect (followed path.old).found (walks.know_all (walks.bound_facts (form_seen of.now) (D.bounds_of element)) rest))) }
{
    let bounds = element.bounds();
    know_low(alloc, path, of, bounds.low)?;
    know_high(alloc, path, of, bounds.high)?;
    Ok(())
}

/// A product with what an element knows of it as facts.
pub fn bounded<D: Domain>(
    setting: &Setting<D>,
    path: &mut Path<D>,
    form: Form,
    element: D,
) -> Result<Form, WalkError>
    ensures { MatchResult result (λ f. Leads (followed path.old) (followed path.new) (operators.multiplied (seen D.Domain setting.now) (Some (form_seen form)) element) (form_seen f)) (λ e. Stops (followed path.old) e (operators.multiplied (seen D.Domain setting.now) (Some (form_seen form)) element)) }
{
    know_bounds(setting.alloc, path, &form, element)?;
    Ok(form)
}

/// The obligation of this number has an entry.
pub fn has_entry<D: Domain>(setting: &Setting<D>, number: usize) -> bool
    ensures { result ≡ (seen D.Domain setting.now).has_entry number }
{
    match setting.entries.get(number) {
        Some(entry) => *entry,
        None => false,
    }
}

/// The two ends of a kind's range.
fn in_range<D: Domain>(
    setting: &Setting<D>,
    path: &mut Path<D>,
    needed: bool,
    kind: Kind,
    form: &Form,
) -> Result<(), WalkError>
    ensures { MatchResult result (λ _. Steps (followed path.old) (followed path.new) (walks.in_range (seen D.Domain setting.now) needed (kind_seen kind) (form_seen form.now))) (λ e. StopsAtStep (followed path.old) e (walks.in_range (seen D.Domain setting.now) needed (kind_seen kind) (form_seen form.now))) }
{
    let low = low_end(setting.alloc, kind, form)?;
    let high = high_end(setting.alloc, kind, form)?;
    claim_form(setting, path, Sort::OfRange(kind), needed, low)?;
    claim_form(setting, path, Sort::OfRange(kind), needed, high)?;
    Ok(())
}

/// A form less its kind's least number (C99 6.2.5).
fn low_end(alloc: Global, kind: Kind, of: &Form) -> Result<Form, WalkError>
    ensures { MatchResult result (λ f. form_seen f ≡ walks.low_end (kind_seen kind) (form_seen of.now)) (λ e. IsUnfit e (walks.low_end (kind_seen kind) (form_seen of.now))) }
{
    match kind {
        Kind::Int => less_number(alloc, of, -2_147_483_648),
        Kind::Uint | Kind::Size => less_number(alloc, of, 0),
    }
}

/// A kind's greatest number less a form (C99 6.2.5).
fn high_end(alloc: Global, kind: Kind, of: &Form) -> Result<Form, WalkError>
    ensures { MatchResult result (λ f. form_seen f ≡ walks.high_end (kind_seen kind) (form_seen of.now)) (λ e. IsUnfit e (walks.high_end (kind_seen kind) (form_seen of.now))) }
{
    match kind {
        Kind::Int => number_less(alloc, 2_147_483_647, of),
        Kind::Uint | Kind::Size => number_less(alloc, 4_294_967_295, of),
    }
}

#[tactic(auto, unfolding(crate::specs::View::followed))]
/// The two claims that a form is in the range of `uint` are each settled by the domain or have an entry.
fn is_kept<D: Domain>(setting: &Setting<D>, path: &Path<D>, form: &Form) -> Result<bool, WalkError>
    ensures { MatchResult result (λ b. b ≡ walks.is_kept (seen D.Domain setting.now) (form_seen form.now) (followed path.now).state) (λ e. IsUnfit e (walks.low_end Uint (form_seen form.now)) ⊎ IsUnfit e (walks.high_end Uint (form_seen form.now))) }
{
    let low = low_end(setting.alloc, Kind::Uint, form)?;
    let high = high_end(setting.alloc, Kind::Uint, form)?;
    let claims = path.count as usize;
    let keeps_low = settles(setting, path, &low) || has_entry(setting, claims + 1);
    let keeps_high = settles(setting, path, &high) || has_entry(setting, claims + 2);
    Ok(keeps_low && keeps_high)
}

/// An exact result as a value of its kind: an `int` and a size are claimed to be in range, a `uint` that may not be is a new symbol.
pub fn ranged<D: Domain>(
    setting: &Setting<D>,
    path: &mut Path<D>,
    kind: Kind,
    form: Form,
) -> Result<Value, WalkError>
    ensures { MatchResult result (λ v. Leads (followed path.old) (followed path.new) (walks.ranged (seen D.Domain setting.now) (kind_seen kind) (form_seen form)) (value_seen v)) (λ e. Stops (followed path.old) e (walks.ranged (seen D.Domain setting.now) (kind_seen kind) (form_seen form))) }
{
    match kind {
        Kind::Int | Kind::Size => {
            in_range(setting, path, true, kind, &form)?;
            Ok(Value { kind, form })
        }
        Kind::Uint => ranged_uint(setting, path, form),
    }
}

/// A `uint` that is kept, or else has wrapped and is a new symbol.
fn ranged_uint<D: Domain>(
    setting: &Setting<D>,
    path: &mut Path<D>,
    form: Form,
) -> Result<Value, WalkError>
    ensures { MatchResult result (λ v. Leads (followed path.old) (followed path.new) (walks.ranged (seen D.Domain setting.now) Uint (form_seen form)) (value_seen v)) (λ e. Stops (followed path.old) e (walks.ranged (seen D.Domain setting.now) Uint (form_seen form))) }
{
    let kept = is_kept(setting, path, &form)?;
    in_range(setting, path, kept, Kind::Uint, &form)?;
    if kept {
        return Ok(Value {
            kind: Kind::Uint,
            form,
        });
    }
    unknown(setting, path, Kind::Uint)
}

/// A value's form as one of a kind.
fn of_kind(kind: Kind, value: Value) -> Value
    ensures { value_seen result ≡ values.value (kind_seen kind) (value_seen value).form }
{
    Value {
        kind,
        form: value.form,
    }
}

/// A value brought to a kind.
pub fn brought<D: Domain>(
    setting: &Setting<D>,
    path: &mut Path<D>,
    kind: Kind,
    value: Value,
) -> Result<Value, WalkError>
    ensures { MatchResult result (λ v. Leads (followed path.old) (followed path.new) (walks.brought (seen D.Domain setting.now) (kind_seen kind) (value_seen value)) (value_seen v)) (λ e. Stops (followed path.old) e (walks.brought (seen D.Domain setting.now) (kind_seen kind) (value_seen value))) }
{
    match (kind, value.kind) {
        (Kind::Int, Kind::Int) => Ok(value),
        (Kind::Int, Kind::Uint) => ranged(setting, path, Kind::Int, value.form),
        (Kind::Int, Kind::Size) => ranged(setting, path, Kind::Int, value.form),
        (Kind::Uint, Kind::Int) => ranged(setting, path, Kind::Uint, value.form),
        (Kind::Uint, Kind::Uint) => Ok(value),
        (Kind::Uint, Kind::Size) => Ok(of_kind(Kind::Uint, value)),
        (Kind::Size, Kind::Int) => ranged(setting, path, Kind::Size, value.form),
        (Kind::Size, Kind::Uint) => Ok(of_kind(Kind::Size, value)),
        (Kind::Size, Kind::Size) => Ok(value),
    }
}

/// Two values brought to a kind, the left one first.
pub fn both_brought<D: Domain>(
    setting: &Setting<D>,
    path: &mut Path<D>,
    kind: Kind,
    left: Value,
    right: Value,
) -> Result<(Value, Value), WalkError>
    ensures { MatchResult result (λ v. LeadsTwo (followed path.old) (followed path.new) (walks.both_brought (seen D.Domain setting.now) (kind_seen kind) (value_seen left) (value_seen right)) (value_seen v.0) (value_seen v.1)) (λ e. StopsTwo (followed path.old) e (walks.both_brought (seen D.Domain setting.now) (kind_seen kind) (value_seen left) (value_seen right))) }
{
    let first = brought(setting, path, kind, left)?;
    let second = brought(setting, path, kind, right)?;
    Ok((first, second))
}
