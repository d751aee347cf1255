//! The walk of a term, as a value and as a test.

ghost use Rattle.std.specs.Prelude.{◌≡◌, ◌&&◌, true, MatchResult};
ghost use Rattle.words.specs.View.{kind as kind_seen};
ghost use Rattle.core_code.specs.View.{relation as relation_seen, term as term_seen};
ghost use Rattle.semantics.specs.Core as core;
ghost use Rattle.obligations.specs.Walking.{is_lawful};
ghost use Rattle.walk_trees.specs.Terms as terms;
ghost use Rattle.path_steps.specs.Halts.{Halts};
ghost use Rattle.path_steps.specs.Leads.{Leads, LeadsTwo};
ghost use Rattle.path_steps.specs.View.{followed, setting as seen, value as value_seen};
ghost use Rattle.path_walk.specs.Parts.{both_values, HaltsTwo};

use crate::operands::{
    Operation, binary_at, brought_at, compare_values, id_value, larger, literal, loaded,
    shift_values, smaller, truth, unary_at, variable, within_at,
};
use core_code::tree::{Relation, Term};
use domain::Domain;
use path_steps::{Halt, Path, Setting, Value, split_number, unknown};
use words::Kind;

/// Two terms as values, the left one first.
#[cycle(terms)]
fn both_values<D: Domain>(
    setting: &Setting<D>,
    path: &mut Path<D>,
    left: &Term,
    right: &Term,
) -> Result<(Value, Value), Halt>
    requires left { is_lawful (term_seen left.now) ≡ true }
    requires right { is_lawful (term_seen right.now) ≡ true }
    ensures { MatchResult result (λ v. LeadsTwo (followed path.old) (followed path.new) (both_values (seen D.Domain setting.now) (term_seen left.now) (term_seen right.now)) (value_seen v.0) (value_seen v.1)) (λ h. HaltsTwo (followed path.old) (followed path.new) h (both_values (seen D.Domain setting.now) (term_seen left.now) (term_seen right.now))) }
{
    let first = value_of(setting, path, left)?;
    let second = value_of(setting, path, right)?;
    Ok((first, second))
}

/// Walks a comparison of two terms, and gives its truth on this path.
#[cycle(terms)]
fn compared<D: Domain>(
    setting: &Setting<D>,
    path: &mut Path<D>,
    relation: Relation,
    kind: Kind,
    left: &Term,
    right: &Term,
) -> Result<bool, Halt>
    requires left { is_lawful (term_seen left.now) ≡ true }
    requires right { is_lawful (term_seen right.now) ≡ true }
    ensures { MatchResult result (λ b. Leads (followed path.old) (followed path.new) (terms.walk (seen D.Domain setting.now) (core.Compare (relation_seen relation) (kind_seen kind) (term_seen left.now) (term_seen right.now))).test b) (λ h. Halts (followed path.old) (followed path.new) h (terms.walk (seen D.Domain setting.now) (core.Compare (relation_seen relation) (kind_seen kind) (term_seen left.now) (term_seen right.now))).test) }
{
    let (first, second) = both_values(setting, path, left, right)?;
    compare_values(setting, path, relation, kind, first, second)
}

/// Walks a test with `&&` and gives its truth on this path: the right test is walked only where the left one holds.
#[cycle(terms)]
fn both_hold<D: Domain>(
    setting: &Setting<D>,
    path: &mut Path<D>,
    left: &Term,
    right: &Term,
) -> Result<bool, Halt>
    requires left { is_lawful (term_seen left.now) ≡ true }
    requires right { is_lawful (term_seen right.now) ≡ true }
    ensures { MatchResult result (λ b. Leads (followed path.old) (followed path.new) (terms.walk (seen D.Domain setting.now) (core.And (term_seen left.now) (term_seen right.now))).test b) (λ h. Halts (followed path.old) (followed path.new) h (terms.walk (seen D.Domain setting.now) (core.And (term_seen left.now) (term_seen right.now))).test) }
{
    let holds = test_of(setting, path, left)?;
    if holds {
        return test_of(setting, path, right);
    }
    Ok(false)
}

/// Walks a test with `||` and gives its truth on this path: the right test is walked only where the left one does not hold.
#[cycle(terms)]
fn either_holds<D: Domain>(
    setting: &Setting<D>,
    path: &mut Path<D>,
    left: &Term,
    right: &Term,
) -> Result<bool, Halt>
    requires left { is_lawful (term_seen left.now) ≡ true }
    requires right { is_lawful (term_seen right.now) ≡ true }
    ensures { MatchResult result (λ b. Leads (followed path.old) (followed path.new) (terms.walk (seen D.Domain setting.now) (core.Or (term_seen left.now) (term_seen right.now))).test b) (λ h. Halts (followed path.old) (followed path.new) h (terms.walk (seen D.Domain setting.now) (core.Or (term_seen left.now) (term_seen right.now))).test) }
{
    let holds = test_of(setting, path, left)?;
    if holds {
        return Ok(true);
    }
    test_of(setting, path, right)
}

/// The walk of a term as a value.
#[cycle(terms)]
pub fn value_of<D: Domain>(
    setting: &Setting<D>,
    path: &mut Path<D>,
    term: &Term,
) -> Result<Value, Halt>
    requires { is_lawful (term_seen term.now) ≡ true }
    ensures { MatchResult result (λ v. Leads (followed path.old) (followed path.new) ((terms.walk (seen D.Domain setting.now) (term_seen term.now)).value) (value_seen v)) (λ h. Halts (followed path.old) (followed path.new) h ((terms.walk (seen D.Domain setting.now) (term_seen term.now)).value)) }
{
    match term {
        Term::Literal { kind, value } => Ok(literal(setting.alloc, *kind, *value)),
        Term::Variable { slot } => {
            let value = variable(setting.alloc, path, *slot)?;
            Ok(value)
        }
        Term::Id {
            kind,
            function,
            dimension,
        } => {
            let value = id_value(setting, *kind, *function, *dimension)?;
            Ok(value)
        }
        Term::Load { array, site, index } => {
            let index = value_of(setting, path, index)?;
            loaded(setting, path, *array, *site, index)
        }
        Term::Unary {
            operator,
            kind,
            site,
            of,
        } => {
            let of = value_of(setting, path, of)?;
            unary_at(setting, path, *operator, *kind, *site, of)
        }
        Term::Binary {
            operator,
            kind,
            site,
            left,
            right,
        } => {
            let (first, second) = both_values(setting, path, left, right)?;
            let operation = Operation {
                operator: *operator,
                kind: *kind,
                site: *site,
            };
            binary_at(setting, path, operation, first, second)
        }
        Term::Convert { kind, site, of } => {
            let of = value_of(setting, path, of)?;
            brought_at(setting, path, *kind, *site, of)
        }
        Term::Compare {
            relation,
            kind,
            left,
            right,
        } => {
            let holds = compared(setting, path, *relation, *kind, left, right)?;
            Ok(truth(setting.alloc, holds))
        }
        Term::Not { of } => {
            let holds = test_of(setting, path, of)?;
            Ok(truth(setting.alloc, !holds))
        }
        Term::And { left, right } => {
            let holds = both_hold(setting, path, left, right)?;
            Ok(truth(setting.alloc, holds))
        }
        Term::Or { left, right } => {
            let holds = either_holds(setting, path, left, right)?;
            Ok(truth(setting.alloc, holds))
        }
        Term::Select {
            test,
            taken,
            skipped,
        } => {
            let holds = test_of(setting, path, test)?;
            if holds {
                value_of(setting, path, taken)
            } else {
                value_of(setting, path, skipped)
            }
        }
        Term::Minimum { left, right } => {
            let (first, second) = both_values(setting, path, left, right)?;
            smaller(setting, path, first, second)
        }
        Term::Maximum { left, right } => {
            let (first, second) = both_values(setting, path, left, right)?;
            larger(setting, path, first, second)
        }
        Term::Shift {
            direction,
            kind,
            value,
            count,
        } => {
            let (first, second) = both_values(setting, path, value, count)?;
            shift_values(setting, path, *direction, *kind, first, second)
        }
        Term::Within {
            site,
            length,
            index,
        } => {
            let index = value_of(setting, path, index)?;
            within_at(setting, path, *site, *length, index)
        }
        Term::Opaque {
            kind,
            first,
            second,
            third,
            ..
        } => {
            both_values(setting, path, first, second)?;
            value_of(setting, path, third)?;
            let value = unknown(setting, path, *kind)?;
            Ok(value)
        }
    }
}

/// The walk of a term as a test.
#[cycle(terms)]
pub fn test_of<D: Domain>(
    setting: &Setting<D>,
    path: &mut Path<D>,
    term: &Term,
) -> Result<bool, Halt>
    requires { is_lawful (term_seen term.now) ≡ true }
    ensures { MatchResult result (λ b. Leads (followed path.old) (followed path.new) ((terms.walk (seen D.Domain setting.now) (term_seen term.now)).test) b) (λ h. Halts (followed path.old) (followed path.new) h ((terms.walk (seen D.Domain setting.now) (term_seen term.now)).test)) }
{
    match term {
        Term::Compare {
            relation,
            kind,
            left,
            right,
        } => compared(setting, path, *relation, *kind, left, right),
        Term::Not { of } => {
            let holds = test_of(setting, path, of)?;
            Ok(!holds)
        }
        Term::And { left, right } => both_hold(setting, path, left, right),
        Term::Or { left, right } => either_holds(setting, path, left, right),
        _ => {
            let value = value_of(setting, path, term)?;
            split_number(setting, path, &value.form)
        }
    }
}
