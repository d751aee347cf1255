//! Assignments.

ghost use Rattle.std.specs.Prelude.{◌≡◌, Ok, Some, None, string_bytes};
ghost use Rattle.std.specs.Option.{option_map};
ghost use Rattle.semantics.specs.Core as core;
ghost use Rattle.types.specs.Elaboration as elaboration;
ghost use Rattle.types.specs.Scope as scoping;
ghost use Rattle.types.specs.TypeFaults as rules;
ghost use Rattle.types.specs.Typing as typing;
ghost use Rattle.words.specs.View.{kind as kind_of};
ghost use Rattle.syntax.specs.View.{expression, assign_sign, assignment};
ghost use Rattle.core_code.specs.View.{site};
ghost use Rattle.core_code.specs.View.{array as array_of, statement, term};
ghost use Rattle.types.specs.Names.{devices, names, meaning_seen, scope_seen};
ghost use Rattle.types.specs.Answers.{typed_term, Gives, IsTyped, IsArrayOf};

use crate::conversions::{TypedTerm, bring};
use crate::error::{TypeError, TypeFault};
use crate::loads::first_load;
use crate::scope::{Scope, meaning_of};
use crate::targets::{target_array, target_slot};
use crate::typing::{infix_term, type_of};
use core_code::tree::{Array, Site, Statement, Term};
use std::alloc::Global;
use syntax::tree::{AssignSign, Assignment, Expr, InfixSign};
use words::Kind;

// The value of `x op= e`, which is that of `x op (e)`.
fn assigned(
    alloc: Global,
    a: &Assignment,
    old: TypedTerm,
    value: TypedTerm,
) -> Result<TypedTerm, TypeError>
    ensures { IsTyped result (elaboration.assigned (assign_sign a.now.sign) (site a.now.sign_site) (expression a.now.value) (typed_term old) (typed_term value)) }
{
    let sign = match a.sign {
        AssignSign::Plain => return Ok(value),
        AssignSign::With(operator) => InfixSign::Arithmetic(operator),
        AssignSign::WithLeftShift => InfixSign::LeftShift,
        AssignSign::WithRightShift => InfixSign::RightShift,
    };
    infix_term(alloc, sign, a.sign_site, &a.value, old, value)
}

fn assign_variable(alloc: Global, scope: &Scope, a: &Assignment) -> Result<Statement, TypeError>
    ensures { Gives statement result (rules.then (rules.found (scoping.meaning_of (names scope.now.visible) (string_bytes a.now.name)) rules.UnknownName (site a.now.site)) (λ m. elaboration.assign_to (scope_seen scope.now) (assignment a.now) m None)) }
{
    let (slot, kind) = target_slot(a.site, meaning_of(&scope.visible, a.name.as_str()))?;
    let value = type_of(alloc, scope, &a.value)?;
    let old = TypedTerm {
        kind,
        term: Term::Variable { slot },
    };
    let value = assigned(alloc, a, old, value)?;
    Ok(Statement::Set {
        number: a.number,
        slot,
        value: bring(alloc, kind, a.site, value)?,
    })
}

fn without_load(a: &Assignment, index: &Expr) -> Result<(), TypeError>
    ensures { (i : typing.TypedTerm) → Gives (λ _. i) result (rules.when (elaboration.without_load (assign_sign a.now.sign) (elaboration.first_load (expression index.now))) rules.LoadInCompoundIndex (elaboration.site_or (elaboration.first_load (expression index.now)) (site a.now.site)) i) }
{
    match (a.sign, first_load(index)) {
        (AssignSign::Plain, _) | (_, None) => Ok(()),
        (_, Some(load)) => Err(TypeError::At {
            fault: TypeFault::LoadInCompoundIndex,
            site: load,
        }),
    }
}

// The value that an element gets: that of `a[i] op (e)` where the sign is `op=`, so the index is typed once more.
fn assigned_element(
    alloc: Global,
    scope: &Scope,
    a: &Assignment,
    index: &Expr,
    element: (Array, Kind),
    value: TypedTerm,
) -> Result<TypedTerm, TypeError>
    ensures { (i : typing.TypedTerm) → typing.type_of (devices scope.now.devices) (names scope.now.visible) (expression index.now) ≡ Ok i → IsTyped result (elaboration.assigned (assign_sign a.now.sign) (site a.now.sign_site) (expression a.now.value) (typing.typed (kind_of element.1) (core.Load (array_of element.0) (site a.now.site) i.term)) (typed_term value)) }
{
    if let AssignSign::Plain = a.sign {
        return Ok(value);
    }
    let index = type_of(alloc, scope, index)?;
    let old = TypedTerm {
        kind: element.1,
        term: Term::Load {
            array: element.0,
            site: a.site,
            index: Box::new(alloc, index.term)?,
        },
    };
    assigned(alloc, a, old, value)
}

fn store(
    alloc: Global,
    a: &Assignment,
    element: (Array, Kind),
    index: Term,
    value: TypedTerm,
) -> Result<Statement, TypeError>
    ensures { Gives statement result (Ok (core.Store a.now.number (array_of element.0) (site a.now.site) (term index) (typing.bring (kind_of element.1) (site a.now.site) (typed_term value)))) }
{
    let value = bring(alloc, element.1, a.site, value)?;
    Ok(Statement::Store {
        number: a.number,
        array: element.0,
        site: a.site,
        index,
        value,
    })
}

fn assign_element(
    alloc: Global,
    scope: &Scope,
    a: &Assignment,
    index: &Expr,
) -> Result<Statement, TypeError>
    ensures { Gives statement result (rules.then (rules.found (scoping.meaning_of (names scope.now.visible) (string_bytes a.now.name)) rules.UnknownName (site a.now.site)) (λ m. elaboration.assign_to (scope_seen scope.now) (assignment a.now) m (Some (expression index.now)))) }
{
    let element = target_array(a.site, meaning_of(&scope.visible, a.name.as_str()))?;
    let typed = type_of(alloc, scope, index)?;
    without_load(a, index)?;
    let value = type_of(alloc, scope, &a.value)?;
    let value = assigned_element(alloc, scope, a, index, element, value)?;
    store(alloc, a, element, typed.term, value)
}

/// The core statement of an assignment, or its first broken rule: of the target, of its index, of the value.
#[tactic(auto, unfolding(crate::specs::Elaboration::elaborate_assignment))]
pub fn elaborate_assignment(
    alloc: Global,
    scope: &Scope,
    a: &Assignment,
) -> Result<Statement, TypeError>
    ensures { Gives statement result (elaboration.elaborate_assignment (scope_seen scope.now) (assignment a.now)) }
{
    match &a.index {
        None => assign_variable(alloc, scope, a),
        Some(index) => assign_element(alloc, scope, a, index),
    }
}
