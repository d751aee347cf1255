//! Effects of expressions.

ghost use Rattle.std.specs.Prelude.{◌≡◌};
ghost use Rattle.opencl_tree.specs.View.{expression, expressions};
ghost use Rattle.syntax.specs.View.{assign_sign};
ghost use Rattle.opencl_effects.specs.Effects as rules;
ghost use Rattle.opencl_effects.specs.View.{helpers as helpers_seen};

use opencl_tree::tree::{Expr, PrefixSign};
use syntax::tree::AssignSign;

/// A function of the file, and whether it may store to what its parameters point to.
#[derive(Clone, Copy)]
pub struct Helper<'a> {
    pub name: &'a str,
    pub stores: bool,
}

/// Whether a name is that of a function of the file.
pub fn is_helper(helpers: &[Helper], name: &str) -> bool
    ensures { result ≡ rules.is_helper (helpers_seen helpers.now) name.now }
{
    for helper in helpers {
        if helper.name == name {
            return true;
        }
    }
    false
}

fn may_store(helpers: &[Helper], name: &str) -> bool
    ensures { result ≡ rules.may_store (helpers_seen helpers.now) name.now }
{
    for helper in helpers {
        if helper.name == name && helper.stores {
            return true;
        }
    }
    false
}

fn reads_by_name(name: &str) -> bool
    ensures { result ≡ rules.reads_by_name name.now }
{
    name.starts_with("vload")
}

fn stores_by_name(name: &str) -> bool
    ensures { result ≡ rules.stores_by_name name.now }
{
    name.starts_with("vstore") || name.starts_with("atom") || name.starts_with("async_")
}

fn call_stores(helpers: &[Helper], name: &str) -> bool
    ensures { result ≡ rules.call_stores (helpers_seen helpers.now) name.now }
{
    stores_by_name(name) || may_store(helpers, name)
}

fn call_touches(helpers: &[Helper], name: &str) -> bool
    ensures { result ≡ rules.call_touches (helpers_seen helpers.now) name.now }
{
    stores_by_name(name) || reads_by_name(name) || is_helper(helpers, name)
}

/// Whether an expression has to be written out as statements.
#[cycle(effects)]
#[tactic(auto, using(crate::proofs::Rows::rows))]
pub fn has_effect(helpers: &[Helper], of: &Expr) -> bool
    ensures { result ≡ rules.has_effect (helpers_seen helpers.now) (expression of.now) }
{
    match of {
        Expr::Integer { .. }
        | Expr::Real { .. }
        | Expr::Name { .. }
        | Expr::SizeofType { .. }
        | Expr::SizeofOf { .. } => false,
        Expr::Step { .. } | Expr::Assign { .. } | Expr::Comma { .. } => true,
        Expr::Call {
            name,
            arguments,
            ..
        } => is_helper(helpers, name.as_str()) || any_effect(helpers, arguments.as_slice()),
        Expr::Vector { parts, .. } => any_effect(helpers, parts.as_slice()),
        Expr::Index { of, index, .. } => has_effect(helpers, of) || has_effect(helpers, index),
        Expr::Member { of, .. } | Expr::Prefix { of, .. } | Expr::Cast { of, .. } => {
            has_effect(helpers, of)
        }
        Expr::Infix { left, right, .. } => has_effect(helpers, left) || has_effect(helpers, right),
        Expr::Conditional {
            test,
            taken,
            skipped,
            ..
        } => {
            has_effect(helpers, test) || has_effect(helpers, taken) || has_effect(helpers, skipped)
        }
    }
}

/// Whether one of several has to.
#[cycle(effects)]
pub fn any_effect(helpers: &[Helper], of: &[Expr]) -> bool
    ensures { result ≡ rules.any_effect (helpers_seen helpers.now) (expressions of.now) }
{
    for one in of {
        if has_effect(helpers, one) {
            return true;
        }
    }
    false
}

// Whether a variable is read or stored to.
#[cycle(occurring)]
#[tactic(auto, using(crate::proofs::Rows::rows))]
fn occurs(name: &str, of: &Expr) -> bool
    ensures { result ≡ rules.occurs name.now (expression of.now) }
{
    match of {
        Expr::Integer { .. }
        | Expr::Real { .. }
        | Expr::SizeofType { .. }
        | Expr::SizeofOf { .. } => false,
        Expr::Name { name: other, .. } => other.as_str() == name,
        Expr::Call { arguments, .. } => occurs_in(name, arguments.as_slice()),
        Expr::Vector { parts, .. } => occurs_in(name, parts.as_slice()),
        Expr::Index { of, index, .. } => occurs(name, of) || occurs(name, index),
        Expr::Member { of, .. }
        | Expr::Prefix { of, .. }
        | Expr::Step { of, .. }
        | Expr::Cast { of, .. } => occurs(name, of),
        Expr::Infix { left, right, .. } => occurs(name, left) || occurs(name, right),
        Expr::Conditional {
            test,
            taken,
            skipped,
            ..
        } => occurs(name, test) || occurs(name, taken) || occurs(name, skipped),
        Expr::Assign { target, value, .. } => occurs(name, target) || occurs(name, value),
        Expr::Comma { first, second, .. } => occurs(name, first) || occurs(name, second),
    }
}

#[cycle(occurring)]
fn occurs_in(name: &str, of: &[Expr]) -> bool
    ensures { result ≡ rules.occurs_in name.now (expressions of.now) }
{
    for one in of {
        if occurs(name, one) {
            return true;
        }
    }
    false
}

// Whether a variable that is stored to within an expression occurs in another one.
#[cycle(meeting)]
#[tactic(auto, using(crate::proofs::Rows::rows))]
fn stores_meet(of: &Expr, with: &Expr) -> bool
    ensures { result ≡ rules.stores_meet (expression with.now) (expression of.now) }
{
    match of {
        Expr::Integer { .. }
        | Expr::Real { .. }
        | Expr::Name { .. }
        | Expr::SizeofType { .. }
        | Expr::SizeofOf { .. } => false,
        Expr::Call { arguments, .. } => any_meet(arguments.as_slice(), with),
        Expr::Vector { parts, .. } => any_meet(parts.as_slice(), with),
        Expr::Index { of, index, .. } => stores_meet(of, with) || stores_meet(index, with),
        Expr::Prefix {
            sign: PrefixSign::AddressOf,
            of,
            ..
        }
        | Expr::Step { of, .. } => target_meets(of, with),
        Expr::Member { of, .. } | Expr::Prefix { of, .. } | Expr::Cast { of, .. } => {
            stores_meet(of, with)
        }
        Expr::Infix { left, right, .. } => stores_meet(left, with) || stores_meet(right, with),
        Expr::Conditional {
            test,
            taken,
            skipped,
            ..
        } => stores_meet(test, with) || stores_meet(taken, with) || stores_meet(skipped, with),
        Expr::Assign { target, value, .. } => {
            target_meets(target, with) || stores_meet(value, with)
        }
        Expr::Comma { first, second, .. } => stores_meet(first, with) || stores_meet(second, with),
    }
}

// The same of an expression that is stored to.
#[cycle(meeting)]
#[tactic(auto, using(crate::proofs::Rows::rows))]
fn target_meets(of: &Expr, with: &Expr) -> bool
    ensures { result ≡ rules.target_meets (expression with.now) (expression of.now) }
{
    match of {
        Expr::Integer { .. }
        | Expr::Real { .. }
        | Expr::SizeofType { .. }
        | Expr::SizeofOf { .. } => false,
        Expr::Name { name, .. } => occurs(name.as_str(), with),
        Expr::Call { arguments, .. } => any_meet(arguments.as_slice(), with),
        Expr::Vector { parts, .. } => any_meet(parts.as_slice(), with),
        Expr::Index { of, index, .. } => target_meets(of, with) || stores_meet(index, with),
        Expr::Member { of, .. }
        | Expr::Prefix { of, .. }
        | Expr::Step { of, .. }
        | Expr::Cast { of, .. } => target_meets(of, with),
        Expr::Infix { left, right, .. } => target_meets(left, with) || target_meets(right, with),
        Expr::Conditional {
            test,
            taken,
            skipped,
            ..
        } => stores_meet(test, with) || target_meets(taken, with) || target_meets(skipped, with),
        Expr::Assign { target, value, .. } => {
            target_meets(target, with) || stores_meet(value, with)
        }
        Expr::Comma { first, second, .. } => stores_meet(first, with) || target_meets(second, with),
    }
}

#[cycle(meeting)]
fn any_meet(of: &[Expr], with: &Expr) -> bool
    ensures { result ≡ rules.any_meet (expression with.now) (expressions of.now) }
{
    for one in of {
        if stores_meet(one, with) {
            return true;
        }
    }
    false
}

// Whether what is assigned to lies in memory.
fn is_memory(of: &Expr) -> bool
    ensures { result ≡ rules.is_memory (expression of.now) }
{
    match of {
        Expr::Index { .. } => true,
        Expr::Member { of, .. } => is_memory(of),
        Expr::Prefix {
            sign: PrefixSign::Indirection,
            ..
        } => true,
        _ => false,
    }
}

/// Whether memory is stored to.
#[cycle(storing)]
#[tactic(auto, using(crate::proofs::Rows::rows))]
pub fn stores_memory(helpers: &[Helper], of: &Expr) -> bool
    ensures { result ≡ rules.stores_memory (helpers_seen helpers.now) (expression of.now) }
{
    match of {
        Expr::Integer { .. }
        | Expr::Real { .. }
        | Expr::Name { .. }
        | Expr::SizeofType { .. }
        | Expr::SizeofOf { .. } => false,
        Expr::Call {
            name,
            arguments,
            ..
        } => call_stores(helpers, name.as_str()) || any_stores(helpers, arguments.as_slice()),
        Expr::Vector { parts, .. } => any_stores(helpers, parts.as_slice()),
        Expr::Index { of, index, .. } => {
            stores_memory(helpers, of) || stores_memory(helpers, index)
        }
        Expr::Member { of, .. } | Expr::Prefix { of, .. } | Expr::Cast { of, .. } => {
            stores_memory(helpers, of)
        }
        Expr::Step { of, .. } => is_memory(of) || stores_memory(helpers, of),
        Expr::Infix { left, right, .. } => {
            stores_memory(helpers, left) || stores_memory(helpers, right)
        }
        Expr::Conditional {
            test,
            taken,
            skipped,
            ..
        } => {
            stores_memory(helpers, test)
                || stores_memory(helpers, taken)
                || stores_memory(helpers, skipped)
        }
        Expr::Assign { target, value, .. } => {
            is_memory(target) || stores_memory(helpers, target) || stores_memory(helpers, value)
        }
        Expr::Comma { first, second, .. } => {
            stores_memory(helpers, first) || stores_memory(helpers, second)
        }
    }
}

#[cycle(storing)]
fn any_stores(helpers: &[Helper], of: &[Expr]) -> bool
    ensures { result ≡ rules.any_stores (helpers_seen helpers.now) (expressions of.now) }
{
    for one in of {
        if stores_memory(helpers, one) {
            return true;
        }
    }
    false
}

/// Whether memory is read or stored to.
#[cycle(touching)]
#[tactic(auto, using(crate::proofs::Rows::rows))]
pub fn touches_memory(helpers: &[Helper], of: &Expr) -> bool
    ensures { result ≡ rules.touches_memory (helpers_seen helpers.now) (expression of.now) }
{
    match of {
        Expr::Integer { .. }
        | Expr::Real { .. }
        | Expr::Name { .. }
        | Expr::SizeofType { .. }
        | Expr::SizeofOf { .. } => false,
        Expr::Index { .. } => true,
        Expr::Prefix {
            sign: PrefixSign::Indirection,
            ..
        } => true,
        Expr::Call {
            name,
            arguments,
            ..
        } => call_touches(helpers, name.as_str()) || any_touches(helpers, arguments.as_slice()),
        Expr::Vector { parts, .. } => any_touches(helpers, parts.as_slice()),
        Expr::Member { of, .. }
        | Expr::Prefix { of, .. }
        | Expr::Step { of, .. }
        | Expr::Cast { of, .. } => touches_memory(helpers, of),
        Expr::Infix { left, right, .. } => {
            touches_memory(helpers, left) || touches_memory(helpers, right)
        }
        Expr::Conditional {
            test,
            taken,
            skipped,
            ..
        } => {
            touches_memory(helpers, test)
                || touches_memory(helpers, taken)
                || touches_memory(helpers, skipped)
        }
        Expr::Assign { target, value, .. } => {
            touches_memory(helpers, target) || touches_memory(helpers, value)
        }
        Expr::Comma { first, second, .. } => {
            touches_memory(helpers, first) || touches_memory(helpers, second)
        }
    }
}

#[cycle(touching)]
fn any_touches(helpers: &[Helper], of: &[Expr]) -> bool
    ensures { result ≡ rules.any_touches (helpers_seen helpers.now) (expressions of.now) }
{
    for one in of {
        if touches_memory(helpers, one) {
            return true;
        }
    }
    false
}

fn memory_meets(helpers: &[Helper], left: &Expr, right: &Expr) -> bool
    ensures { result ≡ rules.memory_meets (helpers_seen helpers.now) (expression left.now) (expression right.now) }
{
    stores_memory(helpers, left) && touches_memory(helpers, right)
}

fn names_meet(left: &Expr, right: &Expr) -> bool
    ensures { result ≡ rules.names_meet (expression left.now) (expression right.now) }
{
    stores_meet(left, right) || stores_meet(right, left)
}

/// Whether one of two operands stores what the other may read or store, where C evaluates either of them first.
pub fn clash(helpers: &[Helper], left: &Expr, right: &Expr) -> bool
    ensures { result ≡ rules.clash (helpers_seen helpers.now) (expression left.now) (expression right.now) }
{
    names_meet(left, right)
        || memory_meets(helpers, left, right)
        || memory_meets(helpers, right, left)
}

fn clash_with_any(helpers: &[Helper], left: &Expr, others: &[Expr]) -> bool
    ensures { result ≡ rules.clash_with_any (helpers_seen helpers.now) (expression left.now) (expressions others.now) }
{
    for other in others {
        if clash(helpers, left, other) {
            return true;
        }
    }
    false
}

/// The same of two arguments of a call, or of two parts of a vector.
pub fn clash_among(helpers: &[Helper], of: &[Expr]) -> bool
    ensures { result ≡ rules.clash_among (helpers_seen helpers.now) (expressions of.now) }
{
    match of {
        [] => false,
        [first, others @ ..] => {
            clash_with_any(helpers, first, others) || clash_among(helpers, others)
        }
    }
}

// Whether memory is touched where it is found what is assigned to.
fn finding_touches(helpers: &[Helper], of: &Expr) -> bool
    ensures { result ≡ rules.finding_touches (helpers_seen helpers.now) (expression of.now) }
{
    match of {
        Expr::Index { of, index, .. } => {
            finding_touches(helpers, of) || touches_memory(helpers, index)
        }
        Expr::Member { of, .. } => finding_touches(helpers, of),
        Expr::Prefix { of, .. } => touches_memory(helpers, of),
        _ => false,
    }
}

fn target_touches(helpers: &[Helper], sign: AssignSign, target: &Expr) -> bool
    ensures { result ≡ rules.target_touches (helpers_seen helpers.now) (assign_sign sign) (expression target.now) }
{
    match sign {
        AssignSign::Plain => finding_touches(helpers, target),
        AssignSign::With(_) | AssignSign::WithLeftShift | AssignSign::WithRightShift => {
            touches_memory(helpers, target)
        }
    }
}

/// Whether what is assigned to and an element that is assigned within are two stores to memory, neither of which is first.
pub fn stores_twice(target: &Expr, within: &Expr) -> bool
    ensures { result ≡ rules.stores_twice (expression target.now) (expression within.now) }
{
    is_memory(target) && stores_memory(&[], within)
}

fn memory_clash_assigned(helpers: &[Helper], sign: AssignSign, target: &Expr, value: &Expr) -> bool
    ensures { result ≡ rules.memory_clash_assigned (helpers_seen helpers.now) (assign_sign sign) (expression target.now) (expression value.now) }
{
    stores_memory(helpers, value) && target_touches(helpers, sign, target)
        || memory_meets(helpers, target, value)
        || stores_twice(target, value)
        || stores_twice(target, target)
}

/// Whether an assignment has parts of which C leaves the order open.
pub fn clash_assigned(helpers: &[Helper], sign: AssignSign, target: &Expr, value: &Expr) -> bool
    ensures { result ≡ rules.clash_assigned (helpers_seen helpers.now) (assign_sign sign) (expression target.now) (expression value.now) }
{
    names_meet(value, target) || memory_clash_assigned(helpers, sign, target, value)
}
