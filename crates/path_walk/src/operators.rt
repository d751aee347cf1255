//! What operators do.

ghost use Rattle.std.specs.Prelude.{◌≡◌, true, MatchResult};
ghost use Rattle.linear.specs.Forms.{form as form_seen};
ghost use Rattle.words.specs.View.{kind as kind_seen};
ghost use Rattle.core_code.specs.View.{operator as operator_seen, unary_operator as unary_seen};
ghost use Rattle.walk_trees.specs.Covered.{is_covered_unary};
ghost use Rattle.walk_trees.specs.Operators as operators;
ghost use Rattle.path_steps.specs.Leads.{Leads};
ghost use Rattle.path_steps.specs.Refusals.{Stops};
ghost use Rattle.path_steps.specs.View.{followed, setting as seen, value as value_seen};

use crate::bits::{either_bits, other_bits};
use crate::dividing::divide;
use crate::masks::mask;
use crate::remainders::remain;
use crate::shifts::{shifted_left, shifted_right};
use core_code::tree::{Operator, UnaryOperator};
use domain::Domain;
use facts::WalkError;
use linear::Form;
use path_steps::{
    Path, Setting, Value, known_form, ranged_complement, ranged_difference, ranged_negation,
    ranged_product, ranged_sum,
};
use words::Kind;

/// The result of an operator with two operands as they are.
fn operate<D: Domain>(
    setting: &Setting<D>,
    path: &mut Path<D>,
    operator: Operator,
    kind: Kind,
    left: &Form,
    right: &Form,
) -> Result<Value, WalkError>
    ensures { MatchResult result (λ v. Leads (followed path.old) (followed path.new) (operators.operate (seen D.Domain setting.now) (operator_seen operator) (kind_seen kind) (form_seen left.now) (form_seen right.now)) (value_seen v)) (λ e. Stops (followed path.old) e (operators.operate (seen D.Domain setting.now) (operator_seen operator) (kind_seen kind) (form_seen left.now) (form_seen right.now))) }
{
    match operator {
        Operator::Add => ranged_sum(setting, path, kind, left, right),
        Operator::Subtract => ranged_difference(setting, path, kind, left, right),
        Operator::Multiply => ranged_product(setting, path, kind, left, right),
        Operator::Divide => divide(setting, path, kind, left, right),
        Operator::Remainder => remain(setting, path, kind, left, right),
        Operator::BitAnd => mask(setting, path, kind, left, right),
        Operator::BitOr => either_bits(setting, path, kind, left, right),
        Operator::BitXor => other_bits(setting, path, kind, left, right),
    }
}

/// The result of an operator with two operands; in the wide walk one of which a single number is left is that number.
fn operate_known<D: Domain>(
    setting: &Setting<D>,
    path: &mut Path<D>,
    operator: Operator,
    kind: Kind,
    left: &Form,
    right: &Form,
) -> Result<Value, WalkError>
    ensures { MatchResult result (λ v. Leads (followed path.old) (followed path.new) (operators.known_operands (seen D.Domain setting.now) (operator_seen operator) (kind_seen kind) (form_seen left.now) (form_seen right.now)) (value_seen v)) (λ e. Stops (followed path.old) e (operators.known_operands (seen D.Domain setting.now) (operator_seen operator) (kind_seen kind) (form_seen left.now) (form_seen right.now))) }
{
    let first = known_form(setting, path, left)?;
    let second = known_form(setting, path, right)?;
    operate(setting, path, operator, kind, &first, &second)
}

/// The result of an operator with two operands that were brought to its kind.
pub fn binary<D: Domain>(
    setting: &Setting<D>,
    path: &mut Path<D>,
    operator: Operator,
    kind: Kind,
    left: &Form,
    right: &Form,
) -> Result<Value, WalkError>
    ensures { MatchResult result (λ v. Leads (followed path.old) (followed path.new) (operators.binary (seen D.Domain setting.now) (operator_seen operator) (kind_seen kind) (form_seen left.now) (form_seen right.now)) (value_seen v)) (λ e. Stops (followed path.old) e (operators.binary (seen D.Domain setting.now) (operator_seen operator) (kind_seen kind) (form_seen left.now) (form_seen right.now))) }
{
    match operator {
        Operator::Add => operate(setting, path, Operator::Add, kind, left, right),
        Operator::Subtract => operate(setting, path, Operator::Subtract, kind, left, right),
        Operator::Multiply => operate_known(setting, path, Operator::Multiply, kind, left, right),
        Operator::Divide => operate_known(setting, path, Operator::Divide, kind, left, right),
        Operator::Remainder => operate_known(setting, path, Operator::Remainder, kind, left, right),
        Operator::BitAnd => operate_known(setting, path, Operator::BitAnd, kind, left, right),
        Operator::BitOr => operate_known(setting, path, Operator::BitOr, kind, left, right),
        Operator::BitXor => operate_known(setting, path, Operator::BitXor, kind, left, right),
    }
}

/// The result of an operator with one operand that was brought to its kind.
pub fn unary<D: Domain>(
    setting: &Setting<D>,
    path: &mut Path<D>,
    operator: UnaryOperator,
    kind: Kind,
    of: &Value,
) -> Result<Value, WalkError>
    requires { is_covered_unary (unary_seen operator) (kind_seen kind) ≡ true }
    ensures { MatchResult result (λ v. Leads (followed path.old) (followed path.new) (operators.unary (seen D.Domain setting.now) (unary_seen operator) (kind_seen kind) (value_seen of.now)) (value_seen v)) (λ e. Stops (followed path.old) e (operators.unary (seen D.Domain setting.now) (unary_seen operator) (kind_seen kind) (value_seen of.now))) }
{
    match operator {
        UnaryOperator::Negate => ranged_negation(setting, path, kind, &of.form),
        UnaryOperator::Complement => ranged_complement(setting, path, kind, &of.form),
        UnaryOperator::ShiftLeft(count) => { shifted_left(setting, path, kind, &of.form, count) }
        UnaryOperator::ShiftRight(count) => {
            shifted_right(setting, path, of.kind, kind, &of.form, count)
        }
    }
}
