//! Whether an operation that is not reckoned decides anything.

ghost use Rattle.std.specs.Prelude.{◌≡◌, ◌||◌, ◌&&◌, IfOk, not};
ghost use Rattle.words.specs.View.{kind as kind_seen};
ghost use Rattle.core_code.specs.View.{array as array_seen, operator as operator_seen, term as term_seen, statement as statement_seen, statements as statements_seen, kernel as kernel_seen};
ghost use Rattle.unreckoned.specs.Deciding as specs;
ghost use Rattle.unreckoned.specs.View.{marks as seen};

use crate::marks::{Marks, either};
use core_code::tree::{Array, Core, Operator, Statement, Term};
use std::alloc::{AllocError, Global};
use words::Kind;

/// The disjunction of three truth values; all are asked beforehand.
fn any(first: bool, second: bool, third: bool) -> bool
    ensures { result ≡ (first || (second || third)) }
{
    first || second || third
}

/// Whether a result of a kind may be out of its range.
fn has_range(kind: Kind) -> bool
    ensures { result ≡ specs.has_range (kind_seen kind) }
{
    match kind {
        Kind::Int | Kind::Size => true,
        Kind::Uint => false,
    }
}

/// Whether an operator divides by its right operand.
fn divides(operator: Operator) -> bool
    ensures { result ≡ specs.divides (operator_seen operator) }
{
    match operator {
        Operator::Divide | Operator::Remainder => true,
        Operator::Add
        | Operator::Subtract
        | Operator::Multiply
        | Operator::BitAnd
        | Operator::BitOr
        | Operator::BitXor => false,
    }
}

impl Marks {
    /// Whether an operand comes of an operation that is not reckoned, and the result may be out of its range.
    fn decides_range(&self, kind: Kind, of: &Term) -> bool
        ensures { result ≡ specs.decides_range (seen self.now) (kind_seen kind) (term_seen of.now) }
    {
        has_range(kind) && self.comes(of)
    }

    /// Whether an operator's operands decide whether it has a result.
    fn decides_result(&self, operator: Operator, kind: Kind, left: &Term, right: &Term) -> bool
        ensures { result ≡ specs.decides_result (seen self.now) (operator_seen operator) (kind_seen kind) (term_seen left.now) (term_seen right.now) }
    {
        let range = either(
            self.decides_range(kind, left),
            self.decides_range(kind, right),
        );
        either(range, divides(operator) && self.comes(right))
    }

    /// Whether what comes of an operation that is not reckoned decides something within a term.
    fn decides(&self, term: &Term) -> bool
        ensures { result ≡ specs.decides (seen self.now) (term_seen term.now) }
    {
        match term {
            Term::Literal { .. } | Term::Variable { .. } | Term::Id { .. } => false,
            Term::Load { index: of, .. } | Term::Within { index: of, .. } => {
                either(self.comes(of), self.decides(of))
            }
            Term::Unary { kind, of, .. } => {
                either(self.decides_range(*kind, of), self.decides(of))
            }
            Term::Convert { kind, of, .. } => {
                either(self.decides_range(*kind, of), self.decides(of))
            }
            Term::Not { of } => self.decides(of),
            Term::Binary {
                operator,
                kind,
                left,
                right,
                ..
            } => any(
                self.decides_result(*operator, *kind, left, right),
                self.decides(left),
                self.decides(right),
            ),
            Term::Compare { left, right, .. } => either(self.decides(left), self.decides(right)),
            Term::Minimum { left, right } => either(self.decides(left), self.decides(right)),
            Term::Maximum { left, right } => either(self.decides(left), self.decides(right)),
            Term::And { left, right } => {
                any(self.comes(left), self.decides(left), self.decides(right))
            }
            Term::Or { left, right } => {
                any(self.comes(left), self.decides(left), self.decides(right))
            }
            Term::Select {
                test,
                taken,
                skipped,
            } => either(
                self.comes(test),
                any(
                    self.decides(test),
                    self.decides(taken),
                    self.decides(skipped),
                ),
            ),
            Term::Shift { value, count, .. } => {
                any(self.comes(count), self.decides(value), self.decides(count))
            }
            Term::Opaque {
                first,
                second,
                third,
                ..
            } => any(
                self.decides(first),
                self.decides(second),
                self.decides(third),
            ),
        }
    }

    /// Whether a test comes of an operation that is not reckoned, or something in it decides.
    fn decides_test(&self, test: &Term) -> bool
        ensures { result ≡ specs.decides_test (seen self.now) (term_seen test.now) }
    {
        either(self.comes(test), self.decides(test))
    }

    /// Whether a value is set to a variable that should have been marked, or something in it decides.
    fn decides_set(&self, slot: u32, value: &Term) -> bool
        ensures { result ≡ specs.decides_set (seen self.now) slot (term_seen value.now) }
    {
        let is_missed = self.comes(value) && !self.has_slot(slot);
        either(self.decides(value), is_missed)
    }

    /// Whether a value is stored to an array that should have been marked, or something in the store decides.
    fn decides_store(&self, array: Array, index: &Term, value: &Term) -> bool
        ensures { result ≡ specs.decides_store (seen self.now) (array_seen array) (term_seen index.now) (term_seen value.now) }
    {
        let is_missed = self.comes(value) && !self.has(array);
        any(self.decides_test(index), self.decides(value), is_missed)
    }

    #[cycle(deciding)]
    fn decides_in(&self, statement: &Statement) -> bool
        ensures { result ≡ specs.decides_in (seen self.now) (statement_seen statement.now) }
    {
        match statement {
            Statement::Set { slot, value, .. } => self.decides_set(*slot, value),
            Statement::Store {
                array,
                index,
                value,
                ..
            } => self.decides_store(*array, index, value),
            Statement::If {
                test,
                taken,
                skipped,
                ..
            } => any(
                self.decides_test(test),
                self.decides_in_any(taken.as_slice()),
                self.decides_in_any(skipped.as_slice()),
            ),
            Statement::Loop {
                test,
                body,
                update,
                ..
            } => any(
                self.decides_test(test),
                self.decides_in_any(body.as_slice()),
                self.decides_in_any(update.as_slice()),
            ),
            Statement::Barrier { .. }
            | Statement::Return { .. }
            | Statement::Break { .. }
            | Statement::Continue { .. } => false,
        }
    }

    #[cycle(deciding)]
    fn decides_in_any(&self, body: &[Statement]) -> bool
        ensures { result ≡ specs.decides_in_any (seen self.now) (statements_seen body.now) }
    {
        for statement in body {
            if self.decides_in(statement) {
                return true;
            }
        }
        false
    }
}

/// Whether operations that are not reckoned decide nothing in a kernel: no test, no index, no divisor, no shift's count, and not whether a
/// result is in its kind's range. It may say no of a kernel where they do not.
pub fn decides_nothing(alloc: Global, core: &Core) -> Result<bool, AllocError>
    ensures { IfOk result (λ b. b ≡ specs.decides_nothing (kernel_seen core.now)) }
{
    let marks = Marks::of(alloc, core)?;
    Ok(!marks.decides_in_any(core.body.as_slice()))
}
