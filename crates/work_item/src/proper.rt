//! Whether a kernel is proper.

ghost use Rattle.std.specs.Prelude.{◌≡◌, ◌&&◌, pos, slice_index};
ghost use Rattle.semantics.specs.Word as word;
ghost use Rattle.words.specs.View.{kind as kind_seen};
ghost use Rattle.core_code.specs.View.{term as term_seen, unary_operator as unary_seen, statement as statement_seen, statements as statements_seen, kernel as kernel_seen};
ghost use Rattle.work_item.specs.Proper as specs;

use core_code::tree::{Core, Statement, Term, UnaryOperator};
use words::Kind;

fn is_proper_unary(operator: UnaryOperator, kind: Kind) -> bool
    ensures { result ≡ specs.is_proper_unary (unary_seen operator) (kind_seen kind) }
{
    match (operator, kind) {
        (UnaryOperator::Negate | UnaryOperator::Complement, _) => true,
        (UnaryOperator::ShiftLeft(by) | UnaryOperator::ShiftRight(by), Kind::Uint) => by <= 31,
        (UnaryOperator::ShiftLeft(_) | UnaryOperator::ShiftRight(_), Kind::Int | Kind::Size) => {
            false
        }
    }
}

fn is_proper_literal(kind: Kind, value: u32) -> bool
    ensures { result ≡ word.in_kind (kind_seen kind) (pos value) }
{
    match kind {
        Kind::Int => value < 1 << 31,
        Kind::Uint | Kind::Size => true,
    }
}

fn is_id_kind(kind: Kind) -> bool
    ensures { result ≡ specs.is_id_kind (kind_seen kind) }
{
    match kind {
        Kind::Int => false,
        Kind::Uint | Kind::Size => true,
    }
}

fn is_shift_kind(kind: Kind) -> bool
    ensures { result ≡ specs.is_shift_kind (kind_seen kind) }
{
    match kind {
        Kind::Int | Kind::Uint => true,
        Kind::Size => false,
    }
}

// A `u32` is one.
fn is_length(length: u32) -> bool
    ensures { result ≡ specs.is_length length }
{
    length <= u32::MAX
}

fn is_proper_term(term: &Term) -> bool
    ensures { result ≡ specs.is_proper_term (term_seen term.now) }
{
    match term {
        Term::Literal { kind, value } => is_proper_literal(*kind, *value),
        Term::Variable { .. } => true,
        Term::Id { kind, .. } => is_id_kind(*kind),
        Term::Load { index, .. } => is_proper_term(index),
        Term::Unary {
            operator,
            kind,
            of,
            ..
        } => is_proper_unary(*operator, *kind) && is_proper_term(of),
        Term::Convert { of, .. } | Term::Not { of } => is_proper_term(of),
        Term::Binary { left, right, .. }
        | Term::Compare { left, right, .. }
        | Term::And { left, right }
        | Term::Or { left, right }
        | Term::Minimum { left, right }
        | Term::Maximum { left, right } => is_proper_term(left) && is_proper_term(right),
        Term::Select {
            test,
            taken,
            skipped,
        } => is_proper_term(test) && is_proper_term(taken) && is_proper_term(skipped),
        Term::Shift {
            kind,
            value,
            count,
            ..
        } => is_shift_kind(*kind) && is_proper_term(value) && is_proper_term(count),
        Term::Within { length, index, .. } => is_length(*length) && is_proper_term(index),
        Term::Opaque {
            first,
            second,
            third,
            ..
        } => is_proper_term(first) && is_proper_term(second) && is_proper_term(third),
    }
}

pub(crate) fn all_three(first: bool, second: bool, third: bool) -> bool
    ensures { result ≡ (first && (second && third)) }
{
    first && second && third
}

#[cycle(proper)]
fn is_proper_statement(statement: &Statement) -> bool
    ensures { result ≡ specs.is_proper_statement (statement_seen statement.now) }
{
    match statement {
        Statement::Set { value, .. } => is_proper_term(value),
        Statement::Store { index, value, .. } => is_proper_term(index) && is_proper_term(value),
        Statement::If {
            test,
            taken,
            skipped,
            ..
        } => all_three(
            is_proper_term(test),
            are_proper(taken.as_slice()),
            are_proper(skipped.as_slice()),
        ),
        Statement::Loop {
            test,
            body,
            update,
            ..
        } => all_three(
            is_proper_term(test),
            are_proper(body.as_slice()),
            are_proper(update.as_slice()),
        ),
        Statement::Barrier { .. }
        | Statement::Return { .. }
        | Statement::Break { .. }
        | Statement::Continue { .. } => true,
    }
}

#[cycle(proper)]
fn are_proper(block: &[Statement]) -> bool
    ensures { result ≡ specs.are_proper (statements_seen block.now) }
{
    for statement in block {
        if !is_proper_statement(statement) {
            return false;
        }
    }
    true
}

fn are_sizes(sizes: &[u32; 3]) -> bool
    ensures { result ≡ specs.are_sizes (record { x = slice_index sizes.now 0; y = slice_index sizes.now 1; z = slice_index sizes.now 2 }) }
{
    let [x, y, z] = *sizes;
    x <= 1024 && y <= 1024 && z <= 1024 && 0 < x * y * z && x * y * z <= 1024
}

/// Whether a kernel is proper: each literal is a number of its kind, no id is an `int`, each shift by a number is of a `uint` and by 31 at
/// most, none by a term is of a size, and a group has 1 to 1,024 work-items.
pub fn is_proper(core: &Core) -> bool
    ensures { result ≡ specs.is_proper (kernel_seen core.now) }
{
    are_sizes(&core.sizes) && are_proper(core.body.as_slice())
}
