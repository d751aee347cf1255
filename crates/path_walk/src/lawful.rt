//! Which terms the walk goes along.

ghost use Rattle.std.specs.Prelude.{◌≡◌, ◌&&◌, pos};
ghost use Rattle.semantics.specs.Word.{in_kind};
ghost use Rattle.words.specs.View.{kind as kind_seen};
ghost use Rattle.core_code.specs.View.{term as term_seen, unary_operator as unary_seen};
ghost use Rattle.walk_trees.specs.Covered as covered;
ghost use Rattle.obligations.specs.Walking as walking;

use core_code::tree::{Term, UnaryOperator};
use words::Kind;

/// The number is one of the kind.
fn is_in_kind(kind: Kind, value: u32) -> bool
    ensures { result ≡ in_kind (kind_seen kind) (pos value) }
{
    match kind {
        Kind::Int => value < 2_147_483_648,
        Kind::Uint | Kind::Size => true,
    }
}

/// The kind is one that ids may have.
fn is_id_kind(kind: Kind) -> bool
    ensures { result ≡ covered.is_id_kind (kind_seen kind) }
{
    match kind {
        Kind::Int => false,
        Kind::Uint | Kind::Size => true,
    }
}

/// A shift is by 0 to 31, and to the right of a `uint`.
fn is_covered_unary(operator: UnaryOperator, kind: Kind) -> bool
    ensures { result ≡ covered.is_covered_unary (unary_seen operator) (kind_seen kind) }
{
    match (operator, kind) {
        (UnaryOperator::Negate | UnaryOperator::Complement, _) => true,
        (UnaryOperator::ShiftLeft(by), _) | (UnaryOperator::ShiftRight(by), Kind::Uint) => by < 32,
        (UnaryOperator::ShiftRight(_), Kind::Int | Kind::Size) => false,
    }
}

/// Each literal is a number of its kind, each id has a kind that ids may have, and each shift is by 0 to 31, to the right of a `uint`.
pub fn is_lawful(term: &Term) -> bool
    ensures { result ≡ walking.is_lawful (term_seen term.now) }
{
    match term {
        Term::Literal { kind, value } => is_in_kind(*kind, *value),
        Term::Variable { .. } => true,
        Term::Id { kind, .. } => is_id_kind(*kind),
        Term::Load { index, .. } => is_lawful(index),
        Term::Unary {
            operator,
            kind,
            of,
            ..
        } => is_covered_unary(*operator, *kind) && is_lawful(of),
        Term::Convert { of, .. } | Term::Not { of } => is_lawful(of),
        Term::Within { index, .. } => is_lawful(index),
        Term::Shift { value, count, .. } => is_lawful(value) && is_lawful(count),
        Term::Binary { left, right, .. }
        | Term::Compare { left, right, .. }
        | Term::And { left, right }
        | Term::Or { left, right }
        | Term::Minimum { left, right }
        | Term::Maximum { left, right } => is_lawful(left) && is_lawful(right),
        Term::Select {
            test,
            taken,
            skipped,
        } => is_lawful(test) && is_lawful(taken) && is_lawful(skipped),
        Term::Opaque {
            first,
            second,
            third,
            ..
        } => is_lawful(first) && is_lawful(second) && is_lawful(third),
    }
}
