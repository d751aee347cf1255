//! Whether statements name what is declared, and no size is one that is not reckoned.

ghost use Rattle.std.specs.Prelude.{◌≡◌, ◌&&◌};
ghost use Rattle.core_code.specs.View.{array as array_seen, term as term_seen, statement as statement_seen};
ghost use Rattle.core_code.specs.View.{statements as statements_seen, kernel as kernel_seen};
ghost use Rattle.sound_cores.specs.Declarations.{declared_by as declared_by_seen};
ghost use Rattle.sound_cores.specs.Sound as specs;
ghost use Rattle.sound_cores.specs.View.{declared};
ghost use Rattle.words.specs.View.{kind as kind_seen};

use core_code::tree::{Array, Core, Space, Statement, Term};
use words::Kind;

/// The numbers of slots, buffers and local arrays that a kernel declares.
#[derive(Clone, Copy)]
pub struct Declared {
    pub slots: usize,
    pub buffers: usize,
    pub arrays: usize,
}

/// Counts the declarations of a core.
pub fn declared_by(core: &Core) -> Declared
    ensures { declared result ≡ declared_by_seen (kernel_seen core.now) }
{
    Declared {
        slots: core.arguments.len() + core.variables.len(),
        buffers: core.buffers.len(),
        arrays: core.arrays.len(),
    }
}

fn has_array(d: Declared, array: Array) -> bool
    ensures { result ≡ specs.has_array (declared d) (array_seen array) }
{
    match array.space {
        Space::Global => (array.number as usize) < d.buffers,
        Space::Local => (array.number as usize) < d.arrays,
    }
}

/// Whether a value that is not reckoned has as many bits as a word: a size may have more.
fn is_carried(kind: Kind) -> bool
    ensures { result ≡ specs.is_carried (kind_seen kind) }
{
    match kind {
        Kind::Size => false,
        Kind::Int | Kind::Uint => true,
    }
}

fn is_reckoned_first(term: &Term) -> bool
    ensures { result ≡ specs.is_reckoned_first (term_seen term.now) }
{
    match term {
        Term::Opaque { .. } => false,
        Term::Literal { .. }
        | Term::Variable { .. }
        | Term::Id { .. }
        | Term::Load { .. }
        | Term::Unary { .. }
        | Term::Binary { .. }
        | Term::Convert { .. }
        | Term::Compare { .. }
        | Term::Not { .. }
        | Term::And { .. }
        | Term::Or { .. }
        | Term::Select { .. }
        | Term::Minimum { .. }
        | Term::Maximum { .. }
        | Term::Shift { .. }
        | Term::Within { .. } => true,
    }
}

fn may_become(kind: Kind, of: &Term) -> bool
    ensures { result ≡ specs.may_become (kind_seen kind) (term_seen of.now) }
{
    match kind {
        Kind::Size => is_reckoned_first(of),
        Kind::Int | Kind::Uint => true,
    }
}

fn is_term_within(d: Declared, term: &Term) -> bool
    ensures { result ≡ specs.is_term_within (declared d) (term_seen term.now) }
{
    match term {
        Term::Literal { .. } | Term::Id { .. } => true,
        Term::Variable { slot } => (*slot as usize) < d.slots,
        Term::Load { array, index, .. } => has_array(d, *array) && is_term_within(d, index),
        Term::Unary { of, .. } | Term::Not { of } => is_term_within(d, of),
        Term::Convert { kind, of, .. } => may_become(*kind, of) && is_term_within(d, of),
        Term::Within { index, .. } => is_term_within(d, index),
        Term::Binary { left, right, .. }
        | Term::Compare { left, right, .. }
        | Term::And { left, right }
        | Term::Or { left, right }
        | Term::Minimum { left, right }
        | Term::Maximum { left, right } => is_term_within(d, left) && is_term_within(d, right),
        Term::Select {
            test,
            taken,
            skipped,
        } => is_term_within(d, test) && is_term_within(d, taken) && is_term_within(d, skipped),
        Term::Shift { value, count, .. } => is_term_within(d, value) && is_term_within(d, count),
        Term::Opaque {
            kind,
            first,
            second,
            third,
            ..
        } => {
            is_carried(*kind)
                && all_three(
                    is_term_within(d, first),
                    is_term_within(d, second),
                    is_term_within(d, third),
                )
        }
    }
}

fn all_three(first: bool, second: bool, third: bool) -> bool
    ensures { result ≡ (first && (second && third)) }
{
    first && second && third
}

#[cycle(within)]
fn is_within(d: Declared, statement: &Statement) -> bool
    ensures { result ≡ specs.is_within (declared d) (statement_seen statement.now) }
{
    match statement {
        Statement::Set { slot, value, .. } => (*slot as usize) < d.slots
            && is_term_within(d, value),
        Statement::Store {
            array,
            index,
            value,
            ..
        } => has_array(d, *array) && is_term_within(d, index) && is_term_within(d, value),
        Statement::If {
            test,
            taken,
            skipped,
            ..
        } => all_three(
            is_term_within(d, test),
            are_within(d, taken.as_slice()),
            are_within(d, skipped.as_slice()),
        ),
        Statement::Loop {
            test,
            body,
            update,
            ..
        } => all_three(
            is_term_within(d, test),
            are_within(d, body.as_slice()),
            are_within(d, update.as_slice()),
        ),
        Statement::Barrier { .. }
        | Statement::Return { .. }
        | Statement::Break { .. }
        | Statement::Continue { .. } => true,
    }
}

/// Whether the slots, buffers and local arrays that statements name are declared.
#[cycle(within)]
pub fn are_within(d: Declared, statements: &[Statement]) -> bool
    ensures { result ≡ specs.are_within (declared d) (statements_seen statements.now) }
{
    for statement in statements {
        if !is_within(d, statement) {
            return false;
        }
    }
    true
}
