//! Whether two work-items wait alike.

ghost use Rattle.std.specs.Prelude.{◌≡◌, [], bytes_eq};
ghost use Rattle.semantics.specs.Item as meaning;
ghost use Rattle.core_code.specs.View.{statement as statement_seen, statements as statements_seen};
ghost use Rattle.work_item.specs.Left.{left, stacked};
ghost use Rattle.work_item.specs.Rests.{entry, rest, is_same_entry};

use crate::left::{Frame, Left};
use core_code::tree::Statement;

/// The statements that are left of an item, gone over entry by entry.
#[derive(Clone, Copy)]
pub struct Rest<'a, 'b> {
    pub front: Option<Frame<'a>>,
    pub around: &'b [Frame<'a>],
}

/// Whether a statement is a barrier with the local flag: 1, else 0.
fn local_flag(statement: &Statement) -> u64
    ensures { result ≡ meaning.local_flag (statement_seen statement.now) }
{
    match statement {
        Statement::Barrier { local, .. } => *local as u64,
        _ => 0,
    }
}

/// Whether a statement is a barrier with the global flag: 1, else 0.
fn global_flag(statement: &Statement) -> u64
    ensures { result ≡ meaning.global_flag (statement_seen statement.now) }
{
    match statement {
        Statement::Barrier { global, .. } => *global as u64,
        _ => 0,
    }
}

fn is_same_entry(one: Frame, other: Frame) -> bool
    ensures { result ≡ is_same_entry (entry one.entry) (entry other.entry) }
{
    one.statement.number() == other.statement.number()
        && one.turns == other.turns
        && local_flag(one.statement) == local_flag(other.statement)
        && global_flag(one.statement) == global_flag(other.statement)
}

/// The entries of all that is left of an item's statements.
fn all_of<'a, 'b>(of: &'b Left<'a>) -> Rest<'a, 'b>
    ensures { rest result ≡ left of.now }
{
    Rest {
        front: of.front,
        around: of.around.as_slice(),
    }
}

/// The entries around a block, from the innermost one, which is the last frame.
#[tactic(auto, using(crate::proofs::Trails::no_block, crate::proofs::Trails::last_block))]
fn around<'a, 'b>(frames: &'b [Frame<'a>]) -> Rest<'a, 'b>
    ensures { rest result ≡ stacked frames.now [] }
{
    match frames.split_last() {
        Some((last, before)) => Rest {
            front: Some(*last),
            around: before,
        },
        None => Rest {
            front: None,
            around: frames,
        },
    }
}

/// The entries behind the statement in front, which is dropped.
fn behind_of<'a, 'b>(frame: Frame<'a>, frames: &'b [Frame<'a>]) -> Rest<'a, 'b>
    ensures { rest result ≡ meaning.enter (statements_seen frame.entry.others.now) (stacked frames.now []) }
{
    match frame.others.split_first() {
        Some((statement, others)) => Rest {
            front: Some(Frame {
                statement,
                turns: 0,
                others,
            }),
            around: frames,
        },
        None => around(frames),
    }
}

/// Whether two lists left are equal, by numbers of statements, turns and fence flags.
#[tactic(auto, using(crate::proofs::Trails::next_entries))]
pub fn same_left(first: &Left, second: &Left) -> bool
    ensures { result ≡ bytes_eq (meaning.trail (left first.now)) (meaning.trail (left second.now)) }
{
    let mut one = all_of(first);
    let mut other = all_of(second);
    while let Some(frame) = one.front {
        let Some(beside) = other.front else {
            return false;
        };
        if !is_same_entry(frame, beside) {
            return false;
        }
        one = behind_of(frame, one.around);
        other = behind_of(beside, other.around);
    }
    other.front.is_none()
}
