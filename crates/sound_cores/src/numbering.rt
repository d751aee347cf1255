//! Whether statements are numbered in the order in which they stand.

ghost use Rattle.std.specs.Prelude.{◌≡◌};
ghost use Rattle.core_code.specs.View.{statement as statement_seen, statements as statements_seen};
ghost use Rattle.sound_cores.specs.Sound as specs;

use core_code::tree::Statement;

fn after(next: u64, number: u32) -> Option<u64>
    ensures { result ≡ specs.after next number }
{
    if (number as u64) < next {
        None
    } else {
        Some(number as u64 + 1)
    }
}

#[cycle(numbered)]
fn numbered(next: u64, statement: &Statement) -> Option<u64>
    ensures { result ≡ specs.numbered next (statement_seen statement.now) }
{
    match statement {
        Statement::Set { number, .. }
        | Statement::Store { number, .. }
        | Statement::Barrier { number, .. }
        | Statement::Return { number }
        | Statement::Break { number, .. }
        | Statement::Continue { number, .. } => after(next, *number),
        Statement::If {
            number,
            taken,
            skipped,
            ..
        } => {
            let inside = after(next, *number)?;
            let between = all_numbered(inside, taken.as_slice())?;
            all_numbered(between, skipped.as_slice())
        }
        Statement::Loop {
            number,
            body,
            update,
            ..
        } => {
            let inside = after(next, *number)?;
            let between = all_numbered(inside, body.as_slice())?;
            all_numbered(between, update.as_slice())
        }
    }
}

/// The next free number behind statements that are numbered in the order in which they stand, from a number on; none where they are not.
#[cycle(numbered)]
pub fn all_numbered(next: u64, statements: &[Statement]) -> Option<u64>
    ensures { result ≡ specs.all_numbered next (statements_seen statements.now) }
{
    let mut free = next;
    for statement in statements {
        free = numbered(free, statement)?;
    }
    Some(free)
}
