//! The last numbers in statements.

ghost use Rattle.std.specs.Prelude.{◌≡◌};
ghost use Rattle.syntax.specs.View.{statement as statement_seen, statements as statements_seen};
ghost use Rattle.kernel_names.specs.NameMap as maps;

use syntax::tree::Stmt;

/// The last number in a statement.
#[cycle(numbers)]
fn last_in(statement: &Stmt) -> u32
    ensures { result ≡ maps.last_in (statement_seen statement.now) }
{
    match statement {
        Stmt::Declare(declaration) => declaration.number,
        Stmt::Assign(assignment) => assignment.number,
        Stmt::DeclareArray { number, .. }
        | Stmt::Barrier { number, .. }
        | Stmt::Jump { number, .. } => *number,
        Stmt::If {
            number,
            taken,
            skipped,
            ..
        } => {
            let before = last_among(taken.as_slice(), *number);
            last_among(skipped.as_slice(), before)
        }
        Stmt::While { number, body, .. } => last_among(body.as_slice(), *number),
        Stmt::Block { number, body, .. } => last_among(body.as_slice(), *number),
        Stmt::For { update, body, .. } => last_among(body.as_slice(), update.number),
    }
}

/// The last number among statements; where there are none, that of what stands before them.
#[cycle(numbers)]
pub fn last_among(body: &[Stmt], before: u32) -> u32
    ensures { result ≡ maps.last_among (statements_seen body.now) before }
{
    let mut last = before;
    for statement in body {
        last = last_in(statement);
    }
    last
}
