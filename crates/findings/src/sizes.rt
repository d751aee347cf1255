//! Overflows of sizes.

ghost use Rattle.std.specs.Prelude.{◌≡◌, ◌||◌};
ghost use Rattle.words.specs.View.{kind as kind_seen, fault as fault_seen};
ghost use Rattle.core_code.specs.View.{site as site_seen, term as term_seen, statement as statement_seen, statements as statements_seen};
ghost use Rattle.findings.specs.Sizes as sizes;

use core_code::tree::{Site, Statement, Term};
use words::{Fault, Kind};

// The disjunction of two truth values; both are asked beforehand.
fn either(first: bool, second: bool) -> bool
    ensures { result ≡ (first || second) }
{
    first || second
}

/// Whether a size is given at a site, and the site is the one that is asked for.
fn is_size_at(at: Site, kind: Kind, site: Site) -> bool
    ensures { result ≡ sizes.is_size_at (site_seen at) (kind_seen kind) (site_seen site) }
{
    kind == Kind::Size && site.line == at.line && site.column == at.column
}

/// Whether a term has an operator or a conversion at the site that gives a size.
fn gives_size(at: Site, term: &Term) -> bool
    ensures { result ≡ sizes.gives_size (site_seen at) (term_seen term.now) }
{
    match term {
        Term::Literal { .. } | Term::Variable { .. } | Term::Id { .. } => false,
        Term::Load { index, .. } => gives_size(at, index),
        Term::Unary { kind, site, of, .. } => {
            either(is_size_at(at, *kind, *site), gives_size(at, of))
        }
        Term::Binary {
            kind,
            site,
            left,
            right,
            ..
        } => {
            either(
                is_size_at(at, *kind, *site),
                either(gives_size(at, left), gives_size(at, right)),
            )
        }
        Term::Convert { kind, site, of } => {
            either(is_size_at(at, *kind, *site), gives_size(at, of))
        }
        Term::Not { of } => gives_size(at, of),
        Term::Select {
            test,
            taken,
            skipped,
        } => either(
            gives_size(at, test),
            either(gives_size(at, taken), gives_size(at, skipped)),
        ),
        Term::Compare { left, right, .. } => either(gives_size(at, left), gives_size(at, right)),
        Term::And { left, right } => either(gives_size(at, left), gives_size(at, right)),
        Term::Or { left, right } => either(gives_size(at, left), gives_size(at, right)),
        Term::Minimum { left, right } => either(gives_size(at, left), gives_size(at, right)),
        Term::Maximum { left, right } => either(gives_size(at, left), gives_size(at, right)),
        Term::Shift { value, count, .. } => either(gives_size(at, value), gives_size(at, count)),
        Term::Within { index, .. } => gives_size(at, index),
        Term::Opaque {
            first,
            second,
            third,
            ..
        } => either(
            gives_size(at, first),
            either(gives_size(at, second), gives_size(at, third)),
        ),
    }
}

/// Whether a statement gives a size at the site.
#[cycle(statements)]
fn has_size(at: Site, statement: &Statement) -> bool
    ensures { result ≡ sizes.has_size (site_seen at) (statement_seen statement.now) }
{
    match statement {
        Statement::Set { value, .. } => gives_size(at, value),
        Statement::Store { index, value, .. } => {
            either(gives_size(at, index), gives_size(at, value))
        }
        Statement::If {
            test,
            taken,
            skipped,
            ..
        } => {
            let inside = either(
                have_size(at, taken.as_slice()),
                have_size(at, skipped.as_slice()),
            );
            either(gives_size(at, test), inside)
        }
        Statement::Loop {
            test,
            body,
            update,
            ..
        } => {
            let inside = either(
                have_size(at, body.as_slice()),
                have_size(at, update.as_slice()),
            );
            either(gives_size(at, test), inside)
        }
        Statement::Barrier { .. }
        | Statement::Return { .. }
        | Statement::Break { .. }
        | Statement::Continue { .. } => false,
    }
}

/// Whether statements give a size at the site.
#[cycle(statements)]
fn have_size(at: Site, body: &[Statement]) -> bool
    ensures { result ≡ sizes.have_size (site_seen at) (statements_seen body.now) }
{
    for statement in body {
        if has_size(at, statement) {
            return true;
        }
    }
    false
}

/// Whether a fault at a site of a kernel's body is of a size: an overflow there is none of a signed result.
pub fn is_of_size(body: &[Statement], fault: Fault, at: Site) -> bool
    ensures { result ≡ sizes.is_of_size (statements_seen body.now) (fault_seen fault) (site_seen at) }
{
    match fault {
        Fault::Overflow => have_size(at, body),
        Fault::DivisionByZero | Fault::OutOfBounds => false,
    }
}
