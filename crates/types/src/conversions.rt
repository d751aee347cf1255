//! Typed terms, and the kinds to which they are brought.

ghost use Rattle.std.specs.Prelude.{◌≡◌, IfOk};
ghost use Rattle.types.specs.Typing as typing;
ghost use Rattle.words.specs.View.{kind};
ghost use Rattle.core_code.specs.View.{site, term};
ghost use Rattle.types.specs.Answers.{typed_term};

use core_code::tree::{Site, Term};
use std::alloc::{AllocError, Global};
use words::Kind;

/// A term of the core, with the kind of its value.
#[derive(Drop)]
pub struct TypedTerm {
    pub kind: Kind,
    pub term: Term,
}

/// The kind to which two operands are brought (C99 6.3.1.8).
pub fn common(left: Kind, right: Kind) -> Kind
    ensures { kind result ≡ typing.common (kind left) (kind right) }
{
    match (left, right) {
        (Kind::Int, _) => right,
        (Kind::Uint, Kind::Int) | (Kind::Uint, Kind::Uint) => Kind::Uint,
        (Kind::Uint, Kind::Size) | (Kind::Size, _) => Kind::Size,
    }
}

/// The term brought to a kind: itself where it has that kind.
pub fn bring(alloc: Global, to: Kind, at: Site, from: TypedTerm) -> Result<Term, AllocError>
    ensures { IfOk result (λ t. term t ≡ typing.bring (kind to) (site at) (typed_term from)) }
{
    match (from.kind, to) {
        (Kind::Int, Kind::Int) | (Kind::Uint, Kind::Uint) | (Kind::Size, Kind::Size) => {
            Ok(from.term)
        }
        (Kind::Int, Kind::Uint | Kind::Size)
        | (Kind::Uint, Kind::Int | Kind::Size)
        | (Kind::Size, Kind::Int | Kind::Uint) => Ok(Term::Convert {
            kind: to,
            site: at,
            of: Box::new(alloc, from.term)?,
        }),
    }
}
