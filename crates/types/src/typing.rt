//! The kinds and terms of expressions.

ghost use Rattle.std.specs.Prelude.{◌≡◌, ◌≤◌, ℕ, [], ◌∷◌, length, Ok, IfOk, IfSome};
ghost use Rattle.std.specs.Option.{option_map};
ghost use Rattle.semantics.specs.Core as core;
ghost use Rattle.semantics.specs.Word as word;
ghost use Rattle.texts.specs.Surface as surface;
ghost use Rattle.types.specs.TypeFaults as rules;
ghost use Rattle.types.specs.Typing as typing;
ghost use Rattle.words.specs.View.{kind};
ghost use Rattle.syntax.specs.View.{expression, expressions, infix_sign, prefix_sign};
ghost use Rattle.core_code.specs.View.{site};
ghost use Rattle.core_code.specs.View.{term, array as array_seen, operator as operator_seen, unary_operator, function as function_of};
ghost use Rattle.types.specs.Functions.{pick as pick_of};
ghost use Rattle.types.specs.Names.{devices, names, meaning_seen};
ghost use Rattle.types.specs.Answers.{typed_term, IsTyped, IsArrayOf};

use crate::calls::{Pick, function_named, is_left_out, pick_named};
use crate::conversions::{TypedTerm, bring, common};
use crate::devices::Devices;
use crate::error::{TypeError, TypeFault};
use crate::scope::{Meaning, Scope, meaning_of};
use core_code::tree::{Array, Function, Operator, Site, Term, UnaryOperator};
use std::alloc::{AllocError, Global};
use syntax::tree::{Expr, InfixSign, PrefixSign};
use words::{Kind, power};

fn prefix_term(
    alloc: Global,
    sign: PrefixSign,
    at: Site,
    of: TypedTerm,
) -> Result<TypedTerm, TypeError>
    ensures { IsTyped result (Ok (typing.prefix_term (prefix_sign sign) (site at) (typed_term of))) }
{
    let kind = of.kind;
    let of = Box::new(alloc, of.term)?;
    match sign {
        PrefixSign::Minus => Ok(TypedTerm {
            kind,
            term: Term::Unary {
                operator: UnaryOperator::Negate,
                kind,
                site: at,
                of,
            },
        }),
        PrefixSign::LogicalNot => Ok(TypedTerm {
            kind: Kind::Int,
            term: Term::Not { of },
        }),
        PrefixSign::BitNot => Ok(TypedTerm {
            kind,
            term: Term::Unary {
                operator: UnaryOperator::Complement,
                kind,
                site: at,
                of,
            },
        }),
    }
}

fn cast_term(alloc: Global, to: Kind, at: Site, of: TypedTerm) -> Result<TypedTerm, TypeError>
    ensures { IsTyped result (Ok (typing.typed (kind to) (typing.bring (kind to) (site at) (typed_term of)))) }
{
    Ok(TypedTerm {
        kind: to,
        term: bring(alloc, to, at, of)?,
    })
}

fn load_term(
    alloc: Global,
    at: Site,
    element: (Array, Kind),
    index: TypedTerm,
) -> Result<TypedTerm, TypeError>
    ensures { IsTyped result (Ok (typing.element_term (site at) (array_seen element.0, kind element.1) (typed_term index))) }
{
    let (array, kind) = element;
    Ok(TypedTerm {
        kind,
        term: Term::Load {
            array,
            site: at,
            index: Box::new(alloc, index.term)?,
        },
    })
}

// The kind has no negative numbers.
fn is_unsigned(of: Kind) -> bool
    ensures { result ≡ typing.is_unsigned (kind of) }
{
    match of {
        Kind::Int => false,
        Kind::Uint | Kind::Size => true,
    }
}

// The count of a shift: a number in the text, 0 to 31, beside a `uint` or a size.
fn shift_count(left: Kind, right: &Expr) -> Option<u32>
    ensures count { result ≡ typing.shift_count (kind left) (expression right.now) }
    ensures small { IfSome result (λ n. n ≤ 31) }
{
    if !is_unsigned(left) {
        return None;
    }
    match right {
        Expr::Number { value, .. } if *value <= 31 => Some(*value),
        _ => None,
    }
}

// A shift of an operand by a count: bit by bit of a `uint`; of a size the product with a power of 2, or the quotient by it.
fn shifted(
    alloc: Global,
    shift: UnaryOperator,
    by_power: Operator,
    at: Site,
    of: TypedTerm,
    count: u32,
) -> Result<TypedTerm, TypeError>
    requires { count ≤ 31 }
    ensures { (f : ℕ → word.UnaryOperator) → unary_operator shift ≡ f count → IsTyped result (Ok (typing.typed (typing.common word.Uint (kind of.kind)) (typing.shifted f (operator_seen by_power) (site at) (kind of.kind) (term of.term) count))) }
{
    match of.kind {
        Kind::Int | Kind::Uint => Ok(TypedTerm {
            kind: Kind::Uint,
            term: Term::Unary {
                operator: shift,
                kind: Kind::Uint,
                site: at,
                of: Box::new(alloc, of.term)?,
            },
        }),
        Kind::Size => {
            let factor = Term::Literal {
                kind: Kind::Uint,
                value: power(count),
            };
            let (left, right) = boxes(alloc, of.term, factor)?;
            Ok(TypedTerm {
                kind: Kind::Size,
                term: Term::Binary {
                    operator: by_power,
                    kind: Kind::Size,
                    site: at,
                    left,
                    right,
                },
            })
        }
    }
}

fn left_shift(
    alloc: Global,
    at: Site,
    operand: &Expr,
    of: TypedTerm,
) -> Result<TypedTerm, TypeError>
    ensures { IsTyped result (typing.shift_term (site at) word.ShiftLeft word.Multiply (typed_term of) (typing.shift_count (kind of.kind) (expression operand.now))) }
{
    match shift_count(of.kind, operand) {
        Some(count) => shifted(
            alloc,
            UnaryOperator::ShiftLeft(count),
            Operator::Multiply,
            at,
            of,
            count,
        ),
        None => Err(TypeError::At {
            fault: TypeFault::WrongType,
            site: at,
        }),
    }
}

fn right_shift(
    alloc: Global,
    at: Site,
    operand: &Expr,
    of: TypedTerm,
) -> Result<TypedTerm, TypeError>
    ensures { IsTyped result (typing.shift_term (site at) word.ShiftRight word.Divide (typed_term of) (typing.shift_count (kind of.kind) (expression operand.now))) }
{
    match shift_count(of.kind, operand) {
        Some(count) => shifted(
            alloc,
            UnaryOperator::ShiftRight(count),
            Operator::Divide,
            at,
            of,
            count,
        ),
        None => Err(TypeError::At {
            fault: TypeFault::WrongType,
            site: at,
        }),
    }
}

fn boxes(alloc: Global, left: Term, right: Term) -> Result<(Box<Term>, Box<Term>), AllocError>
    ensures left { IfOk result (λ both. both.0.value ≡ left) }
    ensures right { IfOk result (λ both. both.1.value ≡ right) }
{
    let left = Box::new(alloc, left)?;
    let right = Box::new(alloc, right)?;
    Ok((left, right))
}

// An operand of an operator of a kind.
fn operand_of(alloc: Global, to: Kind, at: Site, of: TypedTerm) -> Result<Term, AllocError>
    ensures { IfOk result (λ t. term t ≡ typing.operand (kind to) (site at) (typed_term of)) }
{
    match (to, of.kind) {
        (Kind::Size, Kind::Int) => bring(alloc, to, at, of),
        (Kind::Size, Kind::Uint | Kind::Size) | (Kind::Int | Kind::Uint, _) => Ok(of.term),
    }
}

// Both operands of an operator of a kind.
fn operands_of(
    alloc: Global,
    to: Kind,
    at: Site,
    left: TypedTerm,
    right: TypedTerm,
) -> Result<(Box<Term>, Box<Term>), AllocError>
    ensures left { IfOk result (λ both. term both.0.value ≡ typing.operand (kind to) (site at) (typed_term left)) }
    ensures right { IfOk result (λ both. term both.1.value ≡ typing.operand (kind to) (site at) (typed_term right)) }
{
    let left = operand_of(alloc, to, at, left)?;
    let right = operand_of(alloc, to, at, right)?;
    boxes(alloc, left, right)
}

/// The term of an operator between two operands; `operand` is the right one in the text.
pub fn infix_term(
    alloc: Global,
    sign: InfixSign,
    at: Site,
    operand: &Expr,
    left: TypedTerm,
    right: TypedTerm,
) -> Result<TypedTerm, TypeError>
    ensures { IsTyped result (typing.infix_term (infix_sign sign) (site at) (expression operand.now) (typed_term left) (typed_term right)) }
{
    let kind = common(left.kind, right.kind);
    match sign {
        InfixSign::LeftShift => left_shift(alloc, at, operand, left),
        InfixSign::RightShift => right_shift(alloc, at, operand, left),
        InfixSign::Arithmetic(operator) => {
            let (left, right) = operands_of(alloc, kind, at, left, right)?;
            let term = Term::Binary {
                operator,
                kind,
                site: at,
                left,
                right,
            };
            Ok(TypedTerm { kind, term })
        }
        InfixSign::Comparison(relation) => {
            let (left, right) = operands_of(alloc, kind, at, left, right)?;
            Ok(TypedTerm {
                kind: Kind::Int,
                term: Term::Compare {
                    relation,
                    kind,
                    left,
                    right,
                },
            })
        }
        InfixSign::LogicalAnd => {
            let (left, right) = boxes(alloc, left.term, right.term)?;
            Ok(TypedTerm {
                kind: Kind::Int,
                term: Term::And { left, right },
            })
        }
        InfixSign::LogicalOr => {
            let (left, right) = boxes(alloc, left.term, right.term)?;
            Ok(TypedTerm {
                kind: Kind::Int,
                term: Term::Or { left, right },
            })
        }
    }
}

fn select_term(alloc: Global, test: Term, taken: Term, skipped: Term) -> Result<Term, AllocError>
    ensures { IfOk result (λ t. term t ≡ core.Select (term test) (term taken) (term skipped)) }
{
    let (taken, skipped) = boxes(alloc, taken, skipped)?;
    Ok(Term::Select {
        test: Box::new(alloc, test)?,
        taken,
        skipped,
    })
}

fn conditional_term(
    alloc: Global,
    at: Site,
    test: TypedTerm,
    taken: TypedTerm,
    skipped: TypedTerm,
) -> Result<TypedTerm, TypeError>
    ensures { IsTyped result (Ok (typing.conditional_term (site at) (typed_term test) (typed_term taken) (typed_term skipped))) }
{
    let kind = common(taken.kind, skipped.kind);
    let taken = bring(alloc, kind, at, taken)?;
    let skipped = bring(alloc, kind, at, skipped)?;
    Ok(TypedTerm {
        kind,
        term: select_term(alloc, test.term, taken, skipped)?,
    })
}

// Whether the work-item functions may be asked for a dimension of that number, where ids have this kind.
fn has_dimension(size: Kind, dimension: u32) -> bool
    ensures { result ≡ typing.has_dimension (kind size) dimension }
{
    size != Kind::Size || dimension <= 2
}

#[tactic(auto, using(crate::proofs::Arguments::arguments))]
fn id_term(
    size: Kind,
    function: Function,
    at: Site,
    arguments: &[Expr],
) -> Result<TypedTerm, TypeError>
    ensures { IsTyped result (typing.id_term (kind size) (site at) (function_of function) (expressions arguments.now)) }
{
    if arguments.len() != 1 {
        return Err(TypeError::At {
            fault: TypeFault::WrongType,
            site: at,
        });
    }
    match &arguments[0] {
        Expr::Number { value, .. } if has_dimension(size, *value) => Ok(TypedTerm {
            kind: size,
            term: Term::Id {
                kind: size,
                function,
                dimension: *value,
            },
        }),
        Expr::Number { site, .. } => Err(TypeError::At {
            fault: TypeFault::WrongType,
            site: *site,
        }),
        _ => Err(TypeError::At {
            fault: TypeFault::WrongType,
            site: at,
        }),
    }
}

fn pick_term(
    alloc: Global,
    pick: Pick,
    at: Site,
    left: TypedTerm,
    right: TypedTerm,
) -> Result<TypedTerm, TypeError>
    ensures { IsTyped result (typing.pick_term (site at) (pick_of pick) (typed_term left ∷ typed_term right ∷ [])) }
{
    if left.kind != right.kind {
        return Err(TypeError::At {
            fault: TypeFault::WrongType,
            site: at,
        });
    }
    let kind = left.kind;
    let (left, right) = boxes(alloc, left.term, right.term)?;
    match pick {
        Pick::Minimum => Ok(TypedTerm {
            kind,
            term: Term::Minimum { left, right },
        }),
        Pick::Maximum => Ok(TypedTerm {
            kind,
            term: Term::Maximum { left, right },
        }),
    }
}

fn variable_term(at: Site, meaning: Option<Meaning>) -> Result<TypedTerm, TypeError>
    ensures { IsTyped result (rules.then (rules.found (option_map meaning_seen meaning) rules.UnknownName (site at)) (typing.variable_term (site at))) }
{
    match meaning {
        None => Err(TypeError::At {
            fault: TypeFault::UnknownName,
            site: at,
        }),
        Some(Meaning::Array { .. }) => Err(TypeError::At {
            fault: TypeFault::WrongType,
            site: at,
        }),
        Some(Meaning::Variable { slot, kind }) => Ok(TypedTerm {
            kind,
            term: Term::Variable { slot },
        }),
    }
}

fn array_of(at: Site, meaning: Option<Meaning>) -> Result<(Array, Kind), TypeError>
    ensures { IsArrayOf result (rules.then (rules.found (option_map meaning_seen meaning) rules.UnknownName (site at)) (typing.array_of (site at))) }
{
    match meaning {
        None => Err(TypeError::At {
            fault: TypeFault::UnknownName,
            site: at,
        }),
        Some(Meaning::Variable { .. }) => Err(TypeError::At {
            fault: TypeFault::WrongType,
            site: at,
        }),
        Some(Meaning::Array { array, kind, .. }) => Ok((array, kind)),
    }
}

#[cycle(typing)]
#[tactic(auto, using(crate::proofs::Arguments::both_typed))]
fn pick_of_two(
    alloc: Global,
    scope: &Scope,
    pick: Pick,
    at: Site,
    arguments: &[Expr],
) -> Result<TypedTerm, TypeError>
    requires { length arguments.now ≡ 2 }
    ensures { IsTyped result (rules.then (typing.types_of (devices scope.now.devices) (names scope.now.visible) (expressions arguments.now)) (typing.pick_term (site at) (pick_of pick))) }
{
    let left = type_of(alloc, scope, &arguments[0])?;
    let right = type_of(alloc, scope, &arguments[1])?;
    pick_term(alloc, pick, at, left, right)
}

#[cycle(typing)]
#[tactic(auto, using(crate::proofs::Arguments::counted), unfolding(crate::specs::Typing::type_of))]
fn call_term(
    alloc: Global,
    scope: &Scope,
    at: Site,
    name: &str,
    arguments: &[Expr],
) -> Result<TypedTerm, TypeError>
    ensures { IsTyped result (typing.type_of (devices scope.now.devices) (names scope.now.visible) (surface.Call (site at) name.now (expressions arguments.now))) }
{
    if is_left_out(name) {
        return Err(TypeError::At {
            fault: TypeFault::LeftOutWord,
            site: at,
        });
    }
    if let Some(function) = function_named(name) {
        return id_term(scope.devices.size_kind(), function, at, arguments);
    }
    let Some(pick) = pick_named(name) else {
        return Err(TypeError::At {
            fault: TypeFault::UnknownName,
            site: at,
        });
    };
    if arguments.len() != 2 {
        return Err(TypeError::At {
            fault: TypeFault::WrongType,
            site: at,
        });
    }
    pick_of_two(alloc, scope, pick, at, arguments)
}

/// The kind and the term of an expression, where it is well typed among the visible names, for these devices; else its first broken rule,
/// from left to right.
#[cycle(typing)]
#[tactic(auto, using(syntax::proofs::Rows::seen_call), unfolding(crate::specs::Typing::type_of))]
pub fn type_of(alloc: Global, scope: &Scope, e: &Expr) -> Result<TypedTerm, TypeError>
    ensures { IsTyped result (typing.type_of (devices scope.now.devices) (names scope.now.visible) (expression e.now)) }
{
    match e {
        Expr::Number { kind, value, .. } => Ok(TypedTerm {
            kind: *kind,
            term: Term::Literal {
                kind: *kind,
                value: *value,
            },
        }),
        Expr::Name { site, name } => variable_term(
            *site,
            meaning_of(&scope.visible, name.as_str()),
        ),
        Expr::Element { site, name, index } => {
            let element = array_of(*site, meaning_of(&scope.visible, name.as_str()))?;
            let index = type_of(alloc, scope, index)?;
            load_term(alloc, *site, element, index)
        }
        Expr::Call {
            site,
            name,
            arguments,
        } => call_term(alloc, scope, *site, name.as_str(), arguments.as_slice()),
        Expr::Prefix { site, sign, of } => {
            let of = type_of(alloc, scope, of)?;
            prefix_term(alloc, *sign, *site, of)
        }
        Expr::Cast { site, kind, of } => {
            let of = type_of(alloc, scope, of)?;
            cast_term(alloc, *kind, *site, of)
        }
        Expr::Infix {
            site,
            sign,
            left,
            right,
        } => {
            let first = type_of(alloc, scope, left)?;
            let second = type_of(alloc, scope, right)?;
            infix_term(alloc, *sign, *site, right, first, second)
        }
        Expr::Conditional {
            site,
            test,
            taken,
            skipped,
        } => {
            let test = type_of(alloc, scope, test)?;
            let taken = type_of(alloc, scope, taken)?;
            let skipped = type_of(alloc, scope, skipped)?;
            conditional_term(alloc, *site, test, taken, skipped)
        }
    }
}
