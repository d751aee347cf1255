//! What built-in functions make of the values of their arguments.

ghost use Rattle.std.specs.Prelude.{◌≡◌, length, IfOk, Ok};
ghost use Rattle.core_code.specs.View.{site, term};
ghost use Rattle.opencl_terms.specs.Conversions as conversions;
ghost use Rattle.opencl_terms.specs.Operations as operations;
ghost use Rattle.opencl_terms.specs.Types as types;
ghost use Rattle.opencl_terms.specs.View.{scalar as scalar_seen};
ghost use Rattle.opencl_tree.specs.View.{expressions};
ghost use Rattle.opencl_values.specs.Calls as rules;
ghost use Rattle.opencl_values.specs.CallsView.{call as seen};
ghost use Rattle.opencl_values.specs.FunctionsView.{form as form_seen};
ghost use Rattle.opencl_values.specs.View.{fault as fault_seen, single, singles_seen as values, Gives};
ghost use Rattle.semantics.specs.Core as core;
ghost use Rattle.semantics.specs.Word as word;
ghost use Rattle.words.specs.View.{kind as kind_seen};

use crate::error::{Construct, Fault, ValueError, refused};
use crate::functions::Form;
use crate::saturation::{has_bits_of, reread, saturated_from};
use crate::singles::{Single, as_scalar};
use core_code::tree::{Operator, Relation, Site, Term, UnaryOperator};
use core_pieces::copies::copy_of;
use core_pieces::pieces::{
    and, binary, compare, convert, literal, maximum, minimum, opaque, select, unary,
};
use opencl_terms::narrowing::narrowed;
use opencl_terms::scalars::{Scalar, common};
use opencl_tree::tree::Expr;
use std::alloc::{AllocError, Global};
use words::Kind;

/// A call of a built-in function: the kind of sizes, the number of its operation, the scalar of all its arguments, where it stands, and the
/// values of its arguments.
#[derive(Clone, Copy)]
pub struct Call<'a> {
    pub ids: Kind,
    pub operation: u32,
    pub to: Scalar,
    pub at: Site,
    pub of: &'a [Single],
}

impl Call<'_> {
    ghost use Rattle.std.specs.Prelude.{◌≡◌};
    ghost use Rattle.opencl_values.specs.Calls as rules;
    ghost use Rattle.opencl_values.specs.CallsView.{call as seen};
    ghost use Rattle.words.specs.View.{kind as kind_seen};

    // The kind that carries its arguments.
    fn kind(self) -> Kind
        ensures { kind_seen result ≡ rules.kind_in (seen self.entry) }
    {
        self.to.kind(self.ids)
    }
}

// What stands for an argument that there is not.
fn nothing() -> Term
    ensures { term result ≡ operations.nothing }
{
    literal(Kind::Uint, 0)
}

// A copy of a value.
fn copied(alloc: Global, of: &Single) -> Result<Single, AllocError>
    ensures { IfOk result (λ v. single v ≡ single of.now) }
{
    Ok(Single {
        scalar: of.scalar,
        term: copy_of(alloc, &of.term)?,
    })
}

// The argument of a number, from 0, as a scalar.
#[tactic(auto, using(crate::proofs::Arguments::values_at))]
fn argument_as(alloc: Global, to: Scalar, call: Call, place: usize) -> Result<Term, AllocError>
    ensures { IfOk result (λ t. term t ≡ rules.argument_as (scalar_seen to) (seen call.entry) place) }
{
    let arguments = call.of;
    if arguments.len() <= place {
        return Ok(nothing());
    }
    let of = copied(alloc, &arguments[place])?;
    as_scalar(alloc, call.ids, to, call.at, of)
}

/// The argument of a number, from 0, as the scalar of all.
pub fn argument(alloc: Global, call: Call, place: usize) -> Result<Term, AllocError>
    ensures { IfOk result (λ t. term t ≡ rules.argument (seen call.entry) place) }
{
    argument_as(alloc, call.to, call, place)
}

// The first two arguments, each as a scalar.
fn both_as(alloc: Global, to: Scalar, next: Scalar, call: Call) -> Result<(Term, Term), AllocError>
    ensures first { IfOk result (λ two. term two.0 ≡ rules.argument_as (scalar_seen to) (seen call.entry) 0) }
    ensures second { IfOk result (λ two. term two.1 ≡ rules.argument_as (scalar_seen next) (seen call.entry) 1) }
{
    let first = argument_as(alloc, to, call, 0)?;
    let second = argument_as(alloc, next, call, 1)?;
    Ok((first, second))
}

fn both(alloc: Global, call: Call) -> Result<(Term, Term), AllocError>
    ensures first { IfOk result (λ two. term two.0 ≡ rules.argument (seen call.entry) 0) }
    ensures second { IfOk result (λ two. term two.1 ≡ rules.argument (seen call.entry) 1) }
{
    both_as(alloc, call.to, call.to, call)
}

// An operation that is not reckoned, of arguments of one scalar.
fn unreckoned_as(alloc: Global, to: Scalar, gives: Kind, call: Call) -> Result<Term, AllocError>
    ensures { IfOk result (λ t. term t ≡ rules.unreckoned_as (scalar_seen to) (kind_seen gives) (seen call.entry)) }
{
    let (first, second) = both_as(alloc, to, to, call)?;
    let third = argument_as(alloc, to, call, 2)?;
    opaque(alloc, (call.operation, 0, gives), first, second, third)
}

fn unreckoned(alloc: Global, call: Call) -> Result<Term, AllocError>
    ensures { IfOk result (λ t. term t ≡ rules.unreckoned (seen call.entry)) }
{
    if call.to.is_narrow() {
        let word = unreckoned_as(alloc, call.to, Kind::Uint, call)?;
        return narrowed(alloc, call.to, call.at, word);
    }
    unreckoned_as(alloc, call.to, call.kind(), call)
}

fn lesser(alloc: Global, call: Call) -> Result<Term, AllocError>
    ensures { IfOk result (λ t. term t ≡ rules.or_unreckoned (seen call.entry) (rules.lesser (seen call.entry))) }
{
    if call.to.is_float() {
        return unreckoned(alloc, call);
    }
    let (first, second) = both(alloc, call)?;
    minimum(alloc, first, second)
}

fn greater(alloc: Global, call: Call) -> Result<Term, AllocError>
    ensures { IfOk result (λ t. term t ≡ rules.or_unreckoned (seen call.entry) (rules.greater (seen call.entry))) }
{
    if call.to.is_float() {
        return unreckoned(alloc, call);
    }
    let (first, second) = both(alloc, call)?;
    maximum(alloc, first, second)
}

fn are_ordered(alloc: Global, call: Call) -> Result<Term, AllocError>
    ensures { IfOk result (λ t. term t ≡ rules.are_ordered (seen call.entry)) }
{
    let low = argument(alloc, call, 1)?;
    let high = argument(alloc, call, 2)?;
    compare(alloc, Relation::AtMost, call.kind(), low, high)
}

fn between(alloc: Global, call: Call) -> Result<Term, AllocError>
    ensures { IfOk result (λ t. term t ≡ rules.between (seen call.entry)) }
{
    let (value, low) = both(alloc, call)?;
    let above = maximum(alloc, value, low)?;
    let high = argument(alloc, call, 2)?;
    minimum(alloc, above, high)
}

// A choice, or else what is not reckoned.
fn or_unreckoned(alloc: Global, call: Call, test: Term, taken: Term) -> Result<Term, AllocError>
    ensures { IfOk result (λ t. term t ≡ core.Select (term test) (term taken) (rules.unreckoned (seen call.entry))) }
{
    let otherwise = unreckoned(alloc, call)?;
    select(alloc, test, taken, otherwise)
}

fn clamped(alloc: Global, call: Call) -> Result<Term, AllocError>
    ensures { IfOk result (λ t. term t ≡ rules.or_unreckoned (seen call.entry) (rules.clamped (seen call.entry))) }
{
    if call.to.is_float() {
        return unreckoned(alloc, call);
    }
    let test = are_ordered(alloc, call)?;
    let taken = between(alloc, call)?;
    or_unreckoned(alloc, call, test, taken)
}

fn is_negative(alloc: Global, call: Call) -> Result<Term, AllocError>
    ensures { IfOk result (λ t. term t ≡ core.Compare word.Less word.Int (rules.argument (seen call.entry) 0) (conversions.int 0)) }
{
    let value = argument(alloc, call, 0)?;
    compare(
        alloc,
        Relation::Less,
        Kind::Int,
        value,
        literal(Kind::Int, 0),
    )
}

fn first_as_uint(alloc: Global, call: Call) -> Result<Term, AllocError>
    ensures { IfOk result (λ t. term t ≡ core.Convert word.Uint (site call.entry.at) (rules.argument (seen call.entry) 0)) }
{
    let value = argument(alloc, call, 0)?;
    convert(alloc, Kind::Uint, call.at, value)
}

fn negative_as_uint(alloc: Global, call: Call) -> Result<Term, AllocError>
    ensures { IfOk result (λ t. term t ≡ rules.negative_as_uint (seen call.entry)) }
{
    let value = first_as_uint(alloc, call)?;
    binary(
        alloc,
        Operator::Subtract,
        Kind::Uint,
        call.at,
        literal(Kind::Uint, 0),
        value,
    )
}

fn absolute_int(alloc: Global, call: Call) -> Result<Term, AllocError>
    ensures { IfOk result (λ t. term t ≡ rules.absolute_int (seen call.entry)) }
{
    let test = is_negative(alloc, call)?;
    let taken = negative_as_uint(alloc, call)?;
    let skipped = first_as_uint(alloc, call)?;
    select(alloc, test, taken, skipped)
}

fn absolute(alloc: Global, call: Call) -> Result<Term, AllocError>
    ensures { IfOk result (λ t. term t ≡ rules.absolute_from (scalar_seen call.entry.to) (seen call.entry)) }
{
    match call.to {
        Scalar::Int => absolute_int(alloc, call),
        _ => argument(alloc, call, 0),
    }
}

// An `int`, cut to 24 bits.
fn cut_int(alloc: Global, call: Call, place: usize) -> Result<Term, AllocError>
    ensures { IfOk result (λ t. term t ≡ rules.cut_int (seen call.entry) place) }
{
    let lowest = unary(
        alloc,
        UnaryOperator::Negate,
        Kind::Int,
        call.at,
        literal(Kind::Int, 8388608),
    )?;
    let value = argument(alloc, call, place)?;
    let value = maximum(alloc, value, lowest)?;
    minimum(alloc, value, literal(Kind::Int, 8388607))
}

fn cut_to_24_bits(alloc: Global, call: Call, place: usize) -> Result<Term, AllocError>
    ensures { IfOk result (λ t. term t ≡ rules.cut_to_24_bits (scalar_seen call.entry.to) (seen call.entry) place) }
{
    match call.to {
        Scalar::Int => cut_int(alloc, call, place),
        _ => {
            let value = argument(alloc, call, place)?;
            minimum(alloc, value, literal(call.kind(), 16777215))
        }
    }
}

fn has_24_bits(alloc: Global, call: Call, place: usize) -> Result<Term, AllocError>
    ensures { IfOk result (λ t. term t ≡ rules.has_24_bits (seen call.entry) place) }
{
    let cut = cut_to_24_bits(alloc, call, place)?;
    let value = argument(alloc, call, place)?;
    compare(alloc, Relation::Equal, call.kind(), cut, value)
}

fn have_24_bits(alloc: Global, call: Call) -> Result<Term, AllocError>
    ensures { IfOk result (λ t. term t ≡ rules.have_24_bits (seen call.entry)) }
{
    let first = has_24_bits(alloc, call, 0)?;
    let second = has_24_bits(alloc, call, 1)?;
    and(alloc, first, second)
}

fn product(alloc: Global, call: Call) -> Result<Term, AllocError>
    ensures { IfOk result (λ t. term t ≡ rules.product (seen call.entry)) }
{
    let (first, second) = both(alloc, call)?;
    binary(
        alloc,
        Operator::Multiply,
        call.kind(),
        call.at,
        first,
        second,
    )
}

fn product24(alloc: Global, call: Call) -> Result<Term, AllocError>
    ensures { IfOk result (λ t. term t ≡ rules.product24 (seen call.entry)) }
{
    let test = have_24_bits(alloc, call)?;
    let taken = product(alloc, call)?;
    or_unreckoned(alloc, call, test, taken)
}

fn sum(alloc: Global, call: Call) -> Result<Term, AllocError>
    ensures { IfOk result (λ t. term t ≡ rules.sum (seen call.entry)) }
{
    let product = product(alloc, call)?;
    let added = argument(alloc, call, 2)?;
    binary(alloc, Operator::Add, call.kind(), call.at, product, added)
}

fn sum24(alloc: Global, call: Call) -> Result<Term, AllocError>
    ensures { IfOk result (λ t. term t ≡ rules.sum24 (seen call.entry)) }
{
    let test = have_24_bits(alloc, call)?;
    let taken = sum(alloc, call)?;
    or_unreckoned(alloc, call, test, taken)
}

fn scaled(alloc: Global, call: Call) -> Result<Term, AllocError>
    ensures { IfOk result (λ t. term t ≡ rules.scaled (seen call.entry)) }
{
    let (value, power) = both_as(alloc, Scalar::Float, Scalar::Int, call)?;
    opaque(
        alloc,
        (call.operation, 0, Kind::Uint),
        value,
        power,
        nothing(),
    )
}

/// A test of floats, as an `int` of 0 or 1.
pub fn test(alloc: Global, call: Call) -> Result<Term, AllocError>
    ensures { IfOk result (λ t. term t ≡ rules.test (seen call.entry)) }
{
    let holds = unreckoned_as(alloc, Scalar::Float, Kind::Uint, call)?;
    compare(alloc, Relation::Unequal, Kind::Uint, holds, nothing())
}

// The first argument as it is.
fn first_in(alloc: Global, of: &[Single]) -> Result<Single, AllocError>
    ensures { IfOk result (λ v. single v ≡ rules.first_in (values of.now)) }
{
    match of {
        [] => Ok(Single {
            scalar: Scalar::Uint,
            term: nothing(),
        }),
        [first, ..] => copied(alloc, first),
    }
}

fn saturated_first(alloc: Global, to: Scalar, call: Call) -> Result<Term, AllocError>
    ensures { IfOk result (λ t. term t ≡ rules.saturated_first (scalar_seen to) (seen call.entry) (rules.first_in (values call.entry.of.now))) }
{
    let of = first_in(alloc, call.of)?;
    saturated_from(alloc, call.ids, call.at, of.scalar, to, of.term)
}

fn reread_first(alloc: Global, to: Scalar, call: Call) -> Result<Term, AllocError>
    ensures { IfOk result (λ t. term t ≡ rules.reread_first (scalar_seen to) (seen call.entry) (rules.first_in (values call.entry.of.now))) }
{
    let of = first_in(alloc, call.of)?;
    reread(alloc, call.ids, call.at, of.scalar, to, of.term)
}

// How many dimensions a launch has: a number from 1 to 3 that no one knows.
fn dimensions(alloc: Global, call: Call) -> Result<Term, AllocError>
    ensures { IfOk result (λ t. term t ≡ rules.dimensions (seen call.entry)) }
{
    let (at, kind) = (call.at, Kind::Uint);
    let word = unreckoned_as(alloc, Scalar::Uint, kind, call)?;
    let rest = binary(alloc, Operator::Remainder, kind, at, word, literal(kind, 3))?;
    binary(alloc, Operator::Add, kind, at, rest, literal(kind, 1))
}

// The scalar of the first argument.
fn first_scalar(of: &[Single]) -> Scalar
    ensures { scalar_seen result ≡ (rules.first_in (values of.now)).scalar }
{
    match of {
        [] => Scalar::Uint,
        [first, ..] => first.scalar,
    }
}

fn is_word(of: Scalar) -> bool
    ensures { result ≡ rules.is_word (scalar_seen of) }
{
    !matches!(of, Scalar::Float | Scalar::Long)
}

// Whether a function takes arguments of these types.
fn takes(form: Form, call: Call) -> bool
    ensures { result ≡ rules.takes (form_seen form) (seen call.entry) }
{
    match form {
        Form::IdOf(_) | Form::Offset | Form::Missing(_) => false,
        Form::BitsAs(to) => has_bits_of(first_scalar(call.of), to),
        Form::Integers(_) | Form::Absolute | Form::Product24 | Form::Sum24 => is_word(call.to),
        _ => true,
    }
}

/// The scalar that a function gives.
pub fn scalar_made(form: Form, to: Scalar) -> Scalar
    ensures { scalar_seen result ≡ rules.scalar_made (form_seen form) (scalar_seen to) }
{
    match form {
        Form::Converts(scalar) | Form::Saturates(scalar) | Form::BitsAs(scalar) => scalar,
        Form::Floats(_) | Form::Reduces(_) | Form::Spreads(_) | Form::Scaled | Form::FromBits =>
            Scalar::Float,
        Form::Tests(_) | Form::Exponent => Scalar::Int,
        Form::Dimensions => Scalar::Uint,
        Form::Absolute => match to {
            Scalar::Int => Scalar::Uint,
            _ => to,
        },
        _ => to,
    }
}

/// The term of what a function makes.
pub fn term_made(alloc: Global, form: Form, call: Call) -> Result<Term, AllocError>
    ensures { IfOk result (λ t. term t ≡ rules.term_made (form_seen form) (seen call.entry)) }
{
    match form {
        Form::Converts(to) => argument_as(alloc, to, call, 0),
        Form::Saturates(to) => saturated_first(alloc, to, call),
        Form::BitsAs(to) => reread_first(alloc, to, call),
        Form::Integers(_) => unreckoned(alloc, call),
        Form::Floats(_) | Form::Reduces(_) | Form::Spreads(_) => {
            unreckoned_as(alloc, Scalar::Float, Kind::Uint, call)
        }
        Form::Tests(_) => test(alloc, call),
        Form::Lesser => lesser(alloc, call),
        Form::Greater => greater(alloc, call),
        Form::Clamped => clamped(alloc, call),
        Form::Absolute => absolute(alloc, call),
        Form::Product24 => product24(alloc, call),
        Form::Sum24 => sum24(alloc, call),
        Form::Scaled => scaled(alloc, call),
        Form::FromBits => unreckoned_as(alloc, Scalar::Uint, Kind::Uint, call),
        Form::Exponent => unreckoned_as(alloc, Scalar::Float, Kind::Int, call),
        Form::Dimensions => dimensions(alloc, call),
        Form::IdOf(_)
        | Form::Offset
        | Form::Selects
        | Form::Shuffles
        | Form::Joins
        | Form::Mixes
        | Form::Tops(_)
        | Form::Missing(_) => Ok(nothing()),
    }
}

fn untaken(to: Scalar) -> Fault
    ensures { fault_seen result ≡ rules.untaken (scalar_seen to) }
{
    match to {
        Scalar::Long => Fault::LeftOut(Construct::Long),
        _ => Fault::WrongType,
    }
}

fn made(alloc: Global, form: Form, call: Call) -> Result<Single, ValueError>
    ensures { Gives single result (rules.made (form_seen form) (seen call.entry)) }
{
    if !takes(form, call) {
        return refused(untaken(call.to), call.at);
    }
    Ok(Single {
        scalar: scalar_made(form, call.to),
        term: term_made(alloc, form, call)?,
    })
}

// The scalar to which all arguments are converted.
fn scalar_of_all(of: &[Single]) -> Scalar
    ensures { scalar_seen result ≡ rules.scalar_with types.Int (values of.now) }
{
    let mut so_far = Scalar::Int;
    for value in of {
        so_far = common(so_far, value.scalar.promoted());
    }
    so_far
}

/// What a function makes of the values of its arguments.
pub fn result_of(
    alloc: Global,
    ids: Kind,
    called: (Form, u32),
    at: Site,
    of: &[Single],
) -> Result<Single, ValueError>
    ensures { Gives single result (rules.result_of (kind_seen ids) (form_seen called.0) called.1 (site at) (values of.now)) }
{
    let (form, operation) = called;
    if of.len() != form.count() as usize {
        return refused(Fault::WrongType, at);
    }
    let call = Call {
        ids,
        operation,
        to: scalar_of_all(of),
        at,
        of,
    };
    made(alloc, form, call)
}

/// The dimension that a work-item function is asked for (OpenCL 1.2, 6.12.1).
#[tactic(auto, using(crate::proofs::Arguments::one_argument))]
pub fn dimension_of(at: Site, arguments: &[Expr]) -> Result<u32, ValueError>
    ensures { Gives (λ n. n) result (rules.dimension_of (site at) (expressions arguments.now)) }
{
    if arguments.len() != 1 {
        return refused(Fault::WrongType, at);
    }
    match &arguments[0] {
        Expr::Integer { value, .. } if *value <= 2 => Ok(*value),
        Expr::Integer { site, .. } => refused(Fault::WrongType, *site),
        _ => refused(Fault::WrongType, at),
    }
}
