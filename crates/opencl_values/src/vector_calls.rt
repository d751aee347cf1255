//! What built-in functions make of vectors: of each component, or of all.

ghost use Rattle.std.specs.Prelude.{◌≡◌, [], map, IfOk};
ghost use Rattle.core_code.specs.View.{site, term};
ghost use Rattle.opencl_terms.specs.Answers.{value_type};
ghost use Rattle.opencl_terms.specs.Components as components;
ghost use Rattle.opencl_terms.specs.Operations as operations;
ghost use Rattle.opencl_terms.specs.Types as types;
ghost use Rattle.opencl_values.specs.Calls as calls_rules;
ghost use Rattle.opencl_values.specs.Singles as singles;
ghost use Rattle.opencl_values.specs.Wholes as wholes_rules;
ghost use Rattle.opencl_terms.specs.View.{scalar as scalar_seen};
ghost use Rattle.opencl_values.specs.CallsView.{call as call_seen};
ghost use Rattle.opencl_values.specs.FunctionsView.{form as form_seen};
ghost use Rattle.opencl_values.specs.VectorCalls as rules;
ghost use Rattle.opencl_values.specs.View.{value as value_seen, values as values_seen, Gives};
ghost use Rattle.opencl_values.specs.WidenedView.{wide as wide_seen};
ghost use Rattle.words.specs.View.{kind as kind_seen};

use crate::calls;
use crate::calls::{Call, argument, scalar_made, term_made, test};
use crate::choices::{join_called, mix_called, select_called, shuffle_called, tops_called};
use crate::error::{Construct, Fault, ValueError, refused};
use crate::functions::Form;
use crate::saturation::has_bits_of;
use crate::singles::{Single, alone};
use crate::vectors::gathered;
use crate::wholes::{Value, components_of, nothing, places, whole};
use crate::widened::Wide;
use core_code::tree::{Relation, Site, Term, UnaryOperator};
use core_pieces::copies::copy_of;
use core_pieces::pieces::{compare, literal, opaque, select, unary};
use opencl_terms::scalars::{Scalar, ValueType};
use std::alloc::{AllocError, Global};
use words::Kind;

// The type of the first vector.
fn type_among(of: &[Value]) -> ValueType
    ensures { value_type result ≡ rules.type_among (singles.alone types.Int) (values_seen of.now) }
{
    for value in of {
        if value.of.is_vector() {
            return value.of;
        }
    }
    alone(Scalar::Int)
}

fn is_strict(form: Form) -> bool
    ensures { result ≡ rules.is_strict (form_seen form) }
{
    !matches!(form, Form::Scaled)
}

fn is_alike(strict: bool, to: ValueType, of: &Value) -> bool
    ensures { result ≡ rules.is_alike strict (value_type to) (value_seen of.now) }
{
    !of.of.is_vector()
        || (of.of.width == to.width && (!strict || of.of.scalar.number() == to.scalar.number()))
}

fn are_alike(strict: bool, to: ValueType, of: &[Value]) -> bool
    ensures { result ≡ rules.are_alike strict (value_type to) (values_seen of.now) }
{
    for value in of {
        if !is_alike(strict, to, value) {
            return false;
        }
    }
    true
}

fn is_whole(scalar: Scalar) -> bool
    ensures { result ≡ rules.is_whole (scalar_seen scalar) }
{
    !(scalar.is_float() || scalar.is_narrow())
}

// Whether a function takes vectors of a scalar.
fn takes_vectors(form: Form, scalar: Scalar) -> bool
    ensures { result ≡ rules.takes_vectors (form_seen form) (scalar_seen scalar) }
{
    match form {
        Form::Floats(_)
        | Form::Tests(_)
        | Form::Reduces(_)
        | Form::Spreads(_)
        | Form::Scaled
        | Form::Exponent => scalar.is_float(),
        Form::Integers(_) | Form::Absolute => !scalar.is_float(),
        Form::Product24 | Form::Sum24 => is_whole(scalar),
        Form::Converts(_) | Form::Saturates(_) | Form::BitsAs(_) => false,
        _ => true,
    }
}

fn negative(alloc: Global, call: Call) -> Result<Term, AllocError>
    ensures { IfOk result (λ t. term t ≡ rules.negative (call_seen call.entry)) }
{
    let value = argument(alloc, call, 0)?;
    unary(alloc, UnaryOperator::Negate, Kind::Int, call.at, value)
}

fn absolute_narrow(alloc: Global, call: Call) -> Result<Term, AllocError>
    ensures { IfOk result (λ t. term t ≡ rules.absolute_narrow (call_seen call.entry)) }
{
    let value = argument(alloc, call, 0)?;
    let none = literal(Kind::Int, 0);
    let test = compare(alloc, Relation::Less, Kind::Int, value, none)?;
    let taken = negative(alloc, call)?;
    let skipped = argument(alloc, call, 0)?;
    select(alloc, test, taken, skipped)
}

fn absolute(alloc: Global, call: Call) -> Result<Term, AllocError>
    ensures { IfOk result (λ t. term t ≡ rules.absolute (call_seen call.entry)) }
{
    if call.to.is_narrow() {
        absolute_narrow(alloc, call)
    } else {
        term_made(alloc, Form::Absolute, call)
    }
}

fn unsigned_of(scalar: Scalar) -> Scalar
    ensures { scalar_seen result ≡ rules.unsigned_of (scalar_seen scalar) }
{
    match scalar {
        Scalar::Char => Scalar::Uchar,
        Scalar::Short => Scalar::Ushort,
        Scalar::Int => Scalar::Uint,
        _ => scalar,
    }
}

fn component_scalar(form: Form, scalar: Scalar) -> Scalar
    ensures { scalar_seen result ≡ rules.component_scalar (form_seen form) (scalar_seen scalar) }
{
    match form {
        Form::Absolute => unsigned_of(scalar),
        _ => scalar_made(form, scalar),
    }
}

fn vector_test(alloc: Global, call: Call) -> Result<Term, AllocError>
    ensures { IfOk result (λ t. term t ≡ components.all_bits (site call.entry.at) (calls_rules.test (call_seen call.entry))) }
{
    let holds = test(alloc, call)?;
    unary(alloc, UnaryOperator::Negate, Kind::Int, call.at, holds)
}

fn component_term(alloc: Global, form: Form, call: Call) -> Result<Term, AllocError>
    ensures { IfOk result (λ t. term t ≡ rules.component_term (form_seen form) (call_seen call.entry)) }
{
    match form {
        Form::Tests(_) => vector_test(alloc, call),
        Form::Absolute => absolute(alloc, call),
        _ => term_made(alloc, form, call),
    }
}

// An operation that is not reckoned, of all terms.
fn reduced(alloc: Global, operation: u32, of: &[Term]) -> Result<Term, AllocError>
    ensures { IfOk result (λ t. term t ≡ rules.reduced operation operations.nothing (map term of.now)) }
{
    let mut so_far = nothing();
    for one in of {
        let next = copy_of(alloc, one)?;
        so_far = opaque(alloc, (operation, 0, Kind::Uint), so_far, next, nothing())?;
    }
    Ok(so_far)
}

fn all_reduced(
    alloc: Global,
    ids: Kind,
    operation: u32,
    at: Site,
    of: &[Value],
) -> Result<Term, AllocError>
    ensures { IfOk result (λ t. term t ≡ rules.all_reduced (kind_seen ids) operation (site at) (values_seen of.now)) }
{
    let all = gathered(alloc, ids, at, Scalar::Float, of)?;
    reduced(alloc, operation, all.as_slice())
}

/// A call of a function: its form and the number of its operation, where it stands, the scalar of the vectors, and all arguments.
#[derive(Clone, Copy)]
pub struct VectorCall<'a> {
    pub ids: Kind,
    pub form: Form,
    pub operation: u32,
    pub at: Site,
    pub to: Scalar,
    pub of: &'a [Value],
}

fn component_called(alloc: Global, call: VectorCall, place: u32) -> Result<Term, AllocError>
    ensures { IfOk result (λ t. term t ≡ rules.component_term (form_seen call.entry.form) (rules.call_of (kind_seen call.entry.ids) call.entry.operation (site call.entry.at) (scalar_seen call.entry.to) (wholes_rules.components_of (values_seen call.entry.of.now) place))) }
{
    let arguments = components_of(alloc, call.of, place)?;
    let one = Call {
        ids: call.ids,
        operation: call.operation,
        to: call.to,
        at: call.at,
        of: arguments.as_slice(),
    };
    component_term(alloc, call.form, one)
}

fn called_at(alloc: Global, call: VectorCall, place: u32) -> Result<Term, AllocError>
    ensures { IfOk result (λ t. term t ≡ rules.called_at (kind_seen call.entry.ids) (form_seen call.entry.form) call.entry.operation (site call.entry.at) (scalar_seen call.entry.to) (values_seen call.entry.of.now) place) }
{
    match call.form {
        Form::Spreads(_) => all_reduced(alloc, call.ids, call.operation, call.at, call.of),
        _ => component_called(alloc, call, place),
    }
}

fn called_behind(alloc: Global, call: VectorCall, places: &[u32]) -> Result<Vec<Term>, AllocError>
    ensures { IfOk result (λ ts. map term ts.items ≡ rules.called_behind (kind_seen call.entry.ids) (form_seen call.entry.form) call.entry.operation (site call.entry.at) (scalar_seen call.entry.to) (values_seen call.entry.of.now) [] places.now) }
{
    let mut terms = Vec::new(alloc);
    for place in places {
        terms.push(called_at(alloc, call, *place)?)?;
    }
    Ok(terms)
}

fn wide_called(alloc: Global, call: VectorCall, width: u32) -> Result<Value, AllocError>
    ensures { IfOk result (λ v. value_seen v ≡ types.value_of (types.type_of (rules.component_scalar (form_seen call.entry.form) (scalar_seen call.entry.to)) width) (rules.called_behind (kind_seen call.entry.ids) (form_seen call.entry.form) call.entry.operation (site call.entry.at) (scalar_seen call.entry.to) (values_seen call.entry.of.now) [] (wholes_rules.places width))) }
{
    Ok(Value {
        of: ValueType {
            scalar: component_scalar(call.form, call.to),
            width,
        },
        terms: called_behind(alloc, call, places(width))?,
    })
}

fn vector_called(alloc: Global, call: VectorCall, width: u32) -> Result<Value, AllocError>
    ensures { IfOk result (λ v. value_seen v ≡ rules.vector_called (kind_seen call.entry.ids) (form_seen call.entry.form) call.entry.operation (site call.entry.at) (types.type_of (scalar_seen call.entry.to) width) (values_seen call.entry.of.now)) }
{
    match call.form {
        Form::Reduces(_) => {
            let made = Single {
                scalar: Scalar::Float,
                term: all_reduced(alloc, call.ids, call.operation, call.at, call.of)?,
            };
            whole(alloc, made)
        }
        _ => wide_called(alloc, call, width),
    }
}

fn has_count(form: Form, to: ValueType, of: &[Value]) -> bool
    ensures { result ≡ rules.has_count (form_seen form) (value_type to) (values_seen of.now) }
{
    of.len() == form.count() as usize
        && are_alike(is_strict(form), to, of)
        && takes_vectors(form, to.scalar)
}

fn vector_result(
    alloc: Global,
    ids: Kind,
    called: (Form, u32),
    at: Site,
    of: &[Value],
    to: ValueType,
) -> Result<Value, ValueError>
    ensures { Gives value_seen result (rules.vector_result (kind_seen ids) (form_seen called.0) called.1 (site at) (values_seen of.now) (value_type to)) }
{
    let (form, operation) = called;
    if !has_count(form, to, of) {
        return refused(Fault::WrongType, at);
    }
    let call = VectorCall {
        ids,
        form,
        operation,
        at,
        to: to.scalar,
        of,
    };
    Ok(vector_called(alloc, call, to.width)?)
}

fn scalar_result(
    alloc: Global,
    ids: Kind,
    called: (Form, u32),
    at: Site,
    of: &[Value],
) -> Result<Value, ValueError>
    ensures { Gives value_seen result (rules.scalar_result (kind_seen ids) (form_seen called.0) called.1 (site at) (values_seen of.now)) }
{
    let arguments = components_of(alloc, of, 0)?;
    let made = calls::result_of(alloc, ids, called, at, arguments.as_slice())?;
    Ok(whole(alloc, made)?)
}

fn result_for(
    alloc: Global,
    ids: Kind,
    called: (Form, u32),
    at: Site,
    of: &[Value],
) -> Result<Value, ValueError>
    ensures { Gives value_seen result (rules.result_for (kind_seen ids) (form_seen called.0) called.1 (site at) (values_seen of.now) (rules.type_among (singles.alone types.Int) (values_seen of.now))) }
{
    let to = type_among(of);
    if to.is_vector() {
        vector_result(alloc, ids, called, at, of, to)
    } else {
        scalar_result(alloc, ids, called, at, of)
    }
}

/// What a function makes of the values of its arguments.
pub fn result_of(
    alloc: Global,
    ids: Kind,
    called: (Form, u32),
    at: Site,
    of: &[Value],
) -> Result<Value, ValueError>
    ensures { Gives value_seen result (rules.result_of (kind_seen ids) (form_seen called.0) called.1 (site at) (values_seen of.now)) }
{
    match called.0 {
        Form::Selects => select_called(alloc, at, of),
        Form::Shuffles => shuffle_called(alloc, at, of),
        Form::Joins => join_called(alloc, at, of),
        Form::Mixes => mix_called(alloc, at, of),
        Form::Tops(is_all) => tops_called(alloc, is_all, at, of),
        _ => result_for(alloc, ids, called, at, of),
    }
}

fn may_reread(form: Form, of: Scalar) -> bool
    ensures { result ≡ rules.may_reread (form_seen form) (scalar_seen of) }
{
    match form {
        Form::BitsAs(to) => has_bits_of(of, to),
        _ => true,
    }
}

fn wide_made(
    alloc: Global,
    ids: Kind,
    wide: Wide,
    at: Site,
    to: Scalar,
    of: &[Value],
) -> Result<Value, AllocError>
    ensures { IfOk result (λ v. value_seen v ≡ types.value_of (types.type_of (rules.component_scalar (form_seen wide.form) (scalar_seen to)) wide.width) (rules.called_behind (kind_seen ids) (form_seen wide.form) 0 (site at) (scalar_seen to) (values_seen of.now) [] (wholes_rules.places wide.width))) }
{
    let call = VectorCall {
        ids,
        form: wide.form,
        operation: 0,
        at,
        to,
        of,
    };
    wide_called(alloc, call, wide.width)
}

/// What a conversion of a vector makes of its argument (OpenCL 1.2, 6.2.3 and 6.2.4.2).
#[tactic(auto, using(crate::proofs::Arguments::other_arguments))]
pub fn wide_result(
    alloc: Global,
    ids: Kind,
    wide: Wide,
    at: Site,
    of: &[Value],
) -> Result<Value, ValueError>
    ensures { Gives value_seen result (rules.wide_result (kind_seen ids) (wide_seen wide) (site at) (values_seen of.now)) }
{
    match of {
        [value] => {
            let to = value.of;
            if to.width == wide.width && may_reread(wide.form, to.scalar) {
                Ok(wide_made(alloc, ids, wide, at, to.scalar, of)?)
            } else {
                refused(Fault::LeftOut(Construct::Vector), at)
            }
        }
        _ => refused(Fault::WrongType, at),
    }
}
