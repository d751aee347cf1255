//! `select`, `bitselect`, `any`, `all`, `shuffle` and `shuffle2`.

ghost use Rattle.std.specs.Prelude.{◌≡◌, ◌≤◌, ◌++◌, true, [], map, IfOk, OnOk};
ghost use Rattle.core_code.specs.View.{operator as operator_seen, site, term};
ghost use Rattle.opencl_terms.specs.Conversions as conversions;
ghost use Rattle.opencl_terms.specs.View.{scalar as scalar_seen};
ghost use Rattle.opencl_values.specs.Choices as rules;
ghost use Rattle.opencl_values.specs.View.{value as value_seen, values as values_seen, Gives};
ghost use Rattle.semantics.specs.Core as core;
ghost use Rattle.semantics.specs.Word as words_rules;

use crate::bits::{bits_of_number, is_in_memory, number_of_bits};
use crate::error::{Construct, Fault, ValueError, refused};
use crate::singles::Single;
use crate::wholes::{Value, component, is_same_type, places, whole};
use core_code::tree::{Direction, Operator, Site, Term};
use core_pieces::copies::copy_of;
use core_pieces::pieces::{binary, literal, shift};
use opencl_terms::narrowing::masked;
use opencl_terms::scalars::{Scalar, ValueType};
use std::alloc::{AllocError, Global};
use words::Kind;

// An operator of `uint`s.
fn of_uints(
    alloc: Global,
    operator: Operator,
    at: Site,
    left: Term,
    right: Term,
) -> Result<Term, AllocError>
    ensures { IfOk result (λ t. term t ≡ core.Binary (operator_seen operator) words_rules.Uint (site at) (term left) (term right)) }
{
    binary(alloc, operator, Kind::Uint, at, left, right)
}

fn down(alloc: Global, count: u32, of: Term) -> Result<Term, AllocError>
    ensures { IfOk result (λ t. term t ≡ rules.down count (term of)) }
{
    shift(
        alloc,
        Direction::Rightward,
        Kind::Uint,
        of,
        literal(Kind::Uint, count),
    )
}

fn not_zero(alloc: Global, at: Site, of: Term) -> Result<Term, AllocError>
    ensures { IfOk result (λ t. term t ≡ rules.not_zero (site at) (term of)) }
{
    let first = copy_of(alloc, &of)?;
    let negative = of_uints(alloc, Operator::Subtract, at, literal(Kind::Uint, 0), of)?;
    let either = of_uints(alloc, Operator::BitOr, at, first, negative)?;
    down(alloc, 31, either)
}

fn highest(alloc: Global, at: Site, bits: u32, of: Term) -> Result<Term, AllocError>
    requires { 1 ≤ bits }
    ensures { IfOk result (λ t. term t ≡ rules.highest (site at) bits (term of)) }
{
    let low = down(alloc, bits - 1, of)?;
    masked(alloc, at, 1, low)
}

fn all_where(alloc: Global, at: Site, of: Term) -> Result<Term, AllocError>
    ensures { IfOk result (λ t. term t ≡ rules.all_where (site at) (term of)) }
{
    of_uints(alloc, Operator::Subtract, at, literal(Kind::Uint, 0), of)
}

fn none_where(alloc: Global, at: Site, of: Term) -> Result<Term, AllocError>
    ensures { IfOk result (λ t. term t ≡ rules.none_where (site at) (term of)) }
{
    of_uints(alloc, Operator::Subtract, at, of, literal(Kind::Uint, 1))
}

fn bits_at(alloc: Global, at: Site, of: &Value, place: u32) -> Result<Term, AllocError>
    ensures { IfOk result (λ t. term t ≡ rules.bits_at (site at) (value_seen of.now) place) }
{
    let one = component(alloc, of, place)?;
    bits_of_number(alloc, of.of.scalar, at, one.term)
}

fn may_select(skipped: &Value, taken: &Value, test: &Value) -> bool
    ensures { result ≡ rules.may_select (value_seen skipped.now) (value_seen taken.now) (value_seen test.now) }
{
    is_same_type(skipped.of, taken.of)
        && skipped.of.width == test.of.width
        && is_in_memory(skipped.of.scalar)
        && is_in_memory(test.of.scalar)
        && !test.of.scalar.is_float()
        && skipped.of.scalar.bits() == test.of.scalar.bits()
}

fn choice_at(alloc: Global, at: Site, test: &Value, place: u32) -> Result<Term, AllocError>
    ensures { IfOk result (λ t. term t ≡ rules.choice_at (site at) (value_seen test.now) place) }
{
    let bits = bits_at(alloc, at, test, place)?;
    if test.of.is_vector() {
        highest(alloc, at, test.of.scalar.bits(), bits)
    } else {
        not_zero(alloc, at, bits)
    }
}

fn chosen_bits(
    alloc: Global,
    at: Site,
    choice: Term,
    skipped: Term,
    taken: Term,
) -> Result<Term, AllocError>
    ensures { IfOk result (λ t. term t ≡ rules.chosen_bits (site at) (term choice) (term skipped) (term taken)) }
{
    let again = copy_of(alloc, &choice)?;
    let all = all_where(alloc, at, choice)?;
    let taken = of_uints(alloc, Operator::BitAnd, at, taken, all)?;
    let none = none_where(alloc, at, again)?;
    let skipped = of_uints(alloc, Operator::BitAnd, at, skipped, none)?;
    of_uints(alloc, Operator::BitOr, at, taken, skipped)
}

fn selected_at(
    alloc: Global,
    at: Site,
    of: (&Value, &Value, &Value),
    place: u32,
) -> Result<Term, AllocError>
    ensures { IfOk result (λ t. term t ≡ rules.selected_at (site at) (value_seen of.entry.0.now) (value_seen of.entry.1.now) (value_seen of.entry.2.now) place) }
{
    let choice = choice_at(alloc, at, of.2, place)?;
    let skipped = bits_at(alloc, at, of.0, place)?;
    let taken = bits_at(alloc, at, of.1, place)?;
    let bits = chosen_bits(alloc, at, choice, skipped, taken)?;
    number_of_bits(alloc, of.0.of.scalar, at, bits)
}

fn selected_behind(
    alloc: Global,
    at: Site,
    of: (&Value, &Value, &Value),
    places: &[u32],
) -> Result<Vec<Term>, AllocError>
    ensures { IfOk result (λ ts. map term ts.items ≡ rules.selected_behind (site at) (value_seen of.entry.0.now) (value_seen of.entry.1.now) (value_seen of.entry.2.now) [] places.now) }
{
    let mut terms = Vec::new(alloc);
    for place in places {
        terms.push(selected_at(alloc, at, of, *place)?)?;
    }
    Ok(terms)
}

fn select_of(
    alloc: Global,
    at: Site,
    skipped: &Value,
    taken: &Value,
    test: &Value,
) -> Result<Value, ValueError>
    ensures { Gives value_seen result (rules.select_of (site at) (value_seen skipped.now) (value_seen taken.now) (value_seen test.now)) }
{
    if !may_select(skipped, taken, test) {
        return refused(Fault::LeftOut(Construct::Vector), at);
    }
    let of = skipped.of;
    let terms = selected_behind(alloc, at, (skipped, taken, test), places(of.width))?;
    Ok(Value { of, terms })
}

/// What `select` makes of its arguments.
#[tactic(auto, using(crate::proofs::Chosen::select_arguments))]
pub fn select_called(alloc: Global, at: Site, of: &[Value]) -> Result<Value, ValueError>
    ensures { Gives value_seen result (rules.select_called (site at) (values_seen of.now)) }
{
    match of {
        [] => refused(Fault::WrongType, at),
        [_] => refused(Fault::WrongType, at),
        [_, _] => refused(Fault::WrongType, at),
        [skipped, taken, test] => select_of(alloc, at, skipped, taken, test),
        _ => refused(Fault::WrongType, at),
    }
}

fn where_equal(alloc: Global, at: Site, number: Term, place: u32) -> Result<Term, AllocError>
    ensures { IfOk result (λ t. term t ≡ rules.where_equal (site at) (term number) place) }
{
    let other = of_uints(
        alloc,
        Operator::BitXor,
        at,
        number,
        literal(Kind::Uint, place),
    )?;
    let differs = not_zero(alloc, at, other)?;
    none_where(alloc, at, differs)
}

// One component more, where the number is its own.
fn numbered_step(
    alloc: Global,
    at: Site,
    of: &Value,
    number: &Term,
    so_far: Term,
    place: u32,
) -> Result<Term, AllocError>
    ensures { IfOk result (λ t. term t ≡ rules.bits_or (site at) (term so_far) (rules.bits_and (site at) (rules.bits_at (site at) (value_seen of.now) place) (rules.where_equal (site at) (term number.now) place))) }
{
    let number = copy_of(alloc, number)?;
    let mask = where_equal(alloc, at, number, place)?;
    let bits = bits_at(alloc, at, of, place)?;
    let bits = of_uints(alloc, Operator::BitAnd, at, bits, mask)?;
    of_uints(alloc, Operator::BitOr, at, so_far, bits)
}

fn numbered(
    alloc: Global,
    at: Site,
    of: &Value,
    number: &Term,
    places: &[u32],
) -> Result<Term, AllocError>
    ensures { IfOk result (λ t. term t ≡ rules.numbered (site at) (value_seen of.now) (term number.now) (conversions.uint 0) places.now) }
{
    let mut chosen = literal(Kind::Uint, 0);
    for place in places {
        chosen = numbered_step(alloc, at, of, number, chosen, *place)?;
    }
    Ok(chosen)
}

fn number_at(
    alloc: Global,
    at: Site,
    of: &Value,
    numbers: &Value,
    place: u32,
) -> Result<Term, AllocError>
    requires { 1 ≤ of.now.of.width }
    ensures { IfOk result (λ t. term t ≡ rules.number_at (site at) (value_seen of.now) (value_seen numbers.now) place) }
{
    let number = component(alloc, numbers, place)?;
    masked(alloc, at, of.of.width - 1, number.term)
}

fn shuffled_at(
    alloc: Global,
    at: Site,
    of: &Value,
    numbers: &Value,
    place: u32,
) -> Result<Term, AllocError>
    requires { 1 ≤ of.now.of.width }
    ensures { IfOk result (λ t. term t ≡ rules.shuffled_at (site at) (value_seen of.now) (value_seen numbers.now) place) }
{
    let number = number_at(alloc, at, of, numbers, place)?;
    let bits = numbered(alloc, at, of, &number, places(of.of.width))?;
    number_of_bits(alloc, of.of.scalar, at, bits)
}

fn shuffled_behind(
    alloc: Global,
    at: Site,
    of: &Value,
    numbers: &Value,
    places: &[u32],
) -> Result<Vec<Term>, AllocError>
    requires { 1 ≤ of.now.of.width }
    ensures { IfOk result (λ ts. map term ts.items ≡ rules.shuffled_behind (site at) (value_seen of.now) (value_seen numbers.now) [] places.now) }
{
    let mut terms = Vec::new(alloc);
    for place in places {
        terms.push(shuffled_at(alloc, at, of, numbers, *place)?)?;
    }
    Ok(terms)
}

fn may_shuffle(of: &Value, numbers: &Value) -> bool
    ensures exact { result ≡ rules.may_shuffle (value_seen of.now) (value_seen numbers.now) }
    ensures some { result ≡ true → 1 ≤ of.now.of.width }
{
    of.of.is_vector()
        && numbers.of.is_vector()
        && of.of.width != 3
        && numbers.of.width != 3
        && numbers.of.scalar.number() == Scalar::Uint.number()
        && is_in_memory(of.of.scalar)
        && of.of.scalar.bits() == 32
}

fn shuffled(alloc: Global, at: Site, of: &Value, numbers: &Value) -> Result<Value, AllocError>
    requires { 1 ≤ of.now.of.width }
    ensures { IfOk result (λ v. value_seen v ≡ rules.shuffled (site at) (value_seen of.now) (value_seen numbers.now)) }
{
    let width = numbers.of.width;
    Ok(Value {
        of: ValueType {
            scalar: of.of.scalar,
            width,
        },
        terms: shuffled_behind(alloc, at, of, numbers, places(width))?,
    })
}

fn shuffle_of(alloc: Global, at: Site, of: &Value, numbers: &Value) -> Result<Value, ValueError>
    ensures { Gives value_seen result (rules.shuffle_of (site at) (value_seen of.now) (value_seen numbers.now)) }
{
    if may_shuffle(of, numbers) {
        Ok(shuffled(alloc, at, of, numbers)?)
    } else {
        refused(Fault::LeftOut(Construct::Vector), at)
    }
}

/// What `shuffle` makes of its arguments.
#[tactic(auto, using(crate::proofs::Chosen::shuffle_arguments))]
pub fn shuffle_called(alloc: Global, at: Site, of: &[Value]) -> Result<Value, ValueError>
    ensures { Gives value_seen result (rules.shuffle_called (site at) (values_seen of.now)) }
{
    match of {
        [] => refused(Fault::WrongType, at),
        [_] => refused(Fault::WrongType, at),
        [vector, numbers] => shuffle_of(alloc, at, vector, numbers),
        _ => refused(Fault::WrongType, at),
    }
}

// Copies of some terms, behind others.
fn push_copies(alloc: Global, of: &[Term], terms: &mut Vec<Term>) -> Result<(), AllocError>
    ensures { OnOk result (map term terms.new.items ≡ map term terms.old.items ++ map term of.now) }
{
    for one in of {
        terms.push(copy_of(alloc, one)?)?;
    }
    Ok(())
}

fn may_join(first: &Value, second: &Value) -> bool
    ensures exact { result ≡ rules.may_join (value_seen first.now) (value_seen second.now) }
    ensures few { result ≡ true → (first.now.of.width ≤ 8) × (second.now.of.width ≤ 8) }
{
    first.of.is_vector()
        && is_same_type(first.of, second.of)
        && first.of.width != 3
        && first.of.width <= 8
}

fn joined(alloc: Global, first: &Value, second: &Value) -> Result<Value, AllocError>
    requires { (first.now.of.width ≤ 8) × (second.now.of.width ≤ 8) }
    ensures { IfOk result (λ v. value_seen v ≡ rules.joined (value_seen first.now) (value_seen second.now)) }
{
    let mut terms = Vec::new(alloc);
    push_copies(alloc, &first.terms, &mut terms)?;
    push_copies(alloc, &second.terms, &mut terms)?;
    Ok(Value {
        of: ValueType {
            scalar: first.of.scalar,
            width: first.of.width + second.of.width,
        },
        terms,
    })
}

fn join_of(
    alloc: Global,
    at: Site,
    first: &Value,
    second: &Value,
    numbers: &Value,
) -> Result<Value, ValueError>
    ensures { Gives value_seen result (rules.join_of (site at) (value_seen first.now) (value_seen second.now) (value_seen numbers.now)) }
{
    if may_join(first, second) {
        let both = joined(alloc, first, second)?;
        shuffle_of(alloc, at, &both, numbers)
    } else {
        refused(Fault::LeftOut(Construct::Vector), at)
    }
}

/// What `shuffle2` makes of its arguments.
#[tactic(auto, using(crate::proofs::Chosen::join_arguments))]
pub fn join_called(alloc: Global, at: Site, of: &[Value]) -> Result<Value, ValueError>
    ensures { Gives value_seen result (rules.join_called (site at) (values_seen of.now)) }
{
    match of {
        [] => refused(Fault::WrongType, at),
        [_] => refused(Fault::WrongType, at),
        [_, _] => refused(Fault::WrongType, at),
        [first, second, numbers] => join_of(alloc, at, first, second, numbers),
        _ => refused(Fault::WrongType, at),
    }
}

fn mixed_bits(
    alloc: Global,
    at: Site,
    skipped: Term,
    taken: Term,
    chooser: Term,
) -> Result<Term, AllocError>
    ensures { IfOk result (λ t. term t ≡ rules.mixed_bits (site at) (term skipped) (term taken) (term chooser)) }
{
    let again = copy_of(alloc, &chooser)?;
    let taken = of_uints(alloc, Operator::BitAnd, at, taken, chooser)?;
    let others = of_uints(
        alloc,
        Operator::BitXor,
        at,
        again,
        literal(Kind::Uint, u32::MAX),
    )?;
    let skipped = of_uints(alloc, Operator::BitAnd, at, skipped, others)?;
    of_uints(alloc, Operator::BitOr, at, taken, skipped)
}

fn mixed_at(
    alloc: Global,
    at: Site,
    of: (&Value, &Value, &Value),
    place: u32,
) -> Result<Term, AllocError>
    ensures { IfOk result (λ t. term t ≡ rules.mixed_at (site at) (value_seen of.entry.0.now) (value_seen of.entry.1.now) (value_seen of.entry.2.now) place) }
{
    let skipped = bits_at(alloc, at, of.0, place)?;
    let taken = bits_at(alloc, at, of.1, place)?;
    let chooser = bits_at(alloc, at, of.2, place)?;
    let bits = mixed_bits(alloc, at, skipped, taken, chooser)?;
    number_of_bits(alloc, of.0.of.scalar, at, bits)
}

fn mixed_behind(
    alloc: Global,
    at: Site,
    of: (&Value, &Value, &Value),
    places: &[u32],
) -> Result<Vec<Term>, AllocError>
    ensures { IfOk result (λ ts. map term ts.items ≡ rules.mixed_behind (site at) (value_seen of.entry.0.now) (value_seen of.entry.1.now) (value_seen of.entry.2.now) [] places.now) }
{
    let mut terms = Vec::new(alloc);
    for place in places {
        terms.push(mixed_at(alloc, at, of, *place)?)?;
    }
    Ok(terms)
}

fn may_mix(skipped: &Value, taken: &Value, chooser: &Value) -> bool
    ensures { result ≡ rules.may_mix (value_seen skipped.now) (value_seen taken.now) (value_seen chooser.now) }
{
    is_same_type(skipped.of, taken.of)
        && is_same_type(skipped.of, chooser.of)
        && is_in_memory(skipped.of.scalar)
}

fn mix_of(
    alloc: Global,
    at: Site,
    skipped: &Value,
    taken: &Value,
    chooser: &Value,
) -> Result<Value, ValueError>
    ensures { Gives value_seen result (rules.mix_of (site at) (value_seen skipped.now) (value_seen taken.now) (value_seen chooser.now)) }
{
    if !may_mix(skipped, taken, chooser) {
        return refused(Fault::LeftOut(Construct::Vector), at);
    }
    let of = skipped.of;
    let terms = mixed_behind(alloc, at, (skipped, taken, chooser), places(of.width))?;
    Ok(Value { of, terms })
}

/// What `bitselect` makes of its arguments.
#[tactic(auto, using(crate::proofs::Chosen::mix_arguments))]
pub fn mix_called(alloc: Global, at: Site, of: &[Value]) -> Result<Value, ValueError>
    ensures { Gives value_seen result (rules.mix_called (site at) (values_seen of.now)) }
{
    match of {
        [] => refused(Fault::WrongType, at),
        [_] => refused(Fault::WrongType, at),
        [_, _] => refused(Fault::WrongType, at),
        [skipped, taken, chooser] => mix_of(alloc, at, skipped, taken, chooser),
        _ => refused(Fault::WrongType, at),
    }
}

fn top_at(alloc: Global, at: Site, of: &Value, place: u32) -> Result<Term, AllocError>
    ensures { IfOk result (λ t. term t ≡ rules.top_at (site at) (value_seen of.now) place) }
{
    let bits = bits_at(alloc, at, of, place)?;
    highest(alloc, at, of.of.scalar.bits(), bits)
}

fn with_top(
    alloc: Global,
    is_all: bool,
    at: Site,
    so_far: Term,
    top: Term,
) -> Result<Term, AllocError>
    ensures { IfOk result (λ t. term t ≡ rules.with_top is_all (site at) (term so_far) (term top)) }
{
    if is_all {
        of_uints(alloc, Operator::BitAnd, at, so_far, top)
    } else {
        of_uints(alloc, Operator::BitOr, at, so_far, top)
    }
}

fn first_top(is_all: bool) -> Term
    ensures { term result ≡ rules.first_top is_all }
{
    if is_all {
        literal(Kind::Uint, 1)
    } else {
        literal(Kind::Uint, 0)
    }
}

fn tops_behind(
    alloc: Global,
    is_all: bool,
    at: Site,
    of: &Value,
    places: &[u32],
) -> Result<Term, AllocError>
    ensures { IfOk result (λ t. term t ≡ rules.tops_behind is_all (site at) (value_seen of.now) (rules.first_top is_all) places.now) }
{
    let mut so_far = first_top(is_all);
    for place in places {
        let top = top_at(alloc, at, of, *place)?;
        so_far = with_top(alloc, is_all, at, so_far, top)?;
    }
    Ok(so_far)
}

fn tops(alloc: Global, is_all: bool, at: Site, of: &Value) -> Result<Value, AllocError>
    ensures { IfOk result (λ v. value_seen v ≡ rules.tops is_all (site at) (value_seen of.now)) }
{
    let bits = tops_behind(alloc, is_all, at, of, places(of.of.width))?;
    let scalar = Scalar::Int;
    let term = number_of_bits(alloc, scalar, at, bits)?;
    whole(alloc, Single { scalar, term })
}

fn is_signed(of: Scalar) -> bool
    ensures { result ≡ rules.is_signed (scalar_seen of) }
{
    match of {
        Scalar::Char | Scalar::Short | Scalar::Int => true,
        Scalar::Boolean
        | Scalar::Uchar
        | Scalar::Ushort
        | Scalar::Uint
        | Scalar::Long
        | Scalar::Size
        | Scalar::Float => false,
    }
}

fn tops_of(alloc: Global, is_all: bool, at: Site, of: &Value) -> Result<Value, ValueError>
    ensures { Gives value_seen result (rules.tops_of is_all (site at) (value_seen of.now)) }
{
    if is_signed(of.of.scalar) {
        Ok(tops(alloc, is_all, at, of)?)
    } else {
        refused(Fault::LeftOut(Construct::Vector), at)
    }
}

/// What `all`, or else `any`, makes of its arguments.
#[tactic(auto, using(crate::proofs::Chosen::tops_arguments))]
pub fn tops_called(alloc: Global, is_all: bool, at: Site, of: &[Value]) -> Result<Value, ValueError>
    ensures { Gives value_seen result (rules.tops_called is_all (site at) (values_seen of.now)) }
{
    match of {
        [] => refused(Fault::WrongType, at),
        [vector] => tops_of(alloc, is_all, at, vector),
        _ => refused(Fault::WrongType, at),
    }
}
