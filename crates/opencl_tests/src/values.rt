//! Tests of conversions and operators of OpenCL C: the terms that they make of terms.

use crate::term_shown::push_term;
use core_code::tree::{Direction, Operator, Relation, Site, Term};
use opencl_terms::conversions::{converted, tested, truth};
use opencl_terms::narrowing::{bits_as_uint, loaded, stored};
use opencl_terms::operators::{
    OfOne, OfTwo, may_take, of_one_component, of_two_components, result_type, test_type,
};
use opencl_terms::scalars::{Scalar, ValueType, common, is_unsettled};
use opencl_values::bits::bits_as_int;
use std::alloc::{AllocError, Global};
use std::test::Fail;
use words::Kind;

const AT: Site = Site { line: 1, column: 1 };

fn shown(alloc: Global, made: Result<Term, AllocError>) -> Result<String, AllocError> {
    let term = made?;
    let mut out = String::new(alloc);
    push_term(&mut out, &term)?;
    Ok(out)
}

fn variable(slot: u32) -> Term {
    Term::Variable { slot }
}

fn scalar(scalar: Scalar) -> ValueType {
    ValueType { scalar, width: 1 }
}

fn pair(scalar: Scalar) -> ValueType {
    ValueType { scalar, width: 2 }
}

#[test]
fn elements_are_low_bits(rt: HostRuntime) -> Result<(), Fail> {
    let alloc = rt.alloc();
    let found = shown(alloc, loaded(alloc, Scalar::Char, AT, variable(0)))?;
    assert_eq!(rt;
        found.as_str(),
        "(- Int (^ Int (to Int (& Uint v0 Uint:255)) Int:128) Int:128)"
    );
    let found = shown(alloc, loaded(alloc, Scalar::Ushort, AT, variable(0)))?;
    assert_eq!(rt; found.as_str(), "(to Int (& Uint v0 Uint:65535))");
    let found = shown(alloc, stored(alloc, Scalar::Short, AT, variable(1)))?;
    assert_eq!(rt; found.as_str(), "(& Uint (to Uint v1) Uint:65535)");
    Ok(())
}

#[test]
fn bits_stay(rt: HostRuntime) -> Result<(), Fail> {
    let alloc = rt.alloc();
    let found = shown(alloc, bits_as_int(alloc, AT, variable(0)))?;
    assert_eq!(rt;
        found.as_str(),
        "(+ Int (* Int (- Int (^ Int (to Int (& Uint (shr Uint v0 Uint:16) Uint:65535)) Int:32768) Int:32768) Int:65536) (to Int (& Uint v0 Uint:65535)))"
    );
    let found = shown(alloc, bits_as_uint(alloc, AT, variable(0)))?;
    assert_eq!(rt; found.as_str(), "(to Uint v0)");
    Ok(())
}

#[test]
fn scalars_are_converted(rt: HostRuntime) -> Result<(), Fail> {
    let alloc = rt.alloc();
    let found = shown(
        alloc,
        converted(
            alloc,
            Kind::Uint,
            Scalar::Int,
            Scalar::Uchar,
            AT,
            variable(0),
        ),
    )?;
    assert_eq!(rt; found.as_str(), "(to Int (& Uint (to Uint v0) Uint:255))");
    let found = shown(
        alloc,
        converted(
            alloc,
            Kind::Uint,
            Scalar::Uchar,
            Scalar::Short,
            AT,
            variable(0),
        ),
    )?;
    assert_eq!(rt; found.as_str(), "v0");
    let found = shown(
        alloc,
        converted(
            alloc,
            Kind::Size,
            Scalar::Int,
            Scalar::Float,
            AT,
            variable(0),
        ),
    )?;
    assert_eq!(rt; found.as_str(), "(opaque2 Uint v0 Uint:0)");
    Ok(())
}

#[test]
fn values_are_tested(rt: HostRuntime) -> Result<(), Fail> {
    let alloc = rt.alloc();
    let found = shown(alloc, tested(alloc, Scalar::Int, variable(0)))?;
    assert_eq!(rt; found.as_str(), "v0");
    let found = shown(alloc, truth(alloc, Kind::Uint, Scalar::Uint, variable(0)))?;
    assert_eq!(rt; found.as_str(), "(!= Uint v0 Uint:0)");
    Ok(())
}

#[test]
fn operands_are_brought(rt: HostRuntime) -> Result<(), Fail> {
    let alloc = rt.alloc();
    let found = shown(
        alloc,
        of_one_component(
            alloc,
            Kind::Uint,
            scalar(Scalar::Int),
            OfOne::Negative,
            AT,
            variable(0),
        ),
    )?;
    assert_eq!(rt; found.as_str(), "(- Int v0)");
    let found = shown(
        alloc,
        of_two_components(
            alloc,
            Kind::Uint,
            scalar(Scalar::Uint),
            OfTwo::Arithmetic(Operator::Add),
            AT,
            variable(0),
            variable(1),
        ),
    )?;
    assert_eq!(rt; found.as_str(), "(+ Uint v0 v1)");
    let found = shown(
        alloc,
        of_two_components(
            alloc,
            Kind::Uint,
            scalar(Scalar::Int),
            OfTwo::Shifting(Direction::Leftward, Scalar::Uint),
            AT,
            variable(0),
            variable(1),
        ),
    )?;
    assert_eq!(rt; found.as_str(), "(shl Int v0 v1)");
    Ok(())
}

#[test]
fn types_follow_from_types(rt: HostRuntime) -> Result<(), Fail> {
    assert!(rt; matches!(common(Scalar::Int, Scalar::Uint), Scalar::Uint));
    assert!(rt; matches!(common(Scalar::Uint, Scalar::Long), Scalar::Long));
    assert!(rt; is_unsettled(Scalar::Long, Scalar::Size));
    assert!(rt; matches!(test_type(pair(Scalar::Uchar)).scalar, Scalar::Char));
    let sum = result_type(OfTwo::Comparison(Relation::Less), scalar(Scalar::Float));
    assert!(rt; matches!(sum.scalar, Scalar::Int));
    assert!(rt; !may_take(OfTwo::Arithmetic(Operator::Remainder), Scalar::Float));
    Ok(())
}
