//! Tests of scalar expressions of OpenCL C: the term of each is the one that C99 and OpenCL 1.2 ask for.

use crate::term_shown::push_term;
use core_code::tree::{Array, Space};
use opencl_parser::expression_of;
use opencl_terms::scalars::{Scalar, ValueType};
use opencl_tokens::{Joined, Lexeme, Token, join, lexemes, tokens};
use opencl_tree::tree::Expr;
use opencl_values::scope::{Binding, Meaning, Names};
use opencl_values::values::value_of;
use opencl_values::wholes::Value;
use std::alloc::{AllocError, Global};
use std::test::Fail;
use words::Kind;

/// Expressions, each with its scalar and its terms, or its fault. `i` is an `int`, `u` a `uint`, `f` a `float`, `n` a `size_t`, `c` a
/// `char`, `a` a buffer of floats, `b` one of `char`, `t` a local `int[4][8]`, `v` a `float4`, `byte` a name for `uchar`, `LAST` a
/// constant.
const EXPRESSIONS: &[(&str, &str)] = &[
    ("i + u", "Uint (+ Uint v0 v1)"),
    ("-c", "Int (- Int v4)"),
    (
        "i < f",
        "Int (!= Uint (opaque16 Uint (opaque2 Uint v0 Uint:0) v2) Uint:0)",
    ),
    ("n + i", "Size (+ Size v3 (to Size v0))"),
    ("n + u", "Size (+ Size v3 v1)"),
    (
        "f * 2.5f",
        "Float (opaque10 Uint v2 (opaque0 Uint Uint:0 Uint:0))",
    ),
    ("f % 2", "22 1:3"),
    ("~f", "22 1:1"),
    (
        "!f && i",
        "Int (&& (! (!= Uint (opaque21 Uint v2 Uint:0) Uint:0)) v0)",
    ),
    ("i ? c : u", "Uint (? v0 (to Uint v4) v1)"),
    ("(uchar)i", "Uchar (to Int (& Uint (to Uint v0) Uint:255))"),
    (
        "b[i]",
        "Char (- Int (^ Int (to Int (& Uint (load g1 v0) Uint:255)) Int:128) Int:128)",
    ),
    ("a[get_global_id(0)]", "Float (load g0 (global_id 0))"),
    (
        "t[i][u + 1u]",
        "Int (load l0 (+ Uint (* Uint (to Uint (within 4 v0)) Uint:8) (to Uint (within 8 (+ Uint v1 Uint:1)))))",
    ),
    ("t[i]", "15 1:2"),
    ("t[0][1][2]", "22 1:8"),
    ("a[f]", "22 1:2"),
    ("i[0]", "22 1:1"),
    ("a", "15 1:1"),
    ("v", "Float v5 v6 v7 v8"),
    ("v.zw.yx", "Float v8 v7"),
    ("v.odd.lo", "Float v6"),
    ("v.sA", "22 1:2"),
    ("(float2)(v.w, 1)", "Float v8 (opaque2 Uint Int:1 Uint:0)"),
    ("(float4)(v.xyz)", "22 1:1"),
    (
        "-(float2)(f)",
        "Float (opaque1 Uint v2 Uint:0) (opaque1 Uint v2 Uint:0)",
    ),
    (
        "v.xy < f",
        "Int (- Int (!= Uint (opaque16 Uint v5 v2) Uint:0)) (- Int (!= Uint (opaque16 Uint v6 v2) Uint:0))",
    ),
    (
        "(uchar2)(c) + (uchar2)(i, 1)",
        "Uchar (to Int (& Uint (+ Uint (to Int (& Uint (to Uint v4) Uint:255)) (to Int (& Uint (to Uint v0) Uint:255))) Uint:255)) (to Int (& Uint (+ Uint (to Int (& Uint (to Uint v4) Uint:255)) (to Int (& Uint (to Uint Int:1) Uint:255))) Uint:255))",
    ),
    (
        "fmin(v.xy, f)",
        "Float (opaque126 Uint v5 v2) (opaque126 Uint v6 v2)",
    ),
    (
        "dot(v.xy, v.zw)",
        "Float (opaque176 Uint (opaque176 Uint (opaque176 Uint (opaque176 Uint Uint:0 v5) v6) v7) v8)",
    ),
    ("v ? v : v", "22 1:3"),
    ("sizeof(float3)", "Size Size:16"),
    ("x", "20 1:1"),
    ("byte", "22 1:1"),
    ("LAST", "Int (- Int (- Int Int:0) Int:1)"),
    ("INT_MIN", "Int (- Int (- Int Int:2147483647) Int:1)"),
    (
        "UINT_MAX - M_PI_F",
        "Float (opaque9 Uint (opaque3 Uint Uint:4294967295 Uint:0) (opaque0 Uint Uint:0 Uint:0))",
    ),
    ("i << 3", "Int (shl Int v0 Int:3)"),
    ("n >> 3", "Size (/ Size v3 Uint:8)"),
    ("n << i", "15 1:3"),
    ("f >> 1", "22 1:3"),
    ("min(i, 7)", "Int (min v0 Int:7)"),
    ("max(u, 7)", "Uint (max v1 (to Uint Int:7))"),
    (
        "min(f, 1.0f)",
        "Float (opaque64 Uint v2 (opaque0 Uint Uint:0 Uint:0))",
    ),
    (
        "clamp(i, 0, 7)",
        "Int (? (<= Int Int:0 Int:7) (min (max v0 Int:0) Int:7) (opaque66 Int v0 Int:0 Int:7))",
    ),
    (
        "abs(i)",
        "Uint (? (< Int v0 Int:0) (- Uint Uint:0 (to Uint v0)) (to Uint v0))",
    ),
    (
        "mul24(u, 3u)",
        "Uint (? (&& (== Uint (min v1 Uint:16777215) v1) (== Uint (min Uint:3 Uint:16777215) Uint:3)) (* Uint v1 Uint:3) (opaque68 Uint v1 Uint:3))",
    ),
    (
        "get_work_dim()",
        "Uint (+ Uint (% Uint (opaque210 Uint Uint:0 Uint:0) Uint:3) Uint:1)",
    ),
    ("convert_uchar_sat(i)", "Uchar (min (max v0 Int:0) Int:255)"),
    ("convert_int_rtz(f)", "Int (opaque5 Int v2 Uint:0)"),
    (
        "as_int(f)",
        "Int (+ Int (* Int (- Int (^ Int (to Int (& Uint (shr Uint v2 Uint:16) Uint:65535)) Int:32768) Int:32768) Int:65536) (to Int (& Uint v2 Uint:65535)))",
    ),
    ("as_int(c)", "22 1:1"),
    (
        "sqrt(i)",
        "Float (opaque115 Uint (opaque2 Uint v0 Uint:0) Uint:0)",
    ),
    ("fma(f, f, f)", "Float (opaque135 Uint v2 v2 v2)"),
    ("sqrt(f, f)", "22 1:1"),
    (
        "isnan(f)",
        "Int (!= Uint (opaque194 Uint v2 Uint:0) Uint:0)",
    ),
    ("get_global_id(3)", "22 1:15"),
    ("get_global_id(i)", "22 1:1"),
    ("sizeof(float) * 2", "Size (* Size Size:4 (to Size Int:2))"),
    ("sizeof i", "Size Size:4"),
    ("sizeof(size_t)", "15 1:1"),
    ("atomic_inc(a)", "15 1:1"),
    ("frexp(f, a)", "15 1:1"),
    ("i(1)", "22 1:1"),
    ("i++", "15 1:2"),
    ("f.x", "22 1:2"),
    ("true", "Int Int:1"),
];

fn type_of(scalar: Scalar, width: u32) -> ValueType {
    ValueType { scalar, width }
}

fn variable(name: &'static str, of: ValueType, slot: u32) -> Binding<'static> {
    Binding {
        name,
        meaning: Meaning::Variable {
            of,
            slot,
            is_constant: false,
        },
    }
}

fn array(
    name: &'static str,
    space: Space,
    number: u32,
    scalar: Scalar,
    lengths: Vec<u32>,
) -> Binding<'static> {
    Binding {
        name,
        meaning: Meaning::Array {
            array: Array { space, number },
            element: type_of(scalar, 1),
            lengths,
            is_constant: false,
        },
    }
}

fn names(alloc: Global) -> Result<Vec<Binding<'static>>, AllocError> {
    let mut names = Vec::new(alloc);
    names.push(variable("i", type_of(Scalar::Float, 4), 9))?;
    names.push(variable("i", type_of(Scalar::Int, 1), 0))?;
    names.push(variable("u", type_of(Scalar::Uint, 1), 1))?;
    names.push(variable("f", type_of(Scalar::Float, 1), 2))?;
    names.push(variable("n", type_of(Scalar::Size, 1), 3))?;
    names.push(variable("c", type_of(Scalar::Char, 1), 4))?;
    names.push(variable("v", type_of(Scalar::Float, 4), 5))?;
    names.push(array("a", Space::Global, 0, Scalar::Float, Vec::new(alloc)))?;
    names.push(array("b", Space::Global, 1, Scalar::Char, Vec::new(alloc)))?;
    let mut lengths = Vec::new(alloc);
    lengths.push(4)?;
    lengths.push(8)?;
    names.push(array("t", Space::Local, 0, Scalar::Int, lengths))?;
    names.push(Binding {
        name: "byte",
        meaning: Meaning::Type(type_of(Scalar::Uchar, 1)),
    })?;
    names.push(Binding {
        name: "LAST",
        meaning: Meaning::Number(4294967295),
    })?;
    Ok(names)
}

fn push_value(out: &mut String, value: &Value) -> Result<(), AllocError> {
    let scalar = value.of.scalar;
    write!(out, "{scalar:?}")?;
    for term in &value.terms {
        out.push_str(" ")?;
        push_term(out, term)?;
    }
    Ok(())
}

fn push_expression(alloc: Global, out: &mut String, tree: &Expr) -> Result<(), AllocError> {
    let names = names(alloc)?;
    let known = Names {
        ids: Kind::Size,
        visible: names.as_slice(),
        drawn: &[],
    };
    match value_of(alloc, known, tree) {
        Ok(value) => push_value(out, &value),
        Err(error) => write!(out, "{error}"),
    }
}

fn push_lexemes(alloc: Global, out: &mut String, all: &[Lexeme<'_>]) -> Result<(), AllocError> {
    match expression_of(alloc, all) {
        Ok(tree) => push_expression(alloc, out, &tree),
        Err(_) => out.push_str("no tree"),
    }
}

fn push_tokens(alloc: Global, out: &mut String, all: &[Token<'_>]) -> Result<(), AllocError> {
    match lexemes(alloc, all) {
        Ok(all) => push_lexemes(alloc, out, all.as_slice()),
        Err(error) => write!(out, "{error}"),
    }
}

fn push_joined(alloc: Global, out: &mut String, lines: &Joined) -> Result<(), AllocError> {
    match tokens(alloc, lines) {
        Ok(all) => push_tokens(alloc, out, all.as_slice()),
        Err(error) => write!(out, "{error}"),
    }
}

fn shown(alloc: Global, text: &[u8]) -> Result<String, AllocError> {
    let mut out = String::new(alloc);
    match join(alloc, text) {
        Ok(lines) => push_joined(alloc, &mut out, &lines)?,
        Err(error) => write!(&mut out, "{error}")?,
    }
    Ok(out)
}

// Each expression that is read otherwise than it has to be.
fn differences(alloc: Global) -> Result<String, AllocError> {
    let mut out = String::new(alloc);
    for (text, term) in EXPRESSIONS {
        let found = shown(alloc, text.as_bytes())?;
        if found.as_str() != *term {
            out.push_str(text)?;
            out.push_str(" is ")?;
            out.push_str(found.as_str())?;
            out.push_str("; ")?;
        }
    }
    Ok(out)
}

#[test]
fn expressions_are_terms(rt: HostRuntime) -> Result<(), Fail> {
    let found = differences(rt.alloc())?;
    assert_eq!(rt; found.as_str(), "");
    Ok(())
}
