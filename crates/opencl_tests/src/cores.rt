//! Tests of whole kernels of OpenCL C: the core of each is the one that C99 asks for.

use crate::core_shown::{push_core, push_names};
use core_code::tree::Site;
use opencl_core::heads::LocalCount;
use opencl_core::kernels::{Written, kernel_of};
use opencl_files::tree::{Header, Parameter};
use opencl_parser::block_of;
use opencl_tokens::{Joined, Lexeme, Scalar, Token, join, lexemes, tokens};
use opencl_tree::tree::{Declaration, Declarator, Stmt};
use opencl_tree::types::{Base, Qualifiers};
use opencl_values::error::ValueError;
use opencl_values::scope::{Binding, Meaning};
use std::alloc::{AllocError, Global};
use std::test::Fail;
use words::Kind;

/// Parameters as declarations, a body, and the core with its names.
const KERNELS: &[(&str, &str, &str, &str)] = &[
    (
        "__global int *a; int n; }",
        "int i = get_global_id(0); if (i < n) a[i] = i + 1; }",
        "buffer Int value Int Int {1v1=(to Int (global_id 0));2if (< Int v1 v0){3g0[v1]=(+ Int v1 Int:1);}{}}",
        "i 2-3, 1@1:5 2-3@1:27 3@1:38 ",
    ),
    (
        "__global uchar *a; char c; }",
        "a[0] = c; }",
        "buffer Uint value Int {1v0=(- Int (^ Int (to Int (& Uint (to Uint v0) Uint:255)) Int:128) Int:128);2g0[Int:0]=(& Uint (to Uint (to Int (& Uint (to Uint v0) Uint:255))) Uint:255);}",
        "1@1:25 2@1:1 ",
    ),
    (
        "__global int *a; }",
        "a[a[0]] += 2; a[1]++; }",
        "buffer Int Int {1v0=(load g0 Int:0);2g0[v0]=(+ Int (load g0 v0) Int:2);3g0[Int:1]=(+ Int (load g0 Int:1) Int:1);}",
        "_ 1-0, 1@1:1 2@1:1 3@1:15 ",
    ),
    (
        "__global int *a; }",
        "int s; do { s = s + 1; } while (s < 9); for (int i = 0, j = i; ; i++, j -= 2) { if (i) continue; else break; } }",
        "buffer Int Int Int Int {1loop Int:1{2v0=(+ Int v0 Int:1);3if (< Int v0 Int:9){}{4break 1;}}{}5v1=Int:0;6v2=v1;7loop Int:1{8if v1{9continue 7;}{10break 7;}}{11v1=(+ Int v1 Int:1);12v2=(- Int v2 Int:2);}}",
        "s 1-12, i 6-12, j 7-12, 1t-4@1:8 2@1:13 3-4@1:8 4@1:8 5@1:50 6@1:57 7t-12@1:41 8-10@1:81 9@1:88 10@1:103 11@1:66 12@1:71 ",
    ),
    (
        "__local float *t; float x; }",
        "__local int w[2 * 3 + 1][4]; barrier(CLK_LOCAL_MEM_FENCE | CLK_GLOBAL_MEM_FENCE); t[1] = x * x - 0.5f; { int x = 3; w[x][0] = x; } return; }",
        "value Uint local Uint[8] local Int[28] Int {1barrier true true;2l0[Int:1]=(opaque9 Uint (opaque10 Uint v0 v0) (opaque0 Uint Uint:0 Uint:0));3v1=Int:3;4l1[(+ Uint (* Uint (to Uint (within 7 v1)) Uint:4) (to Uint (within 4 Int:0)))]=v1;5return;}",
        "x 4-4, t[], w[], 1w@1:30 2@1:83 3@1:110 4@1:117 5@1:132 ",
    ),
    (
        "int n; }",
        "while (n) { int k = n; n -= k; if (k > 2) { int n = 1; break; } } }",
        "value Int Int Int {1loop v0{2v1=v0;3v0=(- Int v0 v1);4if (> Int v1 Int:2){5v2=Int:1;6break 1;}{}}{}}",
        "k 3-6, n 6-6, 1t-6@1:1 2@1:17 3@1:24 4-6@1:32 5@1:49 6@1:56 ",
    ),
];

/// Kernels with effects inside expressions, and such as move a pointer.
const DRAWN: &[(&str, &str, &str, &str)] = &[
    (
        "__global int *a; int n; }",
        "int i = 0; a[i++] = n; }",
        "buffer Int value Int Int Int {1v1=Int:0;2v2=v1;3v1=(+ Int v1 Int:1);4g0[v2]=v0;}",
        "i 2-4, _ 1-0, 1@1:5 2@1:15 3@1:14 4@1:12 ",
    ),
    (
        "int n; int m; }",
        "if (n && m--) n = 0; }",
        "value Int value Int Int Int {1v2=(&& v0 Int:1);2if v2{3v3=v1;4v1=(- Int v1 Int:1);5v2=(&& v3 Int:1);}{}6if v2{7v0=Int:0;}{}}",
        "_ 1-0, _ 1-0, 1@1:7 2-5@1:7 3@1:11 4@1:10 5@1:7 6-7@1:1 7@1:15 ",
    ),
    (
        "int n; int m; int k; }",
        "while (n--) m = n ? 1 : (k = 2, 3); }",
        "value Int value Int value Int Int Int Int Int Int {1loop Int:1{2v3=v0;3v0=(- Int v0 Int:1);4if v3{}{5break 1;}6if v0{7v7=Int:1;}{8v4=Int:2;9v2=v4;10v5=v4;11v6=Int:3;12v7=v6;}13v1=v7;}{}}",
        "_ 1-0, _ 1-0, _ 1-0, _ 1-0, _ 1-0, 1t-13@1:1 2@1:9 3@1:8 4-5@1:1 5@1:1 6-12@1:19 7@1:19 8@1:28 9@1:26 10@1:26 11@1:31 12@1:19 13@1:13 ",
    ),
    (
        "int n; }",
        "n + 1; }",
        "value Int Int {1v1=(+ Int v0 Int:1);}",
        "_ 1-0, 1@1:1 ",
    ),
    (
        "__global int *a; int n; }",
        "a += n; *a = 3; }",
        "buffer Int value Int Int {1v1=Int:0;2v1=(+ Int v1 v0);3g0[(+ Int v1 Int:0)]=Int:3;}",
        "a 2-3, 1@1:15 2@1:1 3@1:9 ",
    ),
    (
        "__global uchar *a; }",
        "*(__global ushort *)(a + 2) += 1; }",
        "buffer Uint Uint Int {1v0=(+ Uint (to Uint (within 2147483648 (+ Int Int:2 (* Int Int:0 Int:2)))) (within 1 (& Uint (to Uint (+ Int Int:2 (* Int Int:0 Int:2))) Uint:1)));2v1=(to Int (& Uint (to Uint (+ Int (to Int (& Uint (| Uint (& Uint (load g0 (+ Uint v0 Uint:0)) Uint:255) (shl Uint (& Uint (load g0 (+ Uint v0 Uint:1)) Uint:255) Uint:8)) Uint:65535)) Int:1)) Uint:65535));3g0[(+ Uint v0 Uint:0)]=(& Uint (to Uint v1) Uint:255);4g0[(+ Uint v0 Uint:1)]=(& Uint (shr Uint (to Uint v1) Uint:8) Uint:255);}",
        "_ 1-0, _ 1-0, 1@1:1 2@1:1 3@1:1 4@1:1 ",
    ),
];

/// Whether a function `f` returns an `int`, its parameters and its body; a kernel that calls it, with its core, or its fault.
const CALLING: &[(bool, &str, &str, &str, &str, &str)] = &[
    (
        true,
        "int x; }",
        "if (x < 0) return 0; return x * 2; }",
        "__global int *a; int n; }",
        "a[0] = f(n) + 1; }",
        "buffer Int value Int Int Int {1v1=v0;2if (< Int v1 Int:0){3v2=Int:0;}{4v2=(* Int v1 Int:2);}5g0[Int:0]=(+ Int v2 Int:1);}",
    ),
    (
        false,
        "__global int *p; int v; }",
        "p[v] += 1; }",
        "__global int *b; __global int *a; }",
        "f(a, 3); }",
        "buffer Int buffer Int Int {1v0=Int:3;2g1[v0]=(+ Int (load g1 v0) Int:1);}",
    ),
    (
        true,
        "__global int *p; }",
        "p[0] = 1; return 2; }",
        "__global int *a; }",
        "a[1] = a[0] + f(a); }",
        "15 1:13 LeftOut(Effect)",
    ),
];

/// Parameters, a body, and the fault.
const REFUSED: &[(&str, &str, &str)] = &[
    ("int n; }", "int n; }", "21 1:5 NameTwice"),
    ("int n; }", "{ int n; int n; } }", "21 1:14 NameTwice"),
    (
        "int n; }",
        "if (n) { int k = 1; } else k = 2; }",
        "20 1:28 UnknownName",
    ),
    ("int n; }", "break; }", "28 1:1 JumpOutside"),
    (
        "int n; }",
        "do { continue; } while (n); }",
        "15 1:6 LeftOut(Repetition)",
    ),
    ("int n; }", "return n; }", "22 1:1 WrongType"),
    (
        "int n; }",
        "int a[3] = {1, {2}}; }",
        "15 1:5 LeftOut(InitialList)",
    ),
    ("int n; }", "int *p; }", "15 1:6 LeftOut(Pointer)"),
    ("int n; }", "(int)(n = 1); }", "15 1:1 LeftOut(Effect)"),
    ("int n; }", "n = n = 1; }", "15 1:3 LeftOut(Effect)"),
    ("const int n; }", "n = 1; }", "23 1:1 WriteToConst"),
    ("__constant int *a; }", "a[0] = 1; }", "23 1:1 WriteToConst"),
    ("int n; }", "__local int a[n]; }", "22 1:15 WrongType"),
    (
        "int n; }",
        "__local int a[1024][1025]; }",
        "12 1:13 TooMany",
    ),
    ("int n; }", "barrier(3); }", "26 1:9 BarrierFlags"),
    (
        "int n; }",
        "switch (n) { case 1: n = 2; } }",
        "15 1:1 LeftOut(Choice)",
    ),
    ("bool n; }", "}", "22 1:6 WrongType"),
    ("int2 n; int n_s1; }", "}", "21 1:13 NameTwice"),
    ("__local int *n; }", "}", "35 1:14 LocalLength"),
    ("int *n; }", "}", "22 1:6 WrongType"),
    ("int n; }", "int2 v = 1; v.xx = v; }", "22 1:14 WrongType"),
    (
        "int n; }",
        "int2 v = 1; if (v) n = 1; }",
        "22 1:17 WrongType",
    ),
    ("int n; }", "int get_global_id; }", "21 1:5 NameTwice"),
];

fn parameter_of(declaration: Declaration, declarator: Declarator) -> Parameter {
    Parameter {
        site: declarator.site,
        name: Some(declarator.name),
        base: declaration.base,
        qualifiers: declaration.qualifiers,
        stars: declarator.stars,
        dimensions: declarator.dimensions,
    }
}

fn push_parameter(
    mut declaration: Declaration,
    all: &mut Vec<Parameter>,
) -> Result<(), AllocError> {
    if let Some(declarator) = declaration.declarators.pop() {
        all.push(parameter_of(declaration, declarator))?;
    }
    Ok(())
}

const PLAIN: Qualifiers = Qualifiers {
    space: None,
    constant: false,
    volatile: false,
    restrict: false,
};

fn head_of(
    alloc: Global,
    name: &str,
    base: Base,
    declared: Vec<Stmt>,
) -> Result<Header, AllocError> {
    let mut parameters = Vec::new(alloc);
    for statement in declared {
        if let Stmt::Declare(declaration) = statement {
            push_parameter(declaration, &mut parameters)?;
        }
    }
    Ok(Header {
        sizes: None,
        base,
        qualifiers: PLAIN,
        stars: Vec::new(alloc),
        site: Site { line: 1, column: 1 },
        name: String::from_str(alloc, name)?,
        parameters,
    })
}

fn read_tokens(alloc: Global, all: &[Token<'_>]) -> Result<Vec<Stmt>, Fail> {
    let all: Vec<Lexeme> = lexemes(alloc, all)?;
    Ok(block_of(alloc, &all)?)
}

fn read_lines(alloc: Global, lines: &Joined) -> Result<Vec<Stmt>, Fail> {
    let all = tokens(alloc, lines)?;
    read_tokens(alloc, &all)
}

fn read(alloc: Global, text: &str) -> Result<Vec<Stmt>, Fail> {
    let lines = join(alloc, text.as_bytes())?;
    read_lines(alloc, &lines)
}

fn function(
    alloc: Global,
    name: &str,
    base: Base,
    parameters: &str,
    body: &str,
) -> Result<(Header, Vec<Stmt>), Fail> {
    let declared = read(alloc, parameters)?;
    let head = head_of(alloc, name, base, declared)?;
    Ok((head, read(alloc, body)?))
}

/// A kernel, the functions in front of it, and the name of one of them.
#[derive(Drop)]
struct Source {
    name: String,
    functions: Vec<(Header, Vec<Stmt>)>,
    kernel: (Header, Vec<Stmt>),
}

fn written(alloc: Global, of: &Source) -> Result<Result<Written, ValueError>, Fail> {
    let mut counts = Vec::new(alloc);
    counts.push(LocalCount {
        name: String::from_str(alloc, "t")?,
        count: 8,
    })?;
    let mut outside = Vec::new(alloc);
    outside.push(Binding {
        name: of.name.as_str(),
        meaning: Meaning::Unread,
    })?;
    Ok(kernel_of(
        alloc,
        Kind::Size,
        outside,
        &of.functions,
        [64, 1, 1],
        &of.kernel.0,
        &counts,
        &of.kernel.1,
    ))
}

fn kernel_behind(
    alloc: Global,
    functions: Vec<(Header, Vec<Stmt>)>,
    parameters: &str,
    body: &str,
) -> Result<Result<Written, ValueError>, Fail> {
    let source = Source {
        name: String::from_str(alloc, "f")?,
        functions,
        kernel: function(alloc, "k", Base::Void, parameters, body)?,
    };
    written(alloc, &source)
}

fn kernel(
    alloc: Global,
    parameters: &str,
    body: &str,
) -> Result<Result<Written, ValueError>, Fail> {
    kernel_behind(alloc, Vec::new(alloc), parameters, body)
}

fn core_of(alloc: Global, written: &Result<Written, ValueError>) -> Result<String, Fail> {
    let mut out = String::new(alloc);
    match written {
        Ok(written) => push_core(&mut out, &written.core)?,
        Err(ValueError::At { fault, site }) => {
            let number = fault.number();
            write!(out, "{number} {}:{} {fault:?}", site.line, site.column)?;
        }
        Err(ValueError::Memory) => out.push_str("90")?,
    }
    Ok(out)
}

fn names_of(alloc: Global, written: &Result<Written, ValueError>) -> Result<String, Fail> {
    let mut out = String::new(alloc);
    if let Ok(written) = written {
        push_names(&mut out, &written.names)?;
    }
    Ok(out)
}

#[test]
fn kernels_are_written_out(rt: HostRuntime) -> Result<(), Fail> {
    let alloc = rt.alloc();
    for (parameters, body, core, names) in KERNELS {
        let written = kernel(alloc, parameters, body)?;
        let found = core_of(alloc, &written)?;
        assert_eq!(rt; found.as_str(), *core);
        let found = names_of(alloc, &written)?;
        assert_eq!(rt; found.as_str(), *names);
    }
    Ok(())
}

#[test]
fn effects_are_drawn_out(rt: HostRuntime) -> Result<(), Fail> {
    let alloc = rt.alloc();
    for (parameters, body, core, names) in DRAWN {
        let written = kernel(alloc, parameters, body)?;
        let found = core_of(alloc, &written)?;
        assert_eq!(rt; found.as_str(), *core);
        let found = names_of(alloc, &written)?;
        assert_eq!(rt; found.as_str(), *names);
    }
    Ok(())
}

#[test]
fn others_are_refused(rt: HostRuntime) -> Result<(), Fail> {
    let alloc = rt.alloc();
    for (parameters, body, fault) in REFUSED {
        let written = kernel(alloc, parameters, body)?;
        let found = core_of(alloc, &written)?;
        assert_eq!(rt; found.as_str(), *fault);
    }
    Ok(())
}

fn base_of(is_int: bool) -> Base {
    if is_int {
        Base::Numbers {
            scalar: Scalar::Int,
            width: 1,
        }
    } else {
        Base::Void
    }
}

#[test]
fn calls_are_written_out(rt: HostRuntime) -> Result<(), Fail> {
    let alloc = rt.alloc();
    for (is_int, given, inner, parameters, body, core) in CALLING {
        let mut functions = Vec::new(alloc);
        functions.push(function(alloc, "f", base_of(*is_int), given, inner)?)?;
        let written = kernel_behind(alloc, functions, parameters, body)?;
        let found = core_of(alloc, &written)?;
        assert_eq!(rt; found.as_str(), *core);
    }
    Ok(())
}
