//! Tests of whole files of OpenCL C: which kernel is chosen, and what it is, by C99 and OpenCL 1.2.

use crate::file_shown::kernel;
use std::test::Fail;

/// Files with one kernel, and what is read of them, or the fault.
const FILES: &[(&str, &str)] = &[
    (
        "__kernel void f(__global float *a, const int n) { int i = get_global_id(0); a[i] = n; }",
        "void f@1:15(global Float1 *a;const Int1 n;){1 Int1 i=(call get_global_id 0);2 (= ([] a i) n);}",
    ),
    ("kernel void f() { }", "void f@1:13(){}"),
    (
        "kernel void f(void) { return; }",
        "void f@1:13(){1return -}",
    ),
    ("kernel void f(void *) { }", "void f@1:13(void *-;){}"),
    (
        "kernel void f(int, void) { }",
        "void f@1:13(Int1 -;void -;){}",
    ),
    (
        "kernel void f(local float t[16][16], global half *h, uint4 v, global int *restrict const p) { }",
        "void f@1:13(local Float1 t[16][16];global Half1 *h;Uint4 v;global Int1 *const restrict p;){}",
    ),
    (
        "__attribute__((reqd_work_group_size(8, 4, 1))) kernel void f() { }",
        "<8,4,1> void f@1:60(){}",
    ),
    (
        "kernel __attribute__((vec_type_hint(float4))) __attribute__((reqd_work_group_size(64,1,1))) void f() { }",
        "<64,1,1> void f@1:98(){}",
    ),
    (
        "kernel void __attribute__((work_group_size_hint(8,8,1), __reqd_work_group_size__(2,3,4u))) f() { }",
        "<2,3,4> void f@1:92(){}",
    ),
    (
        "kernel void f(int a) __attribute__((work_group_size_hint(8,8,1))) { }",
        "void f@1:13(Int1 a;){}",
    ),
    (
        "kernel void f(int a) __attribute__((reqd_work_group_size(16,16,1))) { }",
        "<16,16,1> void f@1:13(Int1 a;){}",
    ),
    (
        "static inline float twice(float x) { return x + x; } kernel void f(global float *a) { a[0] = twice(1.0f); } int later(int x) { return x; }",
        "void f@1:66(global Float1 *a;){1 (= ([] a 0) (call twice 1.0f));}",
    ),
    (
        "float g(float x); kernel void f(int a); kernel void f(int b) { }",
        "void f@1:53(Int1 b;){}",
    ),
    (
        "typedef float4 vec; typedef vec pair[2]; kernel void f(global vec *a) { vec v = a[0]; } typedef int late;",
        "typedef 0 Float4 vec; typedef 0 vec pair[2]; void f@1:54(global vec *a;){1 vec v=([] a 0);}",
    ),
    (
        "typedef struct { int a; float b[2]; } cell; struct s { int x; }; struct s; union u { int k; } v; kernel void f(int n) { ; }",
        "void f@1:110(Int1 n;){1; }",
    ),
    (
        "enum { A, B = 4, C = B + 1, }; enum e { D }; enum e x; enum { }; typedef enum { E } t; kernel void f() { }",
        "enum A@1:8=- B@1:11=4 C@1:18=(+ B 1); enum D@1:41=-; void f@1:100(){}",
    ),
    (
        "__constant int t[] = { 1, 2, (3) }; __constant float k = 2.0f; ;; kernel void f() { }",
        "void f@1:79(){}",
    ),
    (
        "void g() { kernel void h() { } @ } kernel void f() { }",
        "1 1:32",
    ),
    (
        "void g() { kernel void h() { ] } } kernel void f() { }",
        "10 1:30 Expected",
    ),
    (
        "void g() { kernel void h() { goto } } kernel void f() { }",
        "void f@1:51(){}",
    ),
    ("", "10 1:1 Expected"),
    ("int f() { return 1; }", "10 1:22 Expected"),
    ("kernel void f(int a);", "10 1:22 Expected"),
    (
        "kernel void f() { }\nkernel void g() { }",
        "35 2:13 SeveralKernels",
    ),
    ("kernel void f() { ", "10 1:19 Expected"),
    ("kernel void f() { } }", "10 1:21 Expected"),
    ("kernel void f() { ( } )", "10 1:21 Expected"),
    ("kernel void f() { a[(1]) }", "10 1:23 Expected"),
    ("kernel void f() { } int x", "10 1:26 Expected"),
    ("kernel void f(image2d_t a) { }", "15 1:15 LeftOut(Image)"),
    (
        "kernel void f(read_only image2d_t a) { }",
        "15 1:15 LeftOut(Image)",
    ),
    (
        "kernel void f(int a, sampler_t s) { }",
        "15 1:22 LeftOut(Sampler)",
    ),
    (
        "kernel void f(global struct s *a) { }",
        "15 1:22 LeftOut(Structure)",
    ),
    ("kernel void f(double a) { }", "15 1:15 LeftOut(Double)"),
    ("kernel void f(half a) { }", "15 1:20 LeftOut(Half)"),
    ("kernel void f(real a) { }", "10 1:15 Expected"),
    (
        "typedef struct { int a; } cell; kernel void f(global cell *a) { }",
        "10 1:54 Expected",
    ),
    ("kernel void f(int a b) { }", "10 1:21 Expected"),
    ("kernel void f(int a,) { }", "10 1:21 Expected"),
    ("kernel void f(int a) const { }", "10 1:22 Expected"),
    (
        "kernel __attribute__((reqd_work_group_size(8,8))) void f() { }",
        "10 1:47 Expected",
    ),
    (
        "kernel __attribute__((reqd_work_group_size(8,8,1))) void f() __attribute__((reqd_work_group_size(8,8,1))) { }",
        "10 1:77 Expected",
    ),
    ("kernel __attribute__(x) void f() { }", "10 1:22 Expected"),
    ("kernel void f() { int x }", "10 1:25 Expected"),
    ("kernel void f() { goto x; }", "15 1:19 LeftOut(Goto)"),
];

/// A file with several kernels, the name that is wanted, and what is read.
const SEVERAL: &str =
    "kernel void f() { ; }\nkernel void g() { }\nvoid h() { }\nkernel void g(int a);\nkernel void g(int a) { }";

const WANTED: &[(&str, &str)] = &[
    ("f", "void f@1:13(){1; }"),
    ("g", "35 5:13 KernelTwice"),
    ("h", "35 1:1 NoKernel"),
    ("fg", "35 1:1 NoKernel"),
];

#[test]
fn kernels_are_read(rt: HostRuntime) -> Result<(), Fail> {
    for (text, wanted) in FILES {
        let found = kernel(rt.alloc(), None, text.as_bytes())?;
        assert_eq!(rt; found.as_str(), *wanted, "{text}");
    }
    Ok(())
}

#[test]
fn kernels_are_chosen(rt: HostRuntime) -> Result<(), Fail> {
    for (name, wanted) in WANTED {
        let found = kernel(rt.alloc(), Some(name), SEVERAL.as_bytes())?;
        assert_eq!(rt; found.as_str(), *wanted, "{name}");
    }
    let none = kernel(rt.alloc(), Some("f"), b"int g() { }")?;
    assert_eq!(rt; none.as_str(), "10 1:12 Expected");
    let only = kernel(rt.alloc(), Some("f"), b"kernel void f() { }")?;
    assert_eq!(rt; only.as_str(), "void f@1:13(){}");
    Ok(())
}

// A long file, of so many equal lines: it is cut in time that grows no faster than the file.
fn long(rt: &HostRuntime, line: &str, count: u32, behind: &str) -> Result<String, Fail> {
    let mut text = String::new(rt.alloc());
    for _line in 0..count {
        text.push_str(line)?;
    }
    text.push_str(behind)?;
    Ok(kernel(rt.alloc(), None, text.as_str().as_bytes())?)
}

#[test]
fn long_files_are_cut(rt: HostRuntime) -> Result<(), Fail> {
    let flat = long(&rt, "{}", 32_500, "kernel void f() { }")?;
    assert_eq!(rt; flat.as_str(), "void f@1:65013(){}");
    let deep = long(&rt, "{", 65_000, "")?;
    assert_eq!(rt; deep.as_str(), "10 1:65001 Expected");
    let empty = long(&rt, ";", 65_000, "kernel void f() { }")?;
    assert_eq!(rt; empty.as_str(), "void f@1:65013(){}");
    let open = long(&rt, "g;", 32_500, "")?;
    assert_eq!(rt; open.as_str(), "10 1:65001 Expected");
    Ok(())
}
