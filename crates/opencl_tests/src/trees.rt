//! Tests of the trees that are read of OpenCL C, by C99 and OpenCL 1.2.

use crate::read_shown::{block, expression};
use std::test::Fail;

/// Texts, and their expressions or the fault.
const EXPRESSIONS: &[(&str, &str)] = &[
    ("a - b - c", "(- (- a b) c)"),
    ("a ? b : c ? d : e", "(? a b (? c d e))"),
    ("*p++", "(* (++ p))"),
    ("++*p", "(++_ (* p))"),
    ("-a + !b * ~c", "(+ (- a) (* (! b) (~ c)))"),
    ("+a / &b % c--", "(% (/ (+ a) (& b)) (-- c))"),
    (
        "a || b && c | d ^ e & f == g < h << i + j * k",
        "(|| a (&& b (| c (^ d (& e (== f (< g (<< h (+ i (* j k))))))))))",
    ),
    ("a != b >= c", "(!= a (>= b c))"),
    ("a = b += c", "(= a (+= b c))"),
    ("a <<= b >> 1", "(<<= a (>> b 1))"),
    ("a, b = 1, c", "(, (, a (= b 1)) c)"),
    ("f(a, g(), b[i][j])", "(call f a (call g) ([] ([] b i) j))"),
    ("v.s0 > (a, b)", "(> (.s0 v) (, a b))"),
    ("(float4)(a, b, c, d).xy", "(.xy (vector Float4 a b c d))"),
    ("(float)(a, b).x", "(cast Float1 (.x (, a b)))"),
    ("(float)a * 2.5f", "(* (cast Float1 a) 2.5f)"),
    (
        "(__global const float *)p + 1u",
        "(+ (cast global const Float1* p) 1u)",
    ),
    ("(unsigned short int)x", "(cast Ushort1 x)"),
    ("(int volatile unsigned)x", "(cast volatile Uint1 x)"),
    ("(half *)p", "(cast Half1* p)"),
    (
        "sizeof(float4) * sizeof x",
        "(* (sizeof type Float4) (sizeof x))",
    ),
    ("sizeof (x)[1]", "(sizeof ([] x 1))"),
    ("a +", "10 1:4 Expected"),
    ("a b", "10 1:3 Expected"),
    ("f(a,)", "10 1:5 Expected"),
    ("(float4)()", "10 1:10 Expected"),
    ("(unsigned float)x", "10 1:11 Expected"),
    ("(short char)x", "10 1:8 Expected"),
    (
        "((((((((((((((((((((((((((((((((((((((((((((((((((((((((((((((((x",
        "11 1:65 TooDeep",
    ),
    ("p->x", "15 1:2 LeftOut(Structure)"),
    ("(unsigned long int)x", "(cast Ulong1 x)"),
    ("(long long)x", "10 1:7 Expected"),
    ("(long2)x", "15 1:2 LeftOut(Long)"),
    ("(ulong2)x", "15 1:2 LeftOut(Long)"),
    ("(double)x", "15 1:2 LeftOut(Double)"),
    ("(half)x", "15 1:6 LeftOut(Half)"),
    ("(image2d_t)x", "15 1:2 LeftOut(Image)"),
    ("(sampler_t)x", "15 1:2 LeftOut(Sampler)"),
    ("(event_t)x", "15 1:2 LeftOut(Event)"),
    ("(struct s)x", "15 1:2 LeftOut(Structure)"),
    ("(enum e)x", "15 1:2 LeftOut(Enumeration)"),
    ("\"s\"", "15 1:1 LeftOut(String)"),
];

/// Texts, and their statements with their numbers, or the fault.
const BLOCKS: &[(&str, &str)] = &[
    ("int a = 1, *b, c[2][n]; }", "{1 Int1 a=1 *b c[2][n];}"),
    (
        "__local float4 t[] = { {1, 2}, 3, }; }",
        "{1 local Float4 t[-]{{=1=2}=3};}",
    ),
    (
        "const unsigned int k = 3; static uint q; return k; }",
        "{1 const Uint1 k=3;2 Uint1 q;3return k}",
    ),
    ("if (a) if (b) x; else y; }", "{1if a{2if b{3 x;}{4 y;}}{}}"),
    ("while (a) continue; }", "{1while a{2continue }}"),
    ("do { i++; } while (i < n); }", "{1do {2 (++ i);}(< i n)}"),
    (
        "for (int i = 0; i < n; ++i) { } }",
        "{1for 2 Int1 i=0; (< i n) (++_ i){}}",
    ),
    ("for (;;) break; }", "{1for - - -{4break }}"),
    (
        "switch (x) { case 1: case 2: a = 1; break; default: ; } }",
        "{1switch x{2case 1:3case 2:4 (= a 1);5break 6default 7; }}",
    ),
    (
        "typedef float4 vec; vec v = (vec)(1, 2, 3, 4); { typedef int t; } return; }",
        "{typedef 1 Float4 vec;2 vec v=(vector vec 1 2 3 4);3 {typedef 4 Int1 t;}5return -}",
    ),
    (
        "{ typedef int t; } t = 1; }",
        "{1 {typedef 2 Int1 t;}3 (= t 1);}",
    ),
    ("int a", "10 1:6 Expected"),
    ("const x = 1; }", "10 1:7 Expected"),
    ("case 1: }", "10 1:9 Expected"),
    ("switch (a) { case 1: int b; } }", "10 1:22 Expected"),
    ("if (a) case 1: b; }", "10 1:8 Expected"),
    ("do x; while (a) }", "10 1:17 Expected"),
    ("typedef int t; int t; }", "10 1:20 Expected"),
    ("int a[1][1][1][1][1][1][1][1][1]; }", "12 1:30 TooMany"),
    ("goto x; }", "15 1:1 LeftOut(Goto)"),
    ("x: y; }", "15 1:2 LeftOut(Label)"),
    ("half h; }", "15 1:6 LeftOut(Half)"),
    ("double d; }", "15 1:1 LeftOut(Double)"),
];

#[test]
fn expressions_are_read(rt: HostRuntime) -> Result<(), Fail> {
    for (text, wanted) in EXPRESSIONS {
        let found = expression(rt.alloc(), text.as_bytes())?;
        assert_eq!(rt; found.as_str(), *wanted);
    }
    Ok(())
}

#[test]
fn blocks_are_read(rt: HostRuntime) -> Result<(), Fail> {
    for (text, wanted) in BLOCKS {
        let found = block(rt.alloc(), text.as_bytes())?;
        assert_eq!(rt; found.as_str(), *wanted);
    }
    Ok(())
}
