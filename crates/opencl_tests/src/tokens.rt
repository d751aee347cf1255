//! Tests of joined lines, tokens and lexemes of OpenCL C, by C99 and OpenCL 1.2.

use crate::shown::{joined, read, scanned};
use opencl_tokens::LIMIT;
use std::test::Fail;

/// Texts, and their bytes with the place of each, or the fault.
const JOINED: &[(&str, &str)] = &[
    ("ab", "ab 1:1 1:2 1:3"),
    ("a\\\nb", "ab 1:1 2:1 2:2"),
    ("a\\ \t\r\nb", "ab 1:1 2:1 2:2"),
    ("a\r\nb", "a\nb 1:1 1:3 2:1 2:2"),
    ("a\\\n\\\nb", "ab 1:1 3:1 3:2"),
    ("\\a", "\\a 1:1 1:2 1:3"),
    ("\\", "\\ 1:1 1:2"),
    ("??/a", "??/a 1:1 1:2 1:3 1:4 1:5"),
    ("a\rb", "1 1:2"),
    ("a\\\rb", "1 1:3"),
    ("a\n??/\n", "1 2:1"),
    ("??/ \r\n", "1 1:1"),
];

/// Texts, and their tokens with their places: `^` begins a line, `_` stands behind white space.
const SCANNED: &[(&str, &str)] = &[
    ("", "^end@1:1 "),
    ("a\n b", "^a@1:1 ^_b@2:2 end@2:3 "),
    ("\n", "^_end@2:1 "),
    ("in\\\nt x", "^int@1:1 _x@2:3 end@2:4 "),
    ("a/**/b//c\nd", "^a@1:1 _b@1:6 ^_d@2:1 end@2:2 "),
    ("a/*\n*/#", "^a@1:1 _Hash@2:3 end@2:4 "),
    ("// a \\\nb\nc", "^_c@3:1 end@3:2 "),
    (
        "0x1e+1 1.e-5f .5.x 1..2 .a",
        "^number 0x1e+1@1:1 _number 1.e-5f@1:8 _number .5.x@1:15 _number 1..2@1:20 _Dot@1:25 a@1:26 end@1:27 ",
    ),
    (
        "'\\'' \"\\\"/*\" l'a'",
        "^character '\\''@1:1 _text \"\\\"/*\"@1:6 _l@1:13 character 'a'@1:14 end@1:17 ",
    ),
    (
        "<:<%%:%:%>:>%:",
        "^LeftBracket@1:1 LeftBrace@1:3 HashHash@1:5 RightBrace@1:9 RightBracket@1:11 Hash@1:13 end@1:15 ",
    ),
    (
        "a+++b->c...d>>=e",
        "^a@1:1 PlusPlus@1:2 Plus@1:4 b@1:5 Arrow@1:6 c@1:8 Ellipsis@1:9 d@1:12 RightShiftEqual@1:13 e@1:16 end@1:17 ",
    ),
    ("$ @\\", "^other 36@1:1 _other 64@1:3 other 92@1:4 end@1:5 "),
    ("a\0b", "^a@1:1 other 0@1:2 b@1:3 end@1:4 "),
    (
        "a???b",
        "^a@1:1 Question@1:2 Question@1:3 Question@1:4 b@1:5 end@1:6 ",
    ),
    ("// ??=\n/* ??= */", "^_end@2:10 "),
];

/// Texts, and their lexemes.
const READ: &[(&str, &str)] = &[
    (
        "__kernel void f(global const uint4 *restrict p)",
        "Kernel Void f LeftParenthesis Global Const type Uint 4 Star Restrict p RightParenthesis end ",
    ),
    (
        "size_t uintptr_t ptrdiff_t bool half16 float3 float5 int unsigned __inline __attribute__ kernels",
        "type SizeT 1 type SizeT 1 type PtrdiffT 1 type Bool 1 type Half 16 type Float 3 float5 Int Unsigned Inline Attribute kernels end ",
    ),
    (
        "0 7 010 0x1F 2147483647 2147483648u 0x80000000 037777777777 0X0U",
        "Int(0) Int(7) Int(8) Int(31) Int(2147483647) Uint(2147483648) Uint(2147483648) Uint(4294967295) Uint(0) end ",
    ),
    (
        "1.0 .5f 1.F 1e3 1E-3f 010.5 09.0 0x1p3 0x.8P-1f 0x1.p+0",
        "real 1.0 real .5f real 1.F real 1e3 real 1E-3f real 010.5 real 09.0 real 0x1p3 real 0x.8P-1f real 0x1.p+0 end ",
    ),
    (
        "'a' '\\n' '\\0' '\\x41' '\\101' '\\'' '\"' '\\177'",
        "Int(97) Int(10) Int(0) Int(65) Int(65) Int(39) Int(34) Int(127) end ",
    ),
    ("'\\377' '\\x80'", "Int(4294967295) Int(4294967168) end "),
    ("\"a\" ? : ;", "text \"a\" Question Colon Semicolon end "),
];

/// Texts with a fault, its number and its place.
const FAULTS: &[(&str, &str)] = &[
    ("a\n  $", "1 2:3"),
    ("x = 'a\n';", "1 1:5"),
    ("\"a", "1 1:1"),
    ("a ??= b", "1 1:3"),
    ("'??''", "1 1:1"),
    ("x = L'a'", "1 1:5"),
    ("L\"a\"", "1 1:1"),
    ("é", "1 1:1"),
    ("a /* b", "2 1:3"),
    ("2147483648", "3 1:1"),
    ("0x100000000", "3 1:1"),
    ("4294967296u", "3 1:1"),
    ("09", "4 1:1"),
    ("0x", "4 1:1"),
    ("1f", "4 1:1"),
    ("0x1.8", "4 1:1"),
    ("0x1e+1", "4 1:1"),
    ("1e", "4 1:1"),
    ("1.0L", "4 1:1"),
    ("1uu", "4 1:1"),
    ("1.2.3", "4 1:1"),
    ("1lL", "4 1:1"),
    ("''", "4 1:1"),
    ("'ab'", "4 1:1"),
    ("'\\400'", "4 1:1"),
    ("'\\x'", "4 1:1"),
    ("'\\q'", "4 1:1"),
    ("'é'", "4 1:1"),
    ("\n #define x", "13 2:2"),
    ("a ## b", "13 1:3"),
    ("%:", "13 1:1"),
    ("1L", "15 1:1"),
    ("0xFFull", "15 1:1"),
    ("1.0h", "15 1:1"),
];

#[test]
fn lines_are_joined(rt: HostRuntime) -> Result<(), Fail> {
    for (text, wanted) in JOINED {
        let shown = joined(rt.alloc(), text.as_bytes())?;
        assert_eq!(rt; shown.as_str(), *wanted, "{text}");
    }
    Ok(())
}

#[test]
fn texts_have_tokens(rt: HostRuntime) -> Result<(), Fail> {
    for (text, wanted) in SCANNED {
        let shown = scanned(rt.alloc(), text.as_bytes())?;
        assert_eq!(rt; shown.as_str(), *wanted, "{text}");
    }
    Ok(())
}

#[test]
fn tokens_are_lexemes(rt: HostRuntime) -> Result<(), Fail> {
    for (text, wanted) in READ {
        let shown = read(rt.alloc(), text.as_bytes())?;
        assert_eq!(rt; shown.as_str(), *wanted, "{text}");
    }
    Ok(())
}

#[test]
fn faults_are_found(rt: HostRuntime) -> Result<(), Fail> {
    for (text, wanted) in FAULTS {
        let shown = read(rt.alloc(), text.as_bytes())?;
        assert_eq!(rt; shown.as_str(), *wanted, "{text}");
    }
    Ok(())
}

#[test]
fn long_texts_are_refused(rt: HostRuntime) -> Result<(), Fail> {
    let mut text = vec![in rt.alloc(); b' '; LIMIT]?;
    let shown = read(rt.alloc(), text.as_slice())?;
    assert_eq!(rt; shown.as_str(), "end ");
    text.push(b' ')?;
    let refused = read(rt.alloc(), text.as_slice())?;
    assert_eq!(rt; refused.as_str(), "5 1:1");
    Ok(())
}
