//! Tests of the operations on words, of `int` and of `uint`, at the edges of both, against the answers of a C compiler.

ghost use Rattle.std.specs.Prelude.{◌≡◌};
ghost use Rattle.words.specs.View.{kind_of};

use std::fmt::Write;
use std::test::Fail;
use words::{
    Fault, Gate, Kind, Moment, Open, Word, add, bit_and, bit_or, bit_xor, convert, count_of, div,
    less, mul, neg, not, rem, shift_left, shift_right, shl, shr, sub,
};

// `a b: ` and what `+ - * / % & | ^ <` give.
const INT_PAIRS: &str = "
-7 2: -5 -9 -14 -3 -1 0 -5 -5 1
-7 -2: -9 -5 14 3 -1 -8 -1 7 1
-7 -1: -8 -6 7 7 0 -7 -1 6 1
-7 0: -7 -7 0 F1 F1 0 -7 -7 1
7 2: 9 5 14 3 1 2 7 5 0
7 -2: 5 9 -14 -3 1 6 -1 -7 0
7 -1: 6 8 -7 -7 0 7 -1 -8 0
7 0: 7 7 0 F1 F1 0 7 7 0
2147483647 2: F2 2147483645 F2 1073741823 1 2 2147483647 2147483645 0
2147483647 -2: 2147483645 F2 F2 -1073741823 1 2147483646 -1 -2147483647 0
2147483647 -1: 2147483646 F2 -2147483647 -2147483647 0 2147483647 -1 -2147483648 0
2147483647 0: 2147483647 2147483647 0 F1 F1 0 2147483647 2147483647 0
-2147483648 2: -2147483646 F2 F2 -1073741824 0 0 -2147483646 -2147483646 1
-2147483648 -2: F2 -2147483646 F2 1073741824 0 -2147483648 -2 2147483646 1
-2147483648 -1: F2 -2147483647 F2 F2 F2 -2147483648 -1 2147483647 1
-2147483648 0: -2147483648 -2147483648 0 F1 F1 0 -2147483648 -2147483648 1";

const UINT_PAIRS: &str = "
1 0: 1 1 0 F1 F1 0 1 1 0
1 2: 3 4294967295 2 0 1 0 3 3 1
1 2147483648: 2147483649 2147483649 2147483648 0 1 0 2147483649 2147483649 1
1 4294967295: 0 2 4294967295 0 1 1 4294967295 4294967294 1
2147483648 0: 2147483648 2147483648 0 F1 F1 0 2147483648 2147483648 0
2147483648 2: 2147483650 2147483646 0 1073741824 0 0 2147483650 2147483650 0
2147483648 2147483648: 0 0 0 1 0 2147483648 2147483648 0 0
2147483648 4294967295: 2147483647 2147483649 2147483648 0 2147483648 2147483648 4294967295 2147483647 1
4294967295 0: 4294967295 4294967295 0 F1 F1 0 4294967295 4294967295 0
4294967295 2: 1 4294967293 4294967294 2147483647 1 2 4294967295 4294967293 0
4294967295 2147483648: 2147483647 2147483647 2147483648 1 2147483647 2147483648 4294967295 2147483647 0
4294967295 4294967295: 4294967294 0 1 1 0 4294967295 4294967295 0 0";

// `a: ` and what unary `-`, `~`, `(int)` and `(uint)` give; of a `uint` also `<<` and `>>` by 0, 1 and 31.
const INTS: &str = "
0: 0 -1 0 0
1: -1 -2 1 1
-1: 1 0 -1 4294967295
2147483647: -2147483647 -2147483648 2147483647 2147483647
-2147483648: F2 2147483647 -2147483648 2147483648";

const UINTS: &str = "
0: 0 4294967295 0 0 0 0 0 0 0 0
1: 4294967295 4294967294 1 1 1 2 2147483648 1 0 0
2147483647: 2147483649 2147483648 2147483647 2147483647 2147483647 4294967294 2147483648 2147483647 1073741823 0
2147483648: 2147483648 2147483647 F2 2147483648 2147483648 0 0 2147483648 1073741824 1
4294967295: 1 0 F2 4294967295 4294967295 4294967294 2147483648 4294967295 2147483647 1";

// `a b: ` and what `<<` and `>>` by a word give.
const INT_SHIFTS: &str = "
-7 0: -7 -7
-7 1: -14 -4
-7 31: -2147483648 -1
-7 37: -224 -1
-7 -1: -2147483648 -1
7 0: 7 7
7 1: 14 3
7 31: -2147483648 0
7 37: 224 0
7 -1: -2147483648 0
2147483647 0: 2147483647 2147483647
2147483647 1: -2 1073741823
2147483647 31: -2147483648 0
2147483647 37: -32 67108863
2147483647 -1: -2147483648 0
-2147483648 0: -2147483648 -2147483648
-2147483648 1: 0 -1073741824
-2147483648 31: 0 -1
-2147483648 37: 0 -67108864
-2147483648 -1: 0 -1";

const UINT_SHIFTS: &str = "
1 0: 1 1
1 1: 2 0
1 31: 2147483648 0
1 37: 32 0
1 -1: 2147483648 0
2147483648 0: 2147483648 2147483648
2147483648 1: 0 1073741824
2147483648 31: 0 1
2147483648 37: 0 67108864
2147483648 -1: 0 1
4294967295 0: 4294967295 4294967295
4294967295 1: 4294967294 2147483647
4294967295 31: 2147483648 1
4294967295 37: 4294967264 134217727
4294967295 -1: 2147483648 1";

fn tell(text: &mut String, answers: &[Result<Word, Fault>]) -> Result<(), Fail> {
    for answer in answers {
        match answer {
            Ok(word) => write!(text, " {}", word.value())?,
            Err(fault) => write!(text, " F{}", fault.number())?,
        }
    }
    Ok(())
}

fn of_pair(a: Word, b: Word) -> [Result<Word, Fault>; 9]
    requires { kind_of a ≡ kind_of b }
{
    [
        add(a, b),
        sub(a, b),
        mul(a, b),
        div(a, b),
        rem(a, b),
        bit_and(a, b),
        bit_or(a, b),
        bit_xor(a, b),
        less(a, b),
    ]
}

fn of_one(w: Word) -> [Result<Word, Fault>; 4] {
    [
        neg(w),
        not(w),
        convert(w, Kind::Int),
        convert(w, Kind::Uint),
    ]
}

fn tell_int_pairs(text: &mut String) -> Result<(), Fail> {
    for a in [-7, 7, i32::MAX, i32::MIN] {
        for b in [2, -2, -1, 0] {
            write!(text, "\n{a} {b}:")?;
            tell(text, &of_pair(Word::Int(a), Word::Int(b)))?;
        }
    }
    Ok(())
}

fn tell_uint_pairs(text: &mut String) -> Result<(), Fail> {
    for a in [1, 2147483648, u32::MAX] {
        for b in [0, 2, 2147483648, u32::MAX] {
            write!(text, "\n{a} {b}:")?;
            tell(text, &of_pair(Word::Uint(a), Word::Uint(b)))?;
        }
    }
    Ok(())
}

fn tell_ints(text: &mut String) -> Result<(), Fail> {
    for a in [0, 1, -1, i32::MAX, i32::MIN] {
        write!(text, "\n{a}:")?;
        tell(text, &of_one(Word::Int(a)))?;
    }
    Ok(())
}

fn tell_uints(text: &mut String) -> Result<(), Fail> {
    for a in [0, 1, 2147483647, 2147483648, u32::MAX] {
        let w = Word::Uint(a);
        write!(text, "\n{a}:")?;
        tell(text, &of_one(w))?;
        tell(text, &[shl(w, 0), shl(w, 1), shl(w, 31)])?;
        tell(text, &[shr(w, 0), shr(w, 1), shr(w, 31)])?;
    }
    Ok(())
}

fn tell_shift(text: &mut String, a: Word, b: i32) -> Result<(), Fail> {
    let count = count_of(Word::Int(b));
    write!(text, "\n{} {b}:", a.value())?;
    tell(text, &[Ok(shift_left(a, count)), Ok(shift_right(a, count))])
}

fn tell_int_shifts(text: &mut String) -> Result<(), Fail> {
    for a in [-7, 7, i32::MAX, i32::MIN] {
        for b in [0, 1, 31, 37, -1] {
            tell_shift(text, Word::Int(a), b)?;
        }
    }
    Ok(())
}

fn tell_uint_shifts(text: &mut String) -> Result<(), Fail> {
    for a in [1, 2147483648, u32::MAX] {
        for b in [0, 1, 31, 37, -1] {
            tell_shift(text, Word::Uint(a), b)?;
        }
    }
    Ok(())
}

#[test]
fn pairs(rt: HostRuntime) -> Result<(), Fail> {
    let mut text = String::new(rt.alloc());
    tell_int_pairs(&mut text)?;
    assert_eq!(rt; text.as_str(), INT_PAIRS);
    text.clear();
    tell_uint_pairs(&mut text)?;
    assert_eq!(rt; text.as_str(), UINT_PAIRS);
    Ok(())
}

#[test]
fn singles(rt: HostRuntime) -> Result<(), Fail> {
    let mut text = String::new(rt.alloc());
    tell_ints(&mut text)?;
    assert_eq!(rt; text.as_str(), INTS);
    text.clear();
    tell_uints(&mut text)?;
    assert_eq!(rt; text.as_str(), UINTS);
    Ok(())
}

#[test]
fn shifts(rt: HostRuntime) -> Result<(), Fail> {
    let mut text = String::new(rt.alloc());
    tell_int_shifts(&mut text)?;
    assert_eq!(rt; text.as_str(), INT_SHIFTS);
    text.clear();
    tell_uint_shifts(&mut text)?;
    assert_eq!(rt; text.as_str(), UINT_SHIFTS);
    Ok(())
}

#[test]
fn examples(rt: HostRuntime) {
    assert_eq!(rt; div(Word::Int(-7), Word::Int(2)), Ok(Word::Int(-3)));
    assert_eq!(rt; rem(Word::Int(-7), Word::Int(2)), Ok(Word::Int(-1)));
    assert_eq!(rt;
        sub(Word::Uint(0), Word::Uint(1)),
        Ok(Word::Uint(4294967295))
    );
    assert_eq!(rt;
        convert(Word::Uint(2147483648), Kind::Int),
        Err(Fault::Overflow)
    );
    assert_eq!(rt; Word::Uint(1).kind(), Kind::Uint);
    Open.at(1, Moment::Ended);
}
