//! Tests of shifts by a word, of `int` and of `uint`: counts 0 to 37 and below 0, against the answers of a C compiler.

ghost use Rattle.std.specs.Prelude.{◌≡◌, true};
ghost use Rattle.words.specs.View.{kind};
ghost use Rattle.work_item.specs.Proper.{is_shift_kind};

use core_code::tree::Direction;
use std::fmt::Write;
use std::test::Fail;
use words::{Kind, Word};
use work_item::shifts::shifted;

const COUNTS: &[i32] = &[0, 1, 31, 37, -1];

// `a b: ` and what `a << b` and `a >> b` give.
const INTS: &str = "
-7 0: -7 -7
-7 1: -14 -4
-7 31: -2147483648 -1
-7 37: -224 -1
-7 -1: -2147483648 -1
7 0: 7 7
7 1: 14 3
7 31: -2147483648 0
7 37: 224 0
7 -1: -2147483648 0
2147483647 0: 2147483647 2147483647
2147483647 1: -2 1073741823
2147483647 31: -2147483648 0
2147483647 37: -32 67108863
2147483647 -1: -2147483648 0
-2147483648 0: -2147483648 -2147483648
-2147483648 1: 0 -1073741824
-2147483648 31: 0 -1
-2147483648 37: 0 -67108864
-2147483648 -1: 0 -1";

const UINTS: &str = "
1 0: 1 1
1 1: 2 0
1 31: 2147483648 0
1 37: 32 0
1 -1: 2147483648 0
2147483648 0: 2147483648 2147483648
2147483648 1: 0 1073741824
2147483648 31: 0 1
2147483648 37: 0 67108864
2147483648 -1: 0 1
4294967295 0: 4294967295 4294967295
4294967295 1: 4294967294 2147483647
4294967295 31: 2147483648 1
4294967295 37: 4294967264 134217727
4294967295 -1: 2147483648 1";

fn tell(text: &mut String, to: Kind, value: Word) -> Result<(), Fail>
    requires { is_shift_kind (kind to) ≡ true }
{
    for count in COUNTS {
        let left = shifted(Direction::Leftward, to, value, Word::Int(*count)).value();
        let right = shifted(Direction::Rightward, to, value, Word::Int(*count)).value();
        write!(text, "\n{} {count}: {left} {right}", value.value())?;
    }
    Ok(())
}

#[test]
fn shifts_of_ints(rt: HostRuntime) -> Result<(), Fail> {
    let mut text = String::new(rt.alloc());
    for value in [-7, 7, i32::MAX, i32::MIN] {
        tell(&mut text, Kind::Int, Word::Int(value))?;
    }
    assert_eq!(rt; text.as_str(), INTS);
    Ok(())
}

#[test]
fn shifts_of_uints(rt: HostRuntime) -> Result<(), Fail> {
    let mut text = String::new(rt.alloc());
    for value in [1, 2147483648, u32::MAX] {
        tell(&mut text, Kind::Uint, Word::Uint(value))?;
    }
    assert_eq!(rt; text.as_str(), UINTS);
    Ok(())
}
