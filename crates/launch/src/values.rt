//! The values of sums and of words.

ghost use Rattle.std.specs.Prelude.{◌≡◌};
ghost use Rattle.semantics.specs.Conditions as meaning;
ghost use Rattle.words.specs.View.{value_of};
ghost use Rattle.launch.specs.Differences.{difference};
ghost use Rattle.launch.specs.View.{launch as launch_of, sum as sum_seen};

use crate::conditions::Sum;
use crate::launches::Launch;
use crate::number::of_word;
use crate::sums::{Difference, value};
use words::Word;

/// The value of a sum.
pub fn sum_of(launch: &Launch, sum: &Sum) -> Difference
    ensures { difference result ≡ meaning.sum_value (launch_of launch.now) (sum_seen sum.now) }
{
    let mut plus = 0u128;
    let mut minus = 0u128;
    for summand in &sum.terms {
        let part = value(launch, *summand);
        if part.negative {
            minus += part.size;
        } else {
            plus += part.size;
        }
    }
    Difference { plus, minus }
}

/// The number of a word, as a difference.
pub fn of_number(word: Word) -> Difference
    ensures { difference result ≡ value_of word }
{
    let number = of_word(word);
    let size = number.size as u128;
    if number.negative {
        return Difference {
            plus: 0,
            minus: size,
        };
    }
    Difference {
        plus: size,
        minus: 0,
    }
}
