//! Tests of `cut_proof`: a derivation that divides refutes two facts, and the same one with a negative weight does not.

use cut_proof::{Derivation, Line, refutes};
use linear::{Form, LinearError, Symbol};
use std::alloc::{AllocError, Global};
use std::test::Fail;

fn fact(alloc: Global, coefficient: i64, constant: i64) -> Result<Form, LinearError> {
    let x = Form::symbol(alloc, Symbol { number: 0 })?;
    let scaled = x.times(alloc, coefficient)?;
    scaled.add(alloc, &Form::constant(alloc, constant))
}

fn derivation(alloc: Global, last: &[(i64, u32)]) -> Result<Derivation, AllocError> {
    let mut lines = Vec::new(alloc);
    lines.push(Line::Given(1))?;
    lines.push(Line::Given(2))?;
    lines.push(Line::Div(2, 1))?;
    let parts = Vec::from_slice(alloc, last)?;
    lines.push(Line::Sum(parts))?;
    let lemmas = Vec::new(alloc);
    Ok(Derivation { lemmas, lines })
}

// `2*x - 1 >= 0` and `1 - 2*x >= 0`, which meet at one half.
fn facts(alloc: Global) -> Result<Vec<Form>, LinearError> {
    let mut facts = Vec::new(alloc);
    facts.push(fact(alloc, 2, -1)?)?;
    facts.push(fact(alloc, -2, 1)?)?;
    Ok(facts)
}

// Last lines behind a division of the first fact, and whether they refute: with a negative weight, with lines that fall, with a line that
// comes later and with none, they do not.
const LAST: &[(&[(i64, u32)], bool)] = &[
    (&[(1, 2), (2, 3)], true),
    (&[(-1, 1), (1, 2), (4, 3)], false),
    (&[(2, 3), (1, 2)], false),
    (&[(1, 2), (2, 4)], false),
    (&[], false),
];

fn as_told(alloc: Global, facts: &[Form]) -> Result<u32, AllocError> {
    let mut count = 0u32;
    for (last, refuting) in LAST {
        let derivation = derivation(alloc, last)?;
        if refutes(alloc, facts, &derivation)? == *refuting {
            count = count.saturating_add(1);
        }
    }
    Ok(count)
}

#[test]
fn half(rt: HostRuntime) -> Result<(), Fail> {
    let Ok(facts) = facts(rt.alloc()) else {
        return Err(Fail::new("the facts of a test were not made"));
    };
    assert_eq!(rt; as_told(rt.alloc(), &facts)?, 5);
    Ok(())
}
