//! Tests of `loop_bounds`: how often a loop turns at most, for steps, halvings and doublings at their edges.

use linear::Form;
use loop_bounds::{Bound, Least, Step, turns};
use std::alloc::Global;
use std::test::Fail;

fn down(alloc: Global, step: u64, most: i64) -> u64 {
    let Some(step) = Step::new(step) else {
        return u64::MAX;
    };
    let form = Form::constant(alloc, 0);
    turns(&Bound::Down { form, step, most })
}

fn halving(alloc: Global, most: i64) -> u64 {
    let form = Form::constant(alloc, 0);
    turns(&Bound::Halving { form, most })
}

fn doubling(alloc: Global, least: i64, most: i64) -> u64 {
    let Some(least) = Least::new(least) else {
        return u64::MAX;
    };
    let form = Form::constant(alloc, 0);
    turns(&Bound::Doubling { form, least, most })
}

#[test]
fn counts_turns(rt: HostRuntime) -> Result<(), Fail> {
    let alloc = rt.alloc();
    let downs = [
        down(alloc, 3, 10),
        down(alloc, 3, 9),
        down(alloc, 3, 0),
        down(alloc, 3, -5),
        down(alloc, 1, i64::MAX),
        down(alloc, 0, 1),
    ];
    let halvings = [
        halving(alloc, 0),
        halving(alloc, -1),
        halving(alloc, 1),
        halving(alloc, 255),
        halving(alloc, 256),
        halving(alloc, i64::MAX),
    ];
    let wanted = [4, 3, 0, 0, 9_223_372_036_854_775_807, u64::MAX];
    assert_eq!(rt; (downs, halvings), (wanted, [0, 0, 1, 8, 9, 63]));
    Ok(())
}

#[test]
fn counts_doublings(rt: HostRuntime) -> Result<(), Fail> {
    let alloc = rt.alloc();
    let doublings = [
        doubling(alloc, 1, 0),
        doubling(alloc, 1, -1),
        doubling(alloc, 1, 1),
        doubling(alloc, 3, 11),
        doubling(alloc, 3, 12),
        doubling(alloc, 4, 3),
        doubling(alloc, 1, i64::MAX),
        doubling(alloc, 0, 1),
    ];
    assert_eq!(rt; doublings, [0, 0, 1, 2, 3, 0, 63, u64::MAX]);
    Ok(())
}
