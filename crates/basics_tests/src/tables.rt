//! Tables that tests settle: of each candidate its obligations, of each obligation its sets.

use std::alloc::Global;
use std::test::Fail;
use supports::{Set, Supports};

pub type Table = &'static [&'static [&'static [&'static [u32]]]];

/// 0 supports itself, 1 rests on 0 and 2 or on 3, 2 has no support, 3 rests on 1: 0, 1 and 3 stand.
pub const THREE_STAND: Table = &[&[&[&[0]]], &[&[&[0, 2], &[3]]], &[&[]], &[&[&[1]]]];

/// 0 supports itself, 1 rests on 0 and 2 or on 3, 2 has no support, 3 rests on 1 and 2: 0 stands.
pub const ONE_STANDS: Table = &[&[&[&[0]]], &[&[&[0, 2], &[3]]], &[&[]], &[&[&[1, 2]]]];

/// 1 and 2 have no support, 3 rests on 1: 0 stands.
pub const TWO_FALL: Table = &[&[&[&[0]]], &[&[]], &[&[]], &[&[&[1]]]];

/// Each rests on the next, the last on nothing: none stands, and a lone worker that goes upwards tells 49 moments.
pub const CHAIN: Table = &[
    &[&[&[1]]],
    &[&[&[2]]],
    &[&[&[3]]],
    &[&[&[4]]],
    &[&[&[5]]],
    &[&[&[6]]],
    &[&[&[7]]],
    &[&[&[8]]],
    &[&[&[9]]],
    &[&[&[10]]],
    &[&[&[11]]],
    &[&[]],
];

/// What the search asks for a scan of 48 words by doubling distances, over two halves of a local array by turns, in its second round, each
/// obligation once: the candidates of `SCAN_LEFT` stand.
pub const SCAN: Table = &[
    &[],
    &[],
    &[],
    &[],
    &[],
    &[],
    &[&[&[6]]],
    &[&[&[6]]],
    &[&[&[3]], &[&[8]]],
    &[&[&[9]]],
    &[&[&[3]], &[&[8]]],
    &[],
    &[],
    &[&[&[]]],
    &[],
    &[],
    &[&[&[0]], &[&[16]]],
    &[&[&[1]], &[&[17]]],
    &[&[]],
    &[&[&[18]]],
    &[],
    &[],
    &[],
    &[&[&[21]], &[&[23]]],
    &[&[&[22]], &[&[24]]],
    &[&[&[2]], &[&[25]]],
    &[&[&[2]], &[&[25]]],
    &[&[]],
    &[&[]],
    &[&[]],
    &[&[]],
    &[&[&[2]], &[&[25]]],
    &[&[&[2]], &[&[25]]],
    &[&[]],
    &[&[]],
    &[&[]],
    &[&[]],
];

/// All of the 37 but 18, which nothing shows, 19, which rests on it, 27 to 30 and 33 to 36.
pub const SCAN_LEFT: u64 = 0x1_87f3_ffff;

fn sets(alloc: Global, sets: &[&[u32]]) -> Result<Vec<Vec<u32>>, Fail> {
    let mut made = Vec::new(alloc);
    for set in sets {
        made.push(Vec::from_slice(alloc, set)?)?;
    }
    Ok(made)
}

fn obligations(alloc: Global, obligations: &[&[&[u32]]]) -> Result<Vec<Vec<Vec<u32>>>, Fail> {
    let mut made = Vec::new(alloc);
    for obligation in obligations {
        made.push(sets(alloc, obligation)?)?;
    }
    Ok(made)
}

pub fn supports(alloc: Global, table: Table) -> Result<Supports, Fail> {
    let mut made = Vec::new(alloc);
    for candidate in table {
        made.push(obligations(alloc, candidate)?)?;
    }
    let count = made.len();
    if count > 512 {
        return Err(Fail::new("a test's table has too many candidates"));
    }
    Ok(Supports::of(alloc, count as u32, made)?)
}

/// Which of the first five candidates are members.
pub fn members(set: &Set) -> [bool; 5] {
    [
        set.contains(0),
        set.contains(1),
        set.contains(2),
        set.contains(3),
        set.contains(4),
    ]
}
