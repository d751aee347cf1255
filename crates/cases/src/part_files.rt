// A part of the program over files in memory.

use case_parts::{Asked, Part, push_part};
use program::files::{FileFault, Files};
use program::held::Held;
use std::alloc::{AllocError, Global};
use std::sync::Wait;
use std::thread::Threads;

/// The bytes of the n-th file; nothing where there is none, or where it cannot be read.
fn bytes_of(
    alloc: Global,
    names: &[String],
    n: usize,
    held: &mut Held,
) -> Result<Vec<u8>, AllocError> {
    let Some(name) = names.get(n) else {
        return Ok(Vec::new(alloc));
    };
    match held.read(name.as_str(), 20_000_000) {
        Ok(bytes) => Ok(bytes),
        Err(FileFault::Memory) => Err(AllocError),
        Err(FileFault::Failed) => Ok(Vec::new(alloc)),
    }
}

/// The number that the second word is, if it is one.
fn number_of(names: &[String]) -> Option<u32> {
    names.get(1)?.as_str().parse::<u32>().ok()
}

/// Writes the answer of a part to the files of these names.
pub fn push_part_of_files<R: Threads + Wait + Sync>(
    rt: &R,
    alloc: Global,
    out: &mut String,
    part: Part,
    names: &[String],
    held: &mut Held,
) -> Result<(), AllocError> {
    let first = bytes_of(alloc, names, 0, held)?;
    let second = bytes_of(alloc, names, 1, held)?;
    let third = bytes_of(alloc, names, 2, held)?;
    let fourth = bytes_of(alloc, names, 3, held)?;
    let asked = Asked {
        part,
        first: &first,
        second: &second,
        third: &third,
        fourth: &fourth,
        number: number_of(names),
    };
    push_part(rt, alloc, out, asked)
}
