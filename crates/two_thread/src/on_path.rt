//! Claims, accesses and ends of paths, each by its path and its number on it.

ghost use Rattle.std.specs.Prelude.{◌≡◌, ◌++◌, IfOk, map};
ghost use Rattle.two_thread.specs.Places.{row, rows, claim_count, access_count, end_count};

use crate::walked::Tagged;
use std::alloc::{AllocError, Global};

/// A claim or an access: a path by its number, and which one it is on that path.
#[derive(Clone, Copy)]
pub struct OnPath {
    pub path: usize,
    pub item: usize,
}

/// Adds, for each of the so many items of one path, the path's number and the item's on it.
fn push_row(found: &mut Vec<OnPath>, path: usize, count: usize) -> Result<(), AllocError>
    ensures { IfOk result (λ _. found.new.items ≡ found.old.items ++ row path 0 count) }
{
    for item in 0..count {
        found.push(OnPath { path, item })?;
    }
    Ok(())
}

/// The path and the number on it of each claim, path by path.
pub fn claim_places<D: Copy>(alloc: Global, paths: &[Tagged<D>]) -> Result<Vec<OnPath>, AllocError>
    ensures { IfOk result (λ v. v.items ≡ rows 0 (map claim_count paths.now)) }
{
    let mut found = Vec::new(alloc);
    for i in 0..paths.len() {
        let count = paths[i].path.claims.len();
        push_row(&mut found, i, count)?;
    }
    Ok(found)
}

/// The path and the number on it of each access, path by path.
pub fn access_places<D: Copy>(alloc: Global, paths: &[Tagged<D>]) -> Result<Vec<OnPath>, AllocError>
    ensures { IfOk result (λ v. v.items ≡ rows 0 (map access_count paths.now)) }
{
    let mut found = Vec::new(alloc);
    for i in 0..paths.len() {
        let count = paths[i].path.accesses.len();
        push_row(&mut found, i, count)?;
    }
    Ok(found)
}

/// The path and the number on it of each end, path by path.
pub fn end_places<D: Copy>(alloc: Global, paths: &[Tagged<D>]) -> Result<Vec<OnPath>, AllocError>
    ensures { IfOk result (λ v. v.items ≡ rows 0 (map end_count paths.now)) }
{
    let mut found = Vec::new(alloc);
    for i in 0..paths.len() {
        let count = paths[i].path.ends.len();
        push_row(&mut found, i, count)?;
    }
    Ok(found)
}
