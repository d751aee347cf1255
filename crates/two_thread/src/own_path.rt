//! Paths whose accesses and ends have no symbols of the second item, one by one.

ghost use Rattle.std.specs.Prelude.{◌≡◌, [], ◌∷◌, true, IfOk};
ghost use Rattle.obligations.specs.Owning.{all_own_accesses, all_own_ends};
ghost use Rattle.two_thread.specs.Paths.{
  accesses_seen,
  ends_seen,
  all_accesses,
  all_ends,
  accesses_of,
  ends_of,
};

use crate::walked::{Tagged, Walked, spread};
use std::alloc::{AllocError, Global};

/// A path with its place, whose accesses and ends have no symbols of the second item.
#[derive(Drop)]
pub struct OwnPath<D> {
    tagged: Tagged<D>,
    ghost accesses: { all_own_accesses (accesses_seen tagged) ≡ true },
    ghost ends: { all_own_ends (ends_seen tagged) ≡ true },
}

/// The paths one by one.
pub fn parted<D: Copy>(alloc: Global, paths: Vec<Tagged<D>>) -> Result<Vec<OwnPath<D>>, AllocError>
    requires accesses { all_own_accesses (all_accesses paths.items) ≡ true }
    requires ends { all_own_ends (all_ends paths.items) ≡ true }
{
    let mut left = paths;
    let mut found = Vec::new(alloc);
    while let Some(tagged) = left.pop() {
        found.push(OwnPath { tagged })?;
    }
    found.reverse();
    Ok(found)
}

/// Collects the paths of one item in a list, in their order. The error is want of memory.
pub fn together<D: Copy>(
    alloc: Global,
    paths: Vec<OwnPath<D>>,
) -> Result<Vec<Tagged<D>>, AllocError>
    ensures accesses { IfOk result (λ v. all_own_accesses (all_accesses v.items) ≡ true) }
    ensures ends { IfOk result (λ v. all_own_ends (all_ends v.items) ≡ true) }
{
    let mut found = Vec::new(alloc);
    for path in paths {
        let OwnPath { tagged } = path;
        found.push(tagged)?;
    }
    Ok(found)
}

/// The paths of one place, one by one.
pub fn own_paths<D: Copy>(alloc: Global, walked: Walked<D>) -> Result<Vec<OwnPath<D>>, AllocError>
    requires accesses { all_own_accesses (accesses_of (walked ∷ [])) ≡ true }
    requires ends { all_own_ends (ends_of (walked ∷ [])) ≡ true }
{
    let mut one = Vec::new(alloc);
    one.push(walked)?;
    let paths = spread(alloc, one)?;
    parted(alloc, paths)
}
