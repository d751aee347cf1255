//! Paths with their places.

ghost use Rattle.std.specs.Prelude.{◌≡◌, ◌++◌, IfOk, Option, Bool, map};
ghost use Rattle.obligations.specs.Listing.{is_some};
ghost use Rattle.two_thread.specs.Spread.{tag, spread as spread_seen};

use path_steps::Path;
use std::alloc::{AllocError, Global};

/// All paths from one place.
#[derive(Drop)]
pub struct Walked<D> {
    pub anchor: Option<u32>,
    pub head: Option<u32>,
    pub paths: Vec<Path<D>>,
}

/// A path with its place's anchor, and whether the place is a loop's head.
#[derive(Drop)]
pub struct Tagged<D> {
    pub anchor: Option<u32>,
    pub is_head: bool,
    pub path: Path<D>,
}

/// Adds the paths of one place, each with the place's anchor.
fn push_tagged<D: Copy>(
    found: &mut Vec<Tagged<D>>,
    anchor: Option<u32>,
    is_head: bool,
    paths: Vec<Path<D>>,
) -> Result<(), AllocError>
    ensures { IfOk result (λ _. found.new.items ≡ found.old.items ++ map (tag anchor is_head) paths.items) }
{
    for path in paths {
        found.push(Tagged {
            anchor,
            is_head,
            path,
        })?;
    }
    Ok(())
}

/// The paths of all places in order, each with its place's anchor.
pub fn spread<D: Copy>(alloc: Global, walked: Vec<Walked<D>>) -> Result<Vec<Tagged<D>>, AllocError>
    ensures { IfOk result (λ v. v.items ≡ spread_seen walked.items) }
{
    let mut found = Vec::new(alloc);
    for place in walked {
        let Walked {
            anchor,
            head,
            paths,
        } = place;
        push_tagged(&mut found, anchor, head.is_some(), paths)?;
    }
    Ok(found)
}
