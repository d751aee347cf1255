//! Rankings as what a certificate says of loops.

use crate::declared_names::Names;
use crate::said::may_stand;
use certificate::tree::{self, Descent};
use guesses::Ranking;
use std::alloc::{AllocError, Global};

/// The format has the descent: a step is 1 at least, and of `i64`, and so is what doubles where it opens.
fn is_written(descent: Descent) -> bool {
    match descent {
        Descent::Halve => true,
        Descent::Down(step) => 1 <= step && step <= i64::MAX as u64,
        Descent::Double(least) => 1 <= least && least <= i64::MAX as u64,
    }
}

/// A loop's line: how it ends, its form at most that number where it opens, or, where it doubles, at its true tests. None where it has no
/// name.
pub fn bound_of(
    alloc: Global,
    names: &Names<'_>,
    ranking: &Ranking,
    most: i64,
) -> Result<Option<tree::Bound>, AllocError> {
    if !is_written(ranking.descent) || !may_stand(&ranking.form, false) {
        return Ok(None);
    }
    let Some(form) = names.form(alloc, &ranking.form)? else {
        return Ok(None);
    };
    Ok(Some(tree::Bound {
        number: ranking.number as u64,
        descent: ranking.descent,
        most,
        form,
    }))
}
