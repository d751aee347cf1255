//! Whether the wide walk joins ways: where forks are too many, or many and far fewer with ways that are joined.

use crate::hoping::unlimited;
use crate::ranked::chosen;
use guess_walk::{Limits, Names, Subject, certificate_of, walk};
use guesses::Ranking;
use std::alloc::{AllocError, Global};
use std::thread::Threads;
use text_guesses::guess_rankings;
use walk::FindError;

/// With so many paths, from all places together, ways are joined only where there is no certificate without.
const FEW: usize = 128;

/// Where there are more, ways are joined where that leaves one path of so many.
const TIMES: usize = 4;

/// The order of wide walks: with forks, and with ways that are joined where forks are too many; with ways that are
/// joined alone; or by these first, and by forks where that fails.
#[derive(Clone, Copy, PartialEq, Eq)]
pub enum Order {
    Forked,
    Joined,
    JoinedFirst,
}

/// The number of paths of one walk without guesses that takes all as shown that may be taken so; none where it comes to no end, or has no
/// text.
fn paths_of<R: Threads + Sync>(
    rt: &R,
    alloc: Global,
    workers: u32,
    subject: &Subject<'_>,
    names: &Names<'_>,
    rankings: &[Ranking],
) -> Result<Option<usize>, AllocError> {
    let most = unlimited(alloc, rankings)?;
    let limits = Limits {
        rankings,
        most: most.as_slice(),
    };
    let entries = Vec::new(alloc);
    let Some(certificate) = certificate_of(alloc, subject, names, &[], limits, entries)? else {
        return Ok(None);
    };
    let flags = vec![in alloc; true; 65_537]?;
    match walk(rt, alloc, workers, subject, &certificate, flags.as_slice()) {
        Ok(Some(walked)) => Ok(Some(walked.found.paths().len())),
        Ok(None) | Err(_) => Ok(None),
    }
}

/// The order of wide walks, by the numbers of paths without ways that are joined, and with them.
fn order_by(forked: Option<usize>, joined: Option<usize>) -> Order {
    match (forked, joined) {
        (_, None) => Order::Forked,
        (None, Some(_)) => Order::Joined,
        (Some(forked), Some(joined)) => {
            if joined.saturating_mul(TIMES) <= forked {
                Order::JoinedFirst
            } else {
                Order::Forked
            }
        }
    }
}

/// The order of wide walks for a kernel. An error is want of memory.
pub fn order_of<R: Threads + Sync>(
    rt: &R,
    alloc: Global,
    workers: u32,
    subject: &Subject<'_>,
    names: &Names<'_>,
) -> Result<Order, FindError> {
    let options = guess_rankings(alloc, subject.typed.core(), subject.is_wide, &[])?;
    let rankings = chosen(alloc, options.as_slice(), &[])?;
    let forked = paths_of(rt, alloc, workers, subject, names, rankings.as_slice())?;
    if forked.is_some_and(|count| count <= FEW) {
        return Ok(Order::Forked);
    }
    let joining = subject.joining();
    let joined = paths_of(rt, alloc, workers, &joining, names, rankings.as_slice())?;
    Ok(order_by(forked, joined))
}
