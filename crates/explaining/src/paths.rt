//! Which tests multiply the paths from a place.

use crate::cutting::Cuts;
use crate::flows::{paths_from, paths_of};
use crate::forks::{Cut, Fork, Tests};
use crate::hints::Known;
use crate::paragraph::push_paragraph;
use crate::source::{push_label, push_site};
use core_code::tree::{Site, Statement};
use kernel_names::site_at;
use places::{Point, points_of};
use std::alloc::{AllocError, Global};
use typed_kernels::Typed;

/// The most tests that are told.
const MOST: usize = 10;

/// The most paths that there may be from a place.
pub const ALLOWED: u64 = 256;

/// A greater number of paths is not told.
const TOLD: u64 = 1_000_000;

/// Advice for too many paths.
const ADVICE: &str =
    "A barrier or a loop between two tests parts them: so does one that never turns, while (0 > 1) { }, at the cost of a step. A test by < \
     or > has two ways where one by ==, != or a number itself has three: write if (x > 0u) for if (x), and if (x < 1u) for if (x == 0u).";

/// The line in front of the places for loops that never turn.
const CUTS: &str = "Such a loop, while (0 > 1) { }, may stand where many paths have come together:";

/// The line behind these places where a certificate is found with such loops.
const PARTED: &str =
    "So a certificate is found, for a budget that has a step more each time that one is come to.";

/// The line behind these places where no certificate is found with such loops.
const UNPARTED: &str = "That alone is not enough: no certificate is found so, either.";

/// Advice for few paths, where the obligations are too many.
const FEW_PATHS: &str =
    "There are few paths by the text, so it is the obligations that are too many: each two accesses of one array, on any two paths from \
     places where two items may be at once, are a pair, if one of them stores. Use fewer accesses between two barriers: a load that is \
     kept in a variable, say, or a loop in place of rows of stores.";

/// The point of a site.
fn point_at<'p, 'a>(typed: &Typed, points: &'p [Point<'a>], place: Site) -> Option<&'p Point<'a>> {
    for point in points {
        if site_at(typed.names(), Some(point.statement.number())) == place {
            return Some(point);
        }
    }
    None
}

/// The place from which the paths begin, in words.
fn beginning(point: Option<&Point<'_>>) -> &'static str {
    match point {
        None => "From the kernel's beginning",
        Some(point) => match point.statement {
            Statement::Barrier { .. } => "From that barrier",
            _ => "From that loop's test",
        },
    }
}

/// The numbers of tests with more than two ways, and of tests with two.
fn counts(forks: &[Fork]) -> (usize, usize) {
    let mut wide = 0usize;
    for fork in forks {
        if fork.ways > 2 {
            wide = wide.saturating_add(1);
        }
    }
    (wide, forks.len().saturating_sub(wide))
}

/// Writes a test with its ways.
fn push_fork(
    alloc: Global,
    kernel: &[u8],
    fork: &Fork,
    line: u32,
    out: &mut String,
) -> Result<(), AllocError> {
    let ways = fork.ways;
    let note = fork.note;
    let label = format!(in alloc; "{ways} ways{note}")?;
    push_site(
        alloc,
        out,
        kernel,
        fork.site,
        fork.site.line == line,
        &label,
    )
}

/// Writes the first tests in the order of the walk; those with two ways stand back where there are too many.
fn push_forks(
    alloc: Global,
    kernel: &[u8],
    forks: &[Fork],
    out: &mut String,
) -> Result<(), AllocError> {
    let (wide, _) = counts(forks);
    let mut room = MOST;
    let mut narrow = MOST.saturating_sub(wide);
    let mut line = 0;
    for fork in forks {
        let is_told = room > 0 && (fork.ways > 2 || narrow > 0);
        if is_told {
            room = room.saturating_sub(1);
            narrow = if fork.ways > 2 {
                narrow
            } else {
                narrow.saturating_sub(1)
            };
            push_fork(alloc, kernel, fork, line, out)?;
            line = fork.site.line;
        }
    }
    let left = forks.len().saturating_sub(MOST);
    if left > 0 {
        let label = format!(in alloc; "and {left} more")?;
        push_label(out, &label)?;
    }
    Ok(())
}

/// The tests behind a place, how many paths these make by the text, and the first statement in front of which many come together.
#[derive(Drop)]
pub struct Count {
    forks: Vec<Fork>,
    pub total: u64,
    pub cut: Option<Cut>,
}

/// Writes the number of paths by the text.
fn write_total(total: u64, text: &mut String) -> Result<(), AllocError> {
    if total > TOLD {
        write!(
            text,
            "By the text these make over {TOLD} paths; {ALLOWED} are allowed. "
        )
    } else if total > ALLOWED {
        write!(
            text,
            "By the text these make {total} paths; {ALLOWED} are allowed. "
        )
    } else {
        Ok(())
    }
}

/// Writes the number of paths of the wide walk, where it has fewer.
fn write_wide(wide: Option<u64>, text: &mut String) -> Result<(), AllocError> {
    match wide {
        Some(wide) => write!(text, "With --wide there are {wide}. "),
        None => Ok(()),
    }
}

/// Writes the number of paths by the text, with advice.
fn push_total(
    alloc: Global,
    total: u64,
    wide: Option<u64>,
    out: &mut String,
) -> Result<(), AllocError> {
    let mut text = String::new(alloc);
    write_total(total, &mut text)?;
    write_wide(wide, &mut text)?;
    text.push_str(ADVICE)?;
    push_paragraph(out, "", &text)
}

/// Writes where loops that never turn part the paths, and whether a certificate is found with them.
pub fn push_cuts(
    alloc: Global,
    kernel: &[u8],
    cuts: &Cuts,
    out: &mut String,
) -> Result<(), AllocError> {
    out.push_str("\n")?;
    push_paragraph(out, "", CUTS)?;
    let mut line = 0;
    for site in cuts.sites.iter() {
        push_site(
            alloc,
            out,
            kernel,
            *site,
            site.line == line,
            "in front of this",
        )?;
        line = site.line;
    }
    push_paragraph(out, "", if cuts.is_enough { PARTED } else { UNPARTED })
}

/// The paths from a point, or from a kernel's beginning, in the wide walk or not.
pub fn count_paths(
    alloc: Global,
    kernel: &[u8],
    typed: &Typed,
    known: &Known<'_>,
    point: Option<&Point<'_>>,
    is_wide: bool,
) -> Result<Count, AllocError> {
    let mut tests = Tests::of(alloc, kernel, typed, &known.slots, is_wide)?;
    let flows = match point {
        Some(point) => paths_from(alloc, &mut tests, point)?,
        None => paths_of(alloc, &mut tests, typed.core().body.as_slice())?,
    };
    Ok(Count {
        forks: tests.forks,
        total: flows.total(),
        cut: tests.cut,
    })
}

/// Writes the tests behind a place, with how many paths these make.
fn push_count(
    alloc: Global,
    kernel: &[u8],
    point: Option<&Point<'_>>,
    count: &Count,
    wide: Option<u64>,
    out: &mut String,
) -> Result<(), AllocError> {
    if count.forks.is_empty() {
        return Ok(());
    }
    out.push_str("\n")?;
    let begin = beginning(point);
    let head = format!(in alloc;
        "{begin} to the next barrier, loop or end these tests multiply the paths:"
    )?;
    push_paragraph(out, "", &head)?;
    push_forks(alloc, kernel, count.forks.as_slice(), out)?;
    push_total(alloc, count.total, wide, out)
}

/// Writes which tests multiply the paths from a place, and what to do; where there are few paths, that the obligations are too many.
pub fn push_paths(
    alloc: Global,
    kernel: &[u8],
    typed: &Typed,
    known: &Known<'_>,
    place: Site,
    out: &mut String,
) -> Result<(), AllocError> {
    let points = points_of(alloc, typed.core().body.as_slice())?;
    let point = point_at(typed, points.as_slice(), place);
    let wide = count_paths(alloc, kernel, typed, known, point, true)?;
    if wide.total > ALLOWED {
        return push_count(alloc, kernel, point, &wide, None, out);
    }
    let narrow = count_paths(alloc, kernel, typed, known, point, false)?;
    if narrow.total > ALLOWED {
        return push_count(alloc, kernel, point, &narrow, Some(wide.total), out);
    }
    if point.is_some() && !wide.forks.is_empty() {
        return push_count(alloc, kernel, point, &wide, None, out);
    }
    out.push_str("\n")?;
    push_paragraph(out, "", FEW_PATHS)
}
