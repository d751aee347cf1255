//! Where loops that never turn part the paths of a kernel.

use crate::hints::{Known, order_of};
use crate::paths::{ALLOWED, count_paths};
use crate::source::behind;
use core_code::tree::Site;
use kernel_names::site_at;
use kernel_reading::{Source, read_source};
use launch_text::read_conditions_as;
use places::{Point, points_of};
use std::alloc::{AllocError, Global};
use typed_kernels::Typed;

/// A loop that never turns.
const LOOP: &[u8] = b"while (0 > 1) { } ";

/// The number of want of memory.
const MEMORY: u8 = 90;

/// The most loops that are put into a kernel.
const MOST: usize = 4;

/// Statements of a kernel in front of which a loop that never turns parts the paths, the kernel's text with these loops, and whether a
/// certificate is found with them.
#[derive(Drop)]
pub struct Cuts {
    pub sites: Vec<Site>,
    pub text: Vec<u8>,
    pub is_enough: bool,
}

/// The place of a site in the order of the source.
fn order(site: &Site) -> u64 {
    order_of(*site)
}

/// The statement in front of which the paths from a point, or from the kernel's beginning, are parted, where they are too many.
fn cut_of(
    alloc: Global,
    kernel: &[u8],
    typed: &Typed,
    known: &Known<'_>,
    point: Option<&Point<'_>>,
    is_wide: bool,
) -> Result<Option<Site>, AllocError> {
    let count = count_paths(alloc, kernel, typed, known, point, is_wide)?;
    match count.cut {
        Some(cut) if count.total > ALLOWED => { Ok(Some(site_at(typed.names(), Some(cut.number)))) }
        _ => Ok(None),
    }
}

/// The first statement in front of which paths are parted, of a kernel as it is read.
fn first_cut(
    alloc: Global,
    kernel: &[u8],
    typed: &Typed,
    conditions: &[u8],
    is_wide: bool,
) -> Result<Option<Site>, AllocError> {
    let Ok(conditions) = read_conditions_as(alloc, typed, conditions, true) else {
        return Err(AllocError);
    };
    let known = Known::of(alloc, typed, &conditions)?;
    if let Some(site) = cut_of(alloc, kernel, typed, &known, None, is_wide)? {
        return Ok(Some(site));
    }
    let points = points_of(alloc, typed.core().body.as_slice())?;
    for point in points.iter() {
        if let Some(site) = cut_of(alloc, kernel, typed, &known, Some(point), is_wide)? {
            return Ok(Some(site));
        }
    }
    Ok(None)
}

/// A place in the text with loops as one in the text without them; the places of the loops rise.
fn without_loops(sites: &[Site], site: Site) -> Site {
    let mut column = site.column;
    for cut in sites {
        if cut.line == site.line && cut.column < column {
            column = column.saturating_sub(LOOP.len() as u32);
        }
    }
    Site {
        line: site.line,
        column,
    }
}

/// A kernel's text with loops in front of these places.
fn with_loops(alloc: Global, kernel: &[u8], sites: &[Site]) -> Result<Vec<u8>, AllocError> {
    let mut text = Vec::new(alloc);
    let mut place = Site { line: 1, column: 1 };
    for byte in kernel {
        if sites.contains(&place) {
            text.extend_from_slice(LOOP)?;
        }
        text.push(*byte)?;
        place = behind(place, *byte);
    }
    Ok(text)
}

/// Places for loops that never turn, at most four, one after another, which part the paths of a kernel that has too
/// many by the text; none where no loop does.
pub fn part_paths(
    alloc: Global,
    source: Source<'_>,
    conditions: &[u8],
    is_wide: bool,
) -> Result<Option<Cuts>, AllocError> {
    let mut sites: Vec<Site> = Vec::new(alloc);
    let mut text = Vec::from_slice(alloc, source.bytes)?;
    for _cut in 0..MOST {
        let now = Source {
            reading: source.reading,
            conditions: source.conditions,
            bytes: text.as_slice(),
        };
        let typed = match read_source(alloc, now) {
            Ok(typed) => typed,
            Err(error) => {
                if error.number() == MEMORY {
                    return Err(AllocError);
                }
                return Ok(None);
            }
        };
        let Some(site) = first_cut(alloc, text.as_slice(), &typed, conditions, is_wide)? else {
            break;
        };
        sites.push(without_loops(sites.as_slice(), site))?;
        sites.sort_by_key(order)?;
        text = with_loops(alloc, source.bytes, sites.as_slice())?;
    }
    if sites.is_empty() {
        return Ok(None);
    }
    Ok(Some(Cuts {
        sites,
        text,
        is_enough: false,
    }))
}
