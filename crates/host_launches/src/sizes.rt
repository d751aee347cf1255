//! The group counts of a launch.

ghost use Rattle.std.specs.Prelude.{◌≡◌, slice_index};
ghost use Rattle.host_launches.specs.Sizes as rules;

use crate::given::{Range, Refusal};
use launch::launches::Counts;

/// What a host says of a dimension.
#[derive(Clone, Copy)]
pub struct Along {
    pub offset: u64,
    pub global: u64,
    pub local: u64,
}

/// A dimension that is not read has one work-item.
fn size_along(is_read: bool, offset: u64, global: u64, local: u64) -> Along
    ensures { result ≡ rules.size_along is_read offset global local }
{
    if is_read {
        Along {
            offset,
            global,
            local,
        }
    } else {
        Along {
            offset: 0,
            global: 1,
            local: 1,
        }
    }
}

fn are_whole(size: u64, of: Along) -> bool
    ensures { result ≡ rules.are_whole size of }
{
    0 < size && of.local == size && of.global % size == 0
}

fn is_count(groups: u64) -> bool
    ensures { result ≡ rules.is_count groups }
{
    1 <= groups && groups <= 65_536
}

/// How many groups of a size a dimension has: 1 to 65,536 whole ones.
fn whole_groups(size: u64, of: Along) -> Option<u32>
    ensures { result ≡ rules.whole_groups size of }
{
    if !are_whole(size, of) {
        return None;
    }
    let groups = of.global / size;
    if is_count(groups) {
        Some(groups as u32)
    } else {
        None
    }
}

fn groups_along(dimension: u64, size: u32, of: Along) -> Result<u32, Refusal>
    ensures { result ≡ rules.groups_along dimension size of }
{
    if of.offset != 0 {
        return Err(Refusal {
            number: 43,
            place: dimension,
        });
    }
    match whole_groups(size as u64, of) {
        Some(groups) => Ok(groups),
        None => Err(Refusal {
            number: 42,
            place: dimension,
        }),
    }
}

fn groups_in(sizes: [u32; 3], range: &Range) -> Result<Counts, Refusal>
    ensures { result ≡ rules.groups_in (rules.three sizes) range.now }
{
    let (offset, global, local) = (range.offset, range.global, range.local);
    let x = groups_along(0, sizes[0], size_along(true, offset.x, global.x, local.x))?;
    let second = size_along(1 < range.dimensions, offset.y, global.y, local.y);
    let y = groups_along(1, sizes[1], second)?;
    let third = size_along(2 < range.dimensions, offset.z, global.z, local.z);
    let z = groups_along(2, sizes[2], third)?;
    Ok(Counts { x, y, z })
}

/// The group counts of a launch of groups of these sizes.
pub fn groups_of(sizes: [u32; 3], range: &Range) -> Result<Counts, Refusal>
    ensures { result ≡ rules.groups_of (rules.three sizes) range.now }
{
    if 1 <= range.dimensions && range.dimensions <= 3 {
        groups_in(sizes, range)
    } else {
        Err(Refusal {
            number: 42,
            place: range.dimensions as u64,
        })
    }
}
