//! What is not shown, and where the kernel asks for it.

ghost use Rattle.std.specs.Prelude.{◌≤◌, ◌<◌, length};
ghost use Rattle.two_thread.specs.Listed.{listed};
ghost use Rattle.plain_kernels.specs.Domains.{domain};

use crate::used::Origins;
use core_code::tree::Site;
use path_steps::{Sort, Spot, Stop};
use two_thread::{OnPath, Part};

/// The part of a kernel that an obligation is about: an access, an operator or an index by its site; a barrier or a loop by its statement's
/// number; or the kernel's end.
#[derive(Clone, Copy, PartialEq, Eq)]
pub enum Mark {
    Store(Site),
    Load(Site),
    At(Site),
    Barrier(u32),
    Loop(u32),
    End,
}

/// An obligation that nothing shows: what is to be shown, and of what; of a pair also the second one.
#[derive(Clone, Copy)]
pub struct Missing {
    pub sort: Sort,
    pub first: Mark,
    pub second: Option<Mark>,
}

impl Missing {
    /// The obligation is a pair of accesses.
    pub fn is_of_accesses(&self) -> bool {
        matches!(self.sort, Sort::OfPair)
    }

    /// Two obligations are of one sort, and about the same parts of the kernel.
    pub fn is_like(&self, other: &Missing) -> bool {
        is_same_sort(self.sort, other.sort)
            && self.first == other.first
            && self.second == other.second
    }
}

/// Two sorts of obligations are one.
fn is_same_sort(left: Sort, right: Sort) -> bool {
    match (left, right) {
        (Sort::OfRange(one), Sort::OfRange(other)) => one == other,
        (Sort::OfIndex, Sort::OfIndex)
        | (Sort::OfDivisor, Sort::OfDivisor)
        | (Sort::OfQuotient, Sort::OfQuotient)
        | (Sort::OfRanking, Sort::OfRanking)
        | (Sort::OfFact, Sort::OfFact)
        | (Sort::OfCongruence, Sort::OfCongruence)
        | (Sort::OfContent, Sort::OfContent)
        | (Sort::OfPair, Sort::OfPair)
        | (Sort::OfSame, Sort::OfSame)
        | (Sort::OfMeeting, Sort::OfMeeting) => true,
        _ => false,
    }
}

/// The loop, the store or the site that a claim is about, by its sort and its spot.
fn claimed(sort: Sort, spot: Spot) -> Mark {
    match sort {
        Sort::OfRanking => Mark::Loop(spot.statement),
        Sort::OfContent => Mark::Store(spot.site),
        _ => Mark::At(spot.site),
    }
}

/// The barrier, the loop or the kernel's end at which a path stops.
fn stopped(origins: &Origins<'_>, at: OnPath) -> Mark {
    let Some(tagged) = origins.found.paths().get(at.path) else {
        return Mark::End;
    };
    let Some(end) = tagged.path.ends.get(at.item) else {
        return Mark::End;
    };
    match end.stop {
        Stop::Barrier(number) => Mark::Barrier(number),
        Stop::Head { number, .. } => Mark::Loop(number),
        Stop::End => Mark::End,
    }
}

/// The site of an access, as a store or a load.
fn accessed(origins: &Origins<'_>, at: OnPath) -> Mark {
    let Some(tagged) = origins.found.paths().get(at.path) else {
        return Mark::End;
    };
    let Some(access) = tagged.path.accesses.get(at.item) else {
        return Mark::End;
    };
    let site = access.target.spot.site;
    if access.target.is_store {
        Mark::Store(site)
    } else {
        Mark::Load(site)
    }
}

/// The sort of the obligation of this number, and the one or two parts of the kernel that it is about.
pub fn missing_of(origins: &Origins<'_>, number: usize) -> Missing
    requires first { 0 < number }
    requires last { number ≤ length (listed domain origins.now.found.now) }
{
    let sort = origins.found.sort(number);
    match origins.found.part(number) {
        Part::Claim(_) => Missing {
            sort,
            first: claimed(sort, origins.found.spot(number)),
            second: None,
        },
        Part::Ends { first, second, .. } => Missing {
            sort,
            first: stopped(origins, first),
            second: Some(stopped(origins, second)),
        },
        Part::Accesses { first, second } => Missing {
            sort,
            first: accessed(origins, first),
            second: Some(accessed(origins, second)),
        },
    }
}
