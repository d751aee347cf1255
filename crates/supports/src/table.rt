//! The table of supports.

ghost use Rattle.std.specs.Prelude.{◌≡◌, ◌<◌, ◌≤◌, [], length, slice_index_or, true, false, IfOk};
ghost use Rattle.std.specs.List.{All};
ghost use Rattle.supports.specs.Candidates.{IsSupported};
ghost use Rattle.supports.specs.Sets.{members, all, any, each_in, IsUnsupported};
ghost use Rattle.supports.specs.View.{sets, obligations as obligations_seen, supports};

use crate::error::SupportError;
use crate::set::Set;
use std::alloc::Global;
use std::marker::Model;
use std::sync::Arc;

/// The supports of candidates: of each its obligations, of each obligation the sets of candidates that suffice for it.
#[derive(Drop)]
pub struct Supports {
    count: u32,
    lists: Arc<Vec<Vec<Vec<Vec<u32>>>>>,
}

impl Model for Supports {
    ghost use Rattle.std.specs.Prelude.{◌≡◌, ℕ, ◌≤◌, List, length};
    ghost use Rattle.std.specs.Arc.{arc_value};
    ghost use Rattle.supports.specs.View.{supports};

    ghost Value = { List (List (List (List ℕ))) };

    ghost view = { λ s. supports (arc_value s.lists).items };

    ghost invariant = { λ s. (s.count ≤ 512) × (length (arc_value s.lists).items ≡ s.count) };
}

#[tactic(auto, using(crate::proofs::Rows::all_rows))]
fn lies_in(list: &[u32], set: &Set) -> bool
    ensures { result ≡ all (members set.now.words) list.now }
{
    for candidate in list {
        if !set.contains(*candidate) {
            return false;
        }
    }
    true
}

#[tactic(auto, using(crate::proofs::Rows::any_rows))]
fn one_lies_in(lists: &[Vec<u32>], set: &Set) -> bool
    ensures { result ≡ any (all (members set.now.words)) (sets lists.now) }
{
    for list in lists {
        if lies_in(list.as_slice(), set) {
            return true;
        }
    }
    false
}

#[tactic(auto, using(crate::proofs::Rows::all_rows))]
fn each_lies_in(obligations: &[Vec<Vec<u32>>], set: &Set) -> bool
    ensures { result ≡ each_in (members set.now.words) (obligations_seen obligations.now) }
{
    for lists in obligations {
        if !one_lies_in(lists.as_slice(), set) {
            return false;
        }
    }
    true
}

impl Supports {
    /// A table of so many candidates, 512 at most, with an entry for each. A listed set that names what is no candidate lies in no
    /// set of candidates.
    pub fn of(
        alloc: Global,
        count: u32,
        lists: Vec<Vec<Vec<Vec<u32>>>>,
    ) -> Result<Supports, SupportError>
        requires { (count ≤ 512) × (length lists.items ≡ count) }
        ensures { IfOk result (λ s. s ≡ supports lists.items) }
    {
        Ok(Supports {
            count,
            lists: Arc::new(alloc, lists)?,
        })
    }

    /// Another handle of the table; both share its lists.
    pub fn again(&self) -> Result<Supports, SupportError>
        ensures { IfOk result (λ s. s ≡ self.now) }
    {
        Ok(Supports {
            count: self.count,
            lists: Arc::try_clone(&self.lists)?,
        })
    }

    /// The number of candidates, at most 512.
    pub fn count(&self) -> u32
        ensures { (result ≡ length self.now) × (result ≤ 512) }
    {
        self.count
    }

    /// Whether each obligation of the candidate has a listed set that lies in the set.
    pub fn is_supported(&self, candidate: u32, set: &Set) -> bool
        requires { candidate < length self.now }
        ensures shown { result ≡ true → All (IsSupported (members set.now.words)) (slice_index_or self.now candidate []) }
        ensures lacking { result ≡ false → IsUnsupported (members set.now.words) (slice_index_or self.now candidate []) }
    {
        each_lies_in(self.lists[candidate as usize].as_slice(), set)
    }
}
