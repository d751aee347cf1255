//! What an item meets on all its paths.

ghost use Rattle.std.specs.Prelude.{◌≡◌, map, true};
ghost use Rattle.obligations.specs.Owning.{all_own_accesses, all_own_ends};
ghost use Rattle.two_thread.specs.Paths.{all_accesses, all_ends};
ghost use Rattle.two_thread.specs.Places.{rows, claim_count, access_count, end_count};

use crate::on_path::{OnPath, access_places, claim_places, end_places};
use crate::walked::Tagged;
use facts::WalkError;
use std::alloc::Global;

/// The paths of all places in their order, and the places of all their claims, accesses and ends.
#[derive(Drop)]
pub struct Met<D> {
    pub(crate) paths: Vec<Tagged<D>>,
    pub(crate) claims: Vec<OnPath>,
    pub(crate) accesses: Vec<OnPath>,
    pub(crate) ends: Vec<OnPath>,
    pub(crate) ghost claims_are: { claims.items ≡ rows 0 (map claim_count paths.items) },
    pub(crate) ghost accesses_are: { accesses.items ≡ rows 0 (map access_count paths.items) },
    pub(crate) ghost ends_are: { ends.items ≡ rows 0 (map end_count paths.items) },
    pub(crate) ghost own: { all_own_accesses (all_accesses paths.items) ≡ true },
    pub(crate) ghost own_ends: { all_own_ends (all_ends paths.items) ≡ true },
}

impl<D: Copy> Met<D> {
    ghost use Rattle.std.specs.Prelude.{◌≡◌, IfOk, IfErr, length, true};
    ghost use Rattle.facts.specs.Refusals.{IsMemory};
    ghost use Rattle.obligations.specs.Owning.{all_own_accesses, all_own_ends};
    ghost use Rattle.two_thread.specs.Paths.{all_accesses, all_ends};
    ghost use Rattle.two_thread.specs.View.{met_claims, met_accesses, met_ends};

    /// The claims, accesses and ends of these paths, whose accesses and ends have no symbols of the second item.
    pub fn of(alloc: Global, paths: Vec<Tagged<D>>) -> Result<Met<D>, WalkError>
        requires accesses { all_own_accesses (all_accesses paths.items) ≡ true }
        requires ends { all_own_ends (all_ends paths.items) ≡ true }
        ensures paths { IfOk result (λ m. m.paths.items ≡ paths.items) }
        ensures memory { IfErr result IsMemory }
    {
        let claims = claim_places(alloc, paths.as_slice())?;
        let accesses = access_places(alloc, paths.as_slice())?;
        let ends = end_places(alloc, paths.as_slice())?;
        Ok(Met {
            paths,
            claims,
            accesses,
            ends,
        })
    }

    /// The paths again, so that others can be put beside them.
    pub fn into_paths(self) -> Vec<Tagged<D>>
        ensures paths { result.items ≡ self.paths.items }
        ensures accesses { all_own_accesses (all_accesses result.items) ≡ true }
        ensures ends { all_own_ends (all_ends result.items) ≡ true }
    {
        let Met { paths, .. } = self;
        paths
    }

    /// The number of claims on the paths.
    pub fn claim_count(&self) -> usize
        ensures count { result ≡ length self.now.claims.items }
        ensures seen { result ≡ length (met_claims self.now) }
    {
        self.claims.len()
    }

    /// The number of accesses on the paths.
    pub fn access_count(&self) -> usize
        ensures count { result ≡ length self.now.accesses.items }
        ensures seen { result ≡ length (met_accesses self.now) }
    {
        self.accesses.len()
    }

    /// The number of paths that come to an end.
    pub fn end_count(&self) -> usize
        ensures count { result ≡ length self.now.ends.items }
        ensures seen { result ≡ length (met_ends self.now) }
    {
        self.ends.len()
    }
}
