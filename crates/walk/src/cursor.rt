//! A cursor over the paths of all places.

ghost use Rattle.std.specs.Prelude.{◌≡◌, ◌≤◌};

use crate::error::FindError;
use crate::one_path::{OnePath, Start, walk_one};
use crate::terrain::Terrain;
use domain::Domain;
use facts::WalkError;
use path_steps::Choice;
use std::alloc::{AllocError, Global};
use two_thread::Tagged;

/// A cursor over the paths of all places: the number of a place, how many claims stand before it, how many of its paths came to an end, and
/// the choices of its next path. A path is walked from its place's beginning, whatever it shares with the one before it. The cursor is a
/// few numbers, so that a second one is made where it stands without a walk.
#[derive(Drop)]
pub struct Paths {
    pub(crate) at: usize,
    pub(crate) claims: u32,
    pub(crate) ends: usize,
    pub(crate) given: Vec<Choice>,
    pub(crate) stopped: Option<FindError>,
    pub(crate) ghost few: { ends ≤ 256 },
}

/// A path with its place, and where a cursor stands behind it.
#[derive(Drop)]
struct Step<D> {
    path: Tagged<D>,
    behind: Paths,
}

fn copy_of_walk(error: &WalkError) -> WalkError
    ensures { result ≡ error.now }
{
    match error {
        WalkError::TooMany => WalkError::TooMany,
        WalkError::TooLarge => WalkError::TooLarge,
        WalkError::Memory => WalkError::Memory,
    }
}

fn copy_of(error: &FindError) -> FindError
    ensures { result ≡ error.now }
{
    match error {
        FindError::ManyPaths(statement) => FindError::ManyPaths(*statement),
        FindError::Walk(error) => FindError::Walk(copy_of_walk(error)),
    }
}

fn copy_of_stopped(stopped: &Option<FindError>) -> Option<FindError>
    ensures { result ≡ stopped.now }
{
    match stopped {
        None => None,
        Some(error) => Some(copy_of(error)),
    }
}

impl Paths {
    ghost use Rattle.std.specs.Prelude.{◌≡◌, ◌≤◌, ◌+◌, map, None, Some, Err, IfOk, IfErr};
    ghost use Rattle.facts.specs.Launching.{launch_facts};
    ghost use Rattle.obligations.specs.Listing.{claims_of, accesses_of, ends_in};
    ghost use Rattle.two_thread.specs.Goals.{owed};
    ghost use Rattle.walk.specs.Cursors.{Answers, IsUnfoundIn, IsWhole, Stands, conditions_of, left_claims, left_accesses, left_ends, left_count, stopped, trees_of};
    ghost use Rattle.walk.specs.Stepped.{IsStep, Steps};
    ghost use Rattle.walk.specs.declared.error.FindError.{FindError};

    /// Before the first path of the first place.
    pub fn of<D: Domain>(terrain: &Terrain<'_, D>) -> Paths
        requires { IsWhole D.Domain terrain.now }
        ensures stands { Stands D.Domain terrain.now result }
        ensures claims { map (owed (launch_facts (conditions_of terrain.now))) (left_claims D.Domain terrain.now result) ≡ claims_of (conditions_of terrain.now) (trees_of D.Domain terrain.now) }
        ensures accesses { left_accesses D.Domain terrain.now result ≡ accesses_of (trees_of D.Domain terrain.now) }
        ensures ends { left_ends D.Domain terrain.now result ≡ ends_in (trees_of D.Domain terrain.now) }
        ensures starts { stopped result ≡ None }
    {
        Paths {
            at: 0,
            claims: 0,
            ends: 0,
            given: Vec::new(terrain.setting.alloc),
            stopped: None,
        }
    }

    /// A second cursor that stands where this one does.
    pub fn copy<D: Domain>(&self, terrain: &Terrain<'_, D>) -> Result<Paths, AllocError>
        requires { Stands D.Domain terrain.now self.now }
        ensures stands { IfOk result (λ p. Stands D.Domain terrain.now p) }
        ensures claims { IfOk result (λ p. left_claims D.Domain terrain.now p ≡ left_claims D.Domain terrain.now self.now) }
        ensures accesses { IfOk result (λ p. left_accesses D.Domain terrain.now p ≡ left_accesses D.Domain terrain.now self.now) }
        ensures ends { IfOk result (λ p. left_ends D.Domain terrain.now p ≡ left_ends D.Domain terrain.now self.now) }
        ensures count { IfOk result (λ p. left_count D.Domain terrain.now p ≡ left_count D.Domain terrain.now self.now) }
        ensures stopped { IfOk result (λ p. stopped p ≡ stopped self.now) }
    {
        let given = Vec::from_slice(terrain.setting.alloc, self.given.as_slice())?;
        Ok(Paths {
            at: self.at,
            claims: self.claims,
            ends: self.ends,
            given,
            stopped: copy_of_stopped(&self.stopped),
        })
    }

    /// The path of a place, and where the cursor stands behind it: at the place's next path, or at the place that comes behind it.
    fn stepped<D: Domain>(&self, alloc: Global, walked: OnePath<D>, following: usize) -> Step<D>
        requires few { walked.ends ≤ 256 }
        requires following { following ≡ self.now.at + 1 }
        ensures { IsStep self.now walked result }
    {
        let OnePath { path, ends, next } = walked;
        match next {
            Some(given) => Step {
                path,
                behind: Paths {
                    at: self.at,
                    claims: self.claims,
                    ends,
                    given,
                    stopped: None,
                },
            },
            None => {
                let claims = path.path.count;
                Step {
                    path,
                    behind: Paths {
                        at: following,
                        claims,
                        ends: 0,
                        given: Vec::new(alloc),
                        stopped: None,
                    },
                }
            }
        }
    }

    /// The next path; none behind the last one.
    fn step<D: Domain>(&self, terrain: &Terrain<'_, D>) -> Result<Option<Step<D>>, FindError>
        requires { Stands D.Domain terrain.now self.now }
        ensures step { IfOk result (λ s. Steps D.Domain terrain.now self.now s) }
        ensures unfound { IfErr result (IsUnfoundIn D.Domain terrain.now) }
    {
        if self.at >= terrain.places.len() {
            return Ok(None);
        }
        let following = self.at + 1;
        let given = Vec::from_slice(terrain.setting.alloc, self.given.as_slice())?;
        let start = Start {
            place: &terrain.places[self.at],
            claims: self.claims,
            ends: self.ends,
        };
        let walked = walk_one(&terrain.setting, terrain.core, terrain.notes, &start, given)?;
        Ok(Some(self.stepped(terrain.setting.alloc, walked, following)))
    }

    /// The next path with its place, or none at the end. An error is answered again by each later call.
    pub fn next<D: Domain>(
        &mut self,
        terrain: &Terrain<'_, D>,
    ) -> Result<Option<Tagged<D>>, FindError>
        requires { Stands D.Domain terrain.now self.old }
        ensures next { stopped self.old ≡ None → Answers D.Domain terrain.now self.old result self.new }
        ensures again { (e : FindError) → stopped self.old ≡ Some e → (result ≡ Err e) × (stopped self.new ≡ Some e) }
        ensures stands { Stands D.Domain terrain.now self.new }
    {
        if let Some(error) = &self.stopped {
            return Err(copy_of(error));
        }
        match self.step(terrain) {
            Ok(None) => Ok(None),
            Ok(Some(Step { path, behind })) => {
                *self = behind;
                Ok(Some(path))
            }
            Err(error) => {
                self.stopped = Some(copy_of(&error));
                Err(error)
            }
        }
    }
}
