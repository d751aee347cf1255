//! The steps of a path.

ghost use Rattle.std.specs.Prelude.{◌≡◌, ◌<◌, map, MatchResult};
ghost use Rattle.linear.specs.Forms.{form as form_seen, forms};
ghost use Rattle.core_code.specs.View.{site as site_seen};
ghost use Rattle.facts.specs.Refusals.{IsMemory};
ghost use Rattle.walk_trees.specs.Walks.{spot_at, is_none};
ghost use Rattle.path_steps.specs.Paths.{opening, with_claim, with_fact, with_element, with_narrowed, with_access, with_shared, with_spot, with_choice, front, choosing, choosing_unless};
ghost use Rattle.path_steps.specs.Refusals.{Refused};
ghost use Rattle.path_steps.specs.Leads.{Leads};
ghost use Rattle.path_steps.specs.View.{followed, sort as sort_seen, spot as spot_seen, target as target_seen, goal_seen, shared_seen, choice as choice_seen, value as value_seen};

use crate::marks::Marks;
use crate::path::{
    Access, Choice, Claim, Goal, Invented, Narrowed, Path, Shared, Sort, Spot, Target, Value,
};
use core_code::tree::Site;
use facts::WalkError;
use linear::{Form, Symbol};
use std::alloc::Global;

impl<D: Copy> Path<D> {
    #[tactic(auto, unfolding(crate::specs::View::followed))]
    /// A path with these facts and variables, before its first step along these choices.
    pub fn opening(
        alloc: Global,
        facts: Vec<Form>,
        variables: Vec<Value>,
        given: Vec<Choice>,
    ) -> Path<D>
        ensures { followed result ≡ opening (forms facts.items) (map value_seen variables.items) (map choice_seen given.items) }
    {
        let narrowed = Vec::new(alloc);
        let marks = Marks::behind(alloc, narrowed.as_slice());
        Path {
            facts,
            claims: Vec::new(alloc),
            accesses: Vec::new(alloc),
            ends: Vec::new(alloc),
            count: 0,
            taken: Vec::new(alloc),
            given,
            news: Vec::new(alloc),
            narrowed,
            marks,
            variables,
            ranks: Vec::new(alloc),
            quotients: Vec::new(alloc),
            at: Spot {
                statement: 0,
                site: Site { line: 0, column: 0 },
            },
        }
    }

    #[tactic(auto, unfolding(crate::specs::View::followed))]
    /// Puts the walk at a place in the source.
    pub fn stand(&mut self, spot: Spot)
        ensures { followed self.new ≡ with_spot (followed self.old) (spot_seen spot) }
    {
        self.at = spot;
    }

    #[tactic(auto, unfolding(crate::specs::View::followed))]
    /// The place of a site in the statement at which the walk stands.
    pub fn spot_at(&self, site: Site) -> Spot
        ensures { spot_seen result ≡ spot_at (site_seen site) (followed self.now).state }
    {
        Spot {
            statement: self.at.statement,
            site,
        }
    }

    /// All choices that were given are taken, so that what is found now is noted.
    pub(crate) fn is_new(&self) -> bool
        ensures { result ≡ is_none (followed self.now).found.left }
    {
        self.taken.len() >= self.given.len()
    }

    /// One claim more; at most 65,536 stand before one another.
    pub fn claim(
        &mut self,
        sort: Sort,
        needed: bool,
        settled: bool,
        goal: Goal,
    ) -> Result<(), WalkError>
        ensures { MatchResult result (λ _. followed self.new ≡ with_claim (followed self.old) (sort_seen sort) needed settled (goal_seen goal)) (λ e. Refused e (with_claim (followed self.old) (sort_seen sort) needed settled (goal_seen goal)).found) }
    {
        if self.count >= 65_536 {
            return Err(WalkError::TooMany);
        }
        let is_new = self.is_new();
        self.count += 1;
        if is_new {
            let facts = self.facts.len();
            let spot = self.at;
            self.claims.push(Claim {
                sort,
                spot,
                needed,
                settled,
                goal,
                facts,
            })?;
        }
        Ok(())
    }

    /// Adds a fact to those that the item knows.
    pub fn know(&mut self, fact: Form) -> Result<(), WalkError>
        ensures { MatchResult result (λ _. followed self.new ≡ with_fact (followed self.old) (form_seen fact)) IsMemory }
    {
        self.facts.push(fact)?;
        Ok(())
    }

    /// Adds a new symbol with its element, made where the walk stands.
    pub fn invent(&mut self, element: D) -> Result<(), WalkError>
        ensures { MatchResult result (λ _. followed self.new ≡ with_element (followed self.old) element) IsMemory }
    {
        self.news.push(Invented {
            spot: self.at,
            element,
        })?;
        Ok(())
    }

    /// A symbol has this element from here on.
    pub fn narrow(&mut self, symbol: Symbol, element: D) -> Result<(), WalkError>
        ensures { MatchResult result (λ _. followed self.new ≡ with_narrowed (followed self.old) symbol.number element) IsMemory }
    {
        let next = Narrowed { symbol, element };
        self.narrowed.push(next)?;
        self.marks.mark(next, self.narrowed.as_slice());
        Ok(())
    }

    /// Keeps a quotient, so that an equal one is the same.
    pub fn keep(&mut self, shared: Shared) -> Result<(), WalkError>
        ensures { MatchResult result (λ _. followed self.new ≡ with_shared (followed self.old) (shared_seen shared)) IsMemory }
    {
        self.quotients.push(shared)?;
        Ok(())
    }

    /// Notes an access with the path's facts, new symbols and narrowed elements so far, unless the given choices are still being taken.
    pub fn touch(&mut self, target: Target, index: Form) -> Result<(), WalkError>
        ensures { MatchResult result (λ _. followed self.new ≡ with_access (followed self.old) (target_seen target) (form_seen index)) IsMemory }
    {
        if self.is_new() {
            let facts = self.facts.len();
            let news = self.news.len();
            let narrowed = self.narrowed.len();
            self.accesses.push(Access {
                target,
                index,
                facts,
                news,
                narrowed,
            })?;
        }
        Ok(())
    }

    /// The next choice; past the end the first way.
    fn next(&self) -> Choice
        ensures { choice_seen result ≡ front (followed self.now).found.left }
    {
        let at = self.taken.len();
        if at < self.given.len() {
            self.given[at]
        } else {
            Choice::First
        }
    }

    /// The next way at a fork, and whether it is the first.
    pub fn choose(&mut self) -> Result<bool, WalkError>
        ensures { MatchResult result (Leads (followed self.old) (followed self.new) choosing) IsMemory }
    {
        match self.next() {
            Choice::First => {
                self.taken.push(Choice::First)?;
                Ok(true)
            }
            Choice::Other(count) => {
                self.taken.push(Choice::Other(count))?;
                self.count = count;
                Ok(false)
            }
        }
    }

    /// The way of a test, and whether it is the first. There is no fork where one of its two ways is left out.
    pub fn choose_unless(
        &mut self,
        first_is_out: bool,
        second_is_out: bool,
    ) -> Result<bool, WalkError>
        ensures { MatchResult result (Leads (followed self.old) (followed self.new) (choosing_unless first_is_out second_is_out)) IsMemory }
    {
        if first_is_out {
            return Ok(false);
        }
        if second_is_out {
            return Ok(true);
        }
        self.choose()
    }
}
