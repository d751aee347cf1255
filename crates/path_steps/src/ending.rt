//! Where a path stops, and what ranks a loop on it.

ghost use Rattle.std.specs.Prelude.{◌≡◌, MatchResult};
ghost use Rattle.linear.specs.Forms.{form as form_seen};
ghost use Rattle.facts.specs.Refusals.{IsMemory};
ghost use Rattle.path_steps.specs.Paths.{stopped, with_ranked};
ghost use Rattle.path_steps.specs.View.{followed, stop as stop_seen, turns as turns_seen};

use crate::path::{Arrived, Path, Ranked, Stop};
use facts::WalkError;
use linear::Form;
use std::alloc::Global;
use std::mem;

impl<D: Copy> Path<D> {
    /// The path stops here, after these turns; its variables go into what is noted.
    pub fn arrive(
        &mut self,
        alloc: Global,
        stop: Stop,
        turns: Option<Vec<u32>>,
    ) -> Result<(), WalkError>
        ensures { MatchResult result (λ _. (followed self.new).found ≡ stopped (followed self.old) (stop_seen stop) (turns_seen turns)) IsMemory }
    {
        let is_new = self.is_new();
        if is_new {
            let facts = self.facts.len();
            let news = self.news.len();
            let narrowed = self.narrowed.len();
            let variables = mem::replace(&mut self.variables, Vec::new(alloc));
            self.ends.push(Arrived {
                stop,
                turns,
                variables,
                facts,
                news,
                narrowed,
            })?;
        }
        Ok(())
    }

    /// Notes the value of a loop's ranking when the loop's test was true.
    pub fn rank(&mut self, number: u32, form: Form) -> Result<(), WalkError>
        ensures { MatchResult result (λ _. followed self.new ≡ with_ranked (followed self.old) number (form_seen form)) IsMemory }
    {
        self.ranks.push(Ranked { number, form })?;
        Ok(())
    }
}
