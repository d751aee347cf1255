//! Where the paths of a place begin.

ghost use Rattle.std.specs.Prelude.{◌≡◌, List, Bool, [], map, true, MatchResult};
ghost use Rattle.linear.specs.Forms.{forms};
ghost use Rattle.core_code.specs.View.{kernel as core_seen};
ghost use Rattle.facts.specs.Launching.{are_sizes};
ghost use Rattle.facts.specs.View.{known_seen};
ghost use Rattle.walk_trees.specs.Statements.{spot_of};
ghost use Rattle.path_steps.specs.View.{followed, choice as choice_seen, held_seen, value as value_seen};
ghost use Rattle.obligations.specs.View.{seen};
ghost use Rattle.obligations.specs.Roots.{root_facts};
ghost use Rattle.path_walk.specs.Rooted.{rooted, IsUnrooted};

use crate::holding::{root_narrowed, root_news};
use crate::known::root_facts;
use crate::narrowing::narrow_by_notes;
use crate::said::{congruences_at, multiples_at};
use crate::variables::root_values;
use arrival_claims::Placing;
use core_code::tree::Site;
use domain::Domain;
use facts::WalkError;
use linear::Form;
use path_steps::{Choice, Invented, Marks, Narrowed, Path, Spot, Value};
use std::alloc::Global;

/// The facts, the values of variables, and what the domain holds, with which the paths of a place begin.
#[derive(Drop)]
pub struct Root<D> {
    pub known: Vec<Form>,
    pub variables: Vec<Value>,
    pub news: Vec<Invented<D>>,
    pub narrowed: Vec<Narrowed<D>>,
}

#[tactic(auto, unfolding(path_steps::specs::View::followed))]
/// A path before its first step, with so many claims before it.
fn planted<D: Domain>(alloc: Global, root: Root<D>, claims: u32, given: Vec<Choice>) -> Path<D>
    ensures { followed result ≡ record { found = record { facts = forms root.known.items; claims = []; accesses = []; ends = []; count = claims; taken = []; left = map choice_seen given.items; is_fit = true; is_few = true }; state = record { claims = claims; variables = map value_seen root.variables.items; ranks = []; quotients = []; held = held_seen root.news.items root.narrowed.items; at = spot_of 0 } } }
{
    let marks = Marks::behind(alloc, root.narrowed.as_slice());
    Path {
        facts: root.known,
        claims: Vec::new(alloc),
        accesses: Vec::new(alloc),
        ends: Vec::new(alloc),
        count: claims,
        taken: Vec::new(alloc),
        given,
        news: root.news,
        narrowed: root.narrowed,
        marks,
        variables: root.variables,
        ranks: Vec::new(alloc),
        quotients: Vec::new(alloc),
        at: Spot {
            statement: 0,
            site: Site { line: 0, column: 0 },
        },
    }
}

/// A path of a place, with so many claims before it, along these choices.
pub fn root_of<D: Domain>(
    placing: &Placing<'_, D>,
    claims: u32,
    given: Vec<Choice>,
) -> Result<Path<D>, WalkError>
    requires { are_sizes (core_seen placing.now.core.now).sizes ≡ true }
    ensures { MatchResult result (λ p. (entries : List Bool) → followed p ≡ rooted D.Domain (known_seen placing.now.setting.now.known) (core_seen placing.now.core.now) (seen placing.now.notes.now entries) claims placing.now.anchor placing.now.head (map choice_seen given.items)) (λ e. (entries : List Bool) → IsUnrooted (root_facts (core_seen placing.now.core.now) (seen placing.now.notes.now entries) placing.now.anchor placing.now.head) e) }
{
    let alloc = placing.setting.alloc;
    let core = placing.core;
    let anchor = placing.anchor;
    let head = placing.head;
    let known = root_facts(alloc, core, placing.notes, anchor, head)?;
    let variables = root_values(alloc, core, anchor, head)?;
    let congruences = congruences_at(placing.notes, anchor, head);
    let multiples = multiples_at(placing.notes, anchor, head);
    let news = root_news(alloc, congruences, multiples)?;
    let narrowed = root_narrowed(alloc, core, variables.as_slice(), anchor, head)?;
    let root = Root {
        known,
        variables,
        news,
        narrowed,
    };
    let mut path = planted(alloc, root, claims, given);
    narrow_by_notes(placing, &mut path)?;
    Ok(path)
}
