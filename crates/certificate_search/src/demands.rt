//! What the guesses of a walk rest on.

ghost use Rattle.std.specs.Prelude.{◌≤◌, ◌<◌, length};
ghost use Rattle.two_thread.specs.Listed.{listed};
ghost use Rattle.plain_kernels.specs.Domains.{domain};

use crate::progress::{Course, Watcher};
use crate::round_table::Demand;
use crate::stretches::{BatchSizes, Stretch, least_piece, left_behind, stretches_behind};
use crate::used::{Origins, used_guesses};
use cut_proof::Derivation;
use cut_search::{Answer, Memory, Point, Questions};
use guess_walk::{Division, FormDivision, Shown, both_sides, both_sides_by, facts_of, reached};
use guesses::{Line, has_product};
use linear::{Form, Symbol};
use path_steps::{Claim, Goal, Stop};
use rayon::prelude::*;
use std::alloc::{AllocError, Global};
use std::thread::Threads;
use two_thread::{About, Manner, OnPath, Part};
use walk::FindError;

/// Points at which all is so that is known at the end of a path, or of two, and a guess was not.
#[derive(Drop)]
struct Points {
    of: (usize, usize),
    points: Vec<Point>,
}

impl Points {
    /// Turns to the ends of two paths: points of other ends are forgotten.
    fn turn_to(&mut self, of: (usize, usize)) {
        if self.of != of {
            self.of = of;
            self.points.clear();
        }
    }
}

fn value_at(point: &[(Symbol, i64)], symbol: Symbol) -> i64 {
    for entry in point {
        if entry.0 == symbol {
            return entry.1;
        }
    }
    0
}

fn value_of(form: &Form, point: &[(Symbol, i64)]) -> Option<i64> {
    let mut sum = form.constant_part();
    for term in form.terms() {
        let product = term.coefficient.checked_mul(value_at(point, term.symbol))?;
        sum = sum.checked_add(product)?;
    }
    Some(sum)
}

/// The form is below 0 at one of the points. A point, at which products need not be products, tells nothing of a form with products.
fn is_denied(form: &Form, points: &[Point]) -> bool {
    if has_product(form) {
        return false;
    }
    for point in points {
        if value_of(form, point.as_slice()).is_some_and(|value| value < 0) {
            return true;
        }
    }
    false
}

/// The modulus does not divide the form at one of the points.
fn is_undivided(form: &Form, modulus: u64, points: &[Point]) -> bool {
    if modulus == 0 || has_product(form) {
        return false;
    }
    for point in points {
        if let Some(value) = value_of(form, point.as_slice()) {
            if value.unsigned_abs() % modulus != 0 {
                return true;
            }
        }
    }
    false
}

/// The guess that a claim is of, where it is one of those at a path's end, and whether it is the second claim of a congruence.
fn guess_of(origins: &Origins<'_>, at: OnPath) -> Option<(u32, bool)> {
    let tagged = origins.found.paths().get(at.path)?;
    let end = tagged.path.ends.first()?;
    let to = reached(end.stop, tagged.anchor, origins.sights)?;
    let lines = origins.table.places.get(to)?;
    let before = tagged.path.claims.len().checked_sub(lines.len())?;
    let place = at.item.checked_sub(before)?;
    let guess = lines.at(place)?;
    let is_second = place >= lines.facts.len() && (place - lines.facts.len()) % 2 == 1;
    Some((guess, is_second))
}

fn claim_at<'a>(origins: &Origins<'a>, at: OnPath) -> Option<&'a Claim> {
    origins.found.paths().get(at.path)?.path.claims.get(at.item)
}

/// The guess that an obligation is of, if it is of one.
pub fn target_of(origins: &Origins<'_>, part: Part) -> Option<u32> {
    match part {
        Part::Claim(at) => {
            let (guess, _) = guess_of(origins, at)?;
            Some(guess)
        }
        Part::Ends { first, about, .. } => agreement_of(origins, first, about),
        Part::Accesses { .. } => None,
    }
}

/// The guesses that a derivation uses, which refutes these facts of an obligation; none where the part is no part of the walk.
fn support_of(
    alloc: Global,
    origins: &Origins<'_>,
    part: Part,
    facts: &[Form],
    derivation: &Derivation,
) -> Result<Option<Vec<u32>>, AllocError> {
    let Some(origin) = origins.origin(part) else {
        return Ok(None);
    };
    let used = used_guesses(alloc, &origin, facts, derivation)?;
    Ok(Some(used))
}

/// A question is asked of the search; a point that answers it goes to the points.
fn asked(
    alloc: Global,
    origins: &Origins<'_>,
    part: Part,
    facts: &[Form],
    questions: &mut Questions<'_>,
    points: &mut Vec<Point>,
) -> Result<Option<Vec<u32>>, AllocError> {
    match questions.ask(alloc, facts)? {
        Answer::Proof(derivation) => support_of(alloc, origins, part, facts, &derivation),
        Answer::Model(point) => {
            points.push(point)?;
            Ok(None)
        }
        Answer::Undecided => Ok(None),
    }
}

/// The guesses of two lists, those of the second one behind, each once.
fn joined(mut first: Vec<u32>, second: &[u32]) -> Result<Vec<u32>, AllocError> {
    for guess in second {
        if !first.as_slice().contains(guess) {
            first.push(*guess)?;
        }
    }
    Ok(first)
}

/// The guesses that both sides of a congruence rest on, or of a multiple of a form.
fn support_of_both(
    alloc: Global,
    origins: &Origins<'_>,
    at: OnPath,
    facts: &[Form],
    shown: &Shown,
) -> Result<Option<Vec<u32>>, AllocError> {
    let part = Part::Claim(at);
    let Some(least) = support_of(alloc, origins, part, facts, &shown.least)? else {
        return Ok(None);
    };
    let Some(most) = support_of(alloc, origins, part, facts, &shown.most)? else {
        return Ok(None);
    };
    Ok(Some(joined(least, most.as_slice())?))
}

/// A congruence, by facts without a denial.
fn divided(
    alloc: Global,
    origins: &Origins<'_>,
    at: OnPath,
    division: Division<'_>,
    questions: &mut Questions<'_>,
    points: &mut Vec<Point>,
) -> Result<Option<Vec<u32>>, AllocError> {
    match both_sides(alloc, division, questions, points)? {
        Some(shown) => support_of_both(alloc, origins, at, division.facts, &shown),
        None => Ok(None),
    }
}

/// A multiple of a form, by facts without a denial.
fn divided_by(
    alloc: Global,
    origins: &Origins<'_>,
    at: OnPath,
    division: FormDivision<'_>,
    questions: &mut Questions<'_>,
    points: &mut Vec<Point>,
) -> Result<Option<Vec<u32>>, AllocError> {
    match both_sides_by(alloc, division, questions, points)? {
        Some(shown) => support_of_both(alloc, origins, at, division.facts, &shown),
        None => Ok(None),
    }
}

/// An obligation by its number, what it is about, and the guess that it is of.
#[derive(Clone, Copy)]
struct Target {
    number: usize,
    part: Part,
    guess: u32,
}

/// The guesses that suffice to show a claim of a guess; none where no derivation is found, or a point refutes it.
fn claim_support(
    alloc: Global,
    origins: &Origins<'_>,
    target: Target,
    at: OnPath,
    questions: &mut Questions<'_>,
    points: &mut Vec<Point>,
) -> Result<Option<Vec<u32>>, FindError>
    requires first { 0 < target.number }
    requires last { target.number ≤ length (listed domain origins.now.found.now) }
{
    let Some(candidate) = origins.candidates.get(target.guess as usize) else {
        return Ok(None);
    };
    let Some(claim) = claim_at(origins, at) else {
        return Ok(None);
    };
    match (&claim.goal, &candidate.line) {
        (Goal::Replaced { form, .. } | Goal::AtLeastZero(form), Line::Fact(_)) => {
            if is_denied(form, points.as_slice()) {
                return Ok(None);
            }
            let Some(facts) = facts_of(alloc, origins.found, target.number, Manner::Plainly)? else {
                return Ok(None);
            };
            Ok(asked(
                alloc,
                origins,
                target.part,
                facts.as_slice(),
                questions,
                points,
            )?)
        }
        (Goal::Divided { form, .. }, Line::Multiple { modulus, .. }) => {
            let Some(mut facts) = facts_of(alloc, origins.found, target.number, Manner::ByQuotient)?
            else {
                return Ok(None);
            };
            drop(facts.pop());
            if is_undivided(form, *modulus, points.as_slice()) {
                return Ok(None);
            }
            let known = origins.known_multiples(alloc, at.path)?;
            let division = Division {
                facts: facts.as_slice(),
                form,
                modulus: *modulus,
                known: known.as_slice(),
            };
            Ok(divided(alloc, origins, at, division, questions, points)?)
        }
        (Goal::Divided { form, .. }, Line::MultipleOf { of, .. }) => {
            let Some(mut facts) = facts_of(alloc, origins.found, target.number, Manner::ByQuotient)?
            else {
                return Ok(None);
            };
            drop(facts.pop());
            let known = origins.known_by_form(alloc, at.path, of)?;
            let division = FormDivision {
                facts: facts.as_slice(),
                form,
                of,
                known: known.as_slice(),
            };
            Ok(divided_by(alloc, origins, at, division, questions, points)?)
        }
        _ => Ok(None),
    }
}

/// The obligation of a claim; none where nothing is to be shown.
fn claim_demand(
    alloc: Global,
    origins: &Origins<'_>,
    target: Target,
    at: OnPath,
    questions: &mut Questions<'_>,
    points: &mut Points,
) -> Result<Option<Demand>, FindError>
    requires first { 0 < target.number }
    requires last { target.number ≤ length (listed domain origins.now.found.now) }
{
    if origins.found.is_settled(alloc, target.number)? {
        return Ok(None);
    }
    points.turn_to((at.path, at.path));
    let support = claim_support(alloc, origins, target, at, questions, &mut points.points)?;
    Ok(Some(Demand {
        guess: target.guess,
        support,
    }))
}

/// The guess that items agree on a slot at the barrier where two ends meet.
fn agreement_of(origins: &Origins<'_>, first: OnPath, about: About) -> Option<u32> {
    let slot = match about {
        About::AtLeast(slot) | About::AtMost(slot) => slot,
        About::Never => return None,
    };
    let tagged = origins.found.paths().get(first.path)?;
    let end = tagged.path.ends.get(first.item)?;
    match end.stop {
        Stop::Barrier(_) => {}
        Stop::Head { .. } | Stop::End => return None,
    }
    let to = reached(end.stop, tagged.anchor, origins.sights)?;
    origins.table.places.get(to)?.agreeing(slot)
}

/// The obligation of a guess that items agree on a variable, at two ends; none where the domain settles it.
fn agreement_demand(
    alloc: Global,
    origins: &Origins<'_>,
    target: Target,
    questions: &mut Questions<'_>,
    points: &mut Points,
) -> Result<Option<Demand>, FindError>
    requires first { 0 < target.number }
    requires last { target.number ≤ length (listed domain origins.now.found.now) }
{
    if origins.found.is_settled(alloc, target.number)? {
        return Ok(None);
    }
    let guess = target.guess;
    let Some(facts) = facts_of(alloc, origins.found, target.number, Manner::Plainly)? else {
        return Ok(Some(Demand {
            guess,
            support: None,
        }));
    };
    let found = &mut points.points;
    let support = asked(
        alloc,
        origins,
        target.part,
        facts.as_slice(),
        questions,
        found,
    )?;
    Ok(Some(Demand { guess, support }))
}

/// Whether an obligation was found of a guess that nothing shows; so of what is no guess.
fn is_lacking(lacking: &[bool], guess: u32) -> bool {
    lacking.get(guess as usize).copied().unwrap_or(true)
}

/// The obligation of a number, if it is one of a guess.
fn demand_of(
    alloc: Global,
    origins: &Origins<'_>,
    number: usize,
    lacking: &[bool],
    questions: &mut Questions<'_>,
    points: &mut Points,
) -> Result<Option<Demand>, FindError>
    requires first { 0 < number }
    requires last { number ≤ length (listed domain origins.now.found.now) }
{
    let part = origins.found.part(number);
    match part {
        Part::Claim(at) => {
            let Some((guess, is_second)) = guess_of(origins, at) else {
                return Ok(None);
            };
            if is_second || is_lacking(lacking, guess) {
                return Ok(None);
            }
            let target = Target {
                number,
                part,
                guess,
            };
            claim_demand(alloc, origins, target, at, questions, points)
        }
        Part::Ends { first, about, .. } => {
            let Some(guess) = agreement_of(origins, first, about) else {
                return Ok(None);
            };
            if is_lacking(lacking, guess) {
                return Ok(None);
            }
            let target = Target {
                number,
                part,
                guess,
            };
            agreement_demand(alloc, origins, target, questions, points)
        }
        Part::Accesses { .. } => Ok(None),
    }
}

/// What the obligations of a stretch rest on, and what the search found for them.
#[derive(Drop)]
struct Demanded {
    demands: Vec<Demand>,
    own: Memory,
}

/// Notes that nothing shows an obligation of a guess.
fn note_lacking(lacking: &mut [bool], demand: &Demand) {
    if demand.support.is_none() {
        if let Some(flag) = lacking.get_mut(demand.guess as usize) {
            *flag = true;
        }
    }
}

/// The obligations of guesses in a stretch of all obligations, but those of guesses for which one was found before that nothing shows.
fn demands_in(
    alloc: Global,
    origins: &Origins<'_>,
    stretch: Stretch,
    known_lacking: &[bool],
    memory: &Memory,
) -> Result<Demanded, FindError> {
    let mut questions = Questions::over(alloc, memory)?;
    let mut lacking = Vec::from_slice(alloc, known_lacking)?;
    let mut demands: Vec<Demand> = Vec::new(alloc);
    let mut points = Points {
        of: (usize::MAX, usize::MAX),
        points: Vec::new(alloc),
    };
    let end = stretch.end.min(origins.found.len());
    for i in stretch.first..end {
        let flags = lacking.as_slice();
        let Some(demand) = demand_of(alloc, origins, i + 1, flags, &mut questions, &mut points)?
        else {
            continue;
        };
        note_lacking(lacking.as_mut_slice(), &demand);
        demands.push(demand)?;
    }
    Ok(Demanded {
        demands,
        own: questions.into_own(),
    })
}

/// The obligations of all guesses of a walk, but those of guesses for which one was found that nothing shows. Stretches of obligations are
/// asked side by side, a batch at a time, by so many workers at most; what is found is taken in between batches, in the order of the
/// obligations, so it is the same for each number of workers.
pub fn demands_of<R: Threads + Sync, W: Watcher>(
    rt: &R,
    alloc: Global,
    origins: &Origins<'_>,
    course: &Course<'_, W>,
    memory: &mut Memory,
) -> Result<Vec<Demand>, FindError> {
    let mut demands: Vec<Demand> = Vec::new(alloc);
    let mut lacking = vec![in alloc; false; origins.candidates.len()]?;
    let all = stretches_behind(alloc, origins.found, 0)?;
    let mut sizes = BatchSizes::new();
    let mut begun: usize = 0;
    for _ in 0..all.len() {
        let batch = sizes.next_of(all.as_slice(), begun);
        if batch.is_empty() {
            break;
        }
        course.tell(left_behind(origins.found, batch));
        begun = begun.saturating_add(batch.len());
        let flags = lacking.as_slice();
        let known = &*memory;
        let found = batch
            .par_iter()
            .with_min_len(least_piece(batch.len(), course.workers))
            .map(|stretch: &Stretch| demands_in(alloc, origins, *stretch, flags, known))
            .collect::<Vec<Result<Demanded, FindError>>>(rt, alloc)?;
        for one in found {
            let Demanded { demands: more, own } = one?;
            memory.take(own)?;
            for demand in more {
                note_lacking(lacking.as_mut_slice(), &demand);
                demands.push(demand)?;
            }
        }
    }
    Ok(demands)
}
