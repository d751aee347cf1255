//! What a loop's form is at most: where it opens, or, where it doubles, at its true tests.

use cut_search::{Answer, Memory, Questions};
use domain::Elements;
use guess_walk::facts_of;
use guesses::{Ranking, copied, plus};
use linear::{Form, Symbol};
use path_steps::{Goal, Sort};
use std::alloc::Global;
use two_thread::{Manner, Obligations, Part};
use walk::FindError;

/// A limit that no loop's form passes by half where it has one: walks that look for the least ones have it in the place of them.
pub const UNLIMITED: i64 = 1 << 48;

/// A question: the facts at an opening, or at a true test of what doubles, the last one that the form passes `UNLIMITED`.
#[derive(Drop)]
struct Opening {
    facts: Vec<Form>,
}

/// An obligation is the claim that the ranking of the loop of this number is at most `UNLIMITED`, which stands where the loop opens, or,
/// where the ranking doubles, at each true test.
fn is_opening(found: &Obligations<Elements>, part: Part, number: u32) -> bool {
    let Part::Claim(at) = part else {
        return false;
    };
    let Some(tagged) = found.paths().get(at.path) else {
        return false;
    };
    let Some(claim) = tagged.path.claims.get(at.item) else {
        return false;
    };
    if claim.spot.statement != number {
        return false;
    }
    match (claim.sort, &claim.goal) {
        (Sort::OfRanking, Goal::Replaced { form, .. }) => form.constant_part() > UNLIMITED / 2,
        _ => false,
    }
}

/// The facts of each obligation that limits a loop's ranking.
fn openings_of(
    alloc: Global,
    found: &Obligations<Elements>,
    number: u32,
) -> Result<Vec<Opening>, FindError> {
    let mut openings = Vec::new(alloc);
    for i in 0..found.len() {
        let part = found.part(i + 1);
        if !is_opening(found, part, number) {
            continue;
        }
        if let Some(facts) = facts_of(alloc, found, i + 1, Manner::Plainly)? {
            openings.push(Opening { facts })?;
        }
    }
    Ok(openings)
}

fn value_at(point: &[(Symbol, i64)], symbol: Symbol) -> i64 {
    for entry in point {
        if entry.0 == symbol {
            return entry.1;
        }
    }
    0
}

fn value_of(form: &Form, point: &[(Symbol, i64)]) -> Option<i64> {
    let mut sum = form.constant_part();
    for term in form.terms() {
        let product = term.coefficient.checked_mul(value_at(point, term.symbol))?;
        sum = sum.checked_add(product)?;
    }
    Some(sum)
}

/// Whether the form may pass a limit at an opening: what it may be, at least.
#[derive(Clone, Copy)]
enum Passing {
    Never,
    To(i64),
    Perhaps,
}

/// The facts with another limit in the last one.
fn limited(alloc: Global, facts: &[Form], limit: i64) -> Result<Option<Vec<Form>>, FindError> {
    let mut list = Vec::new(alloc);
    let Some(count) = facts.len().checked_sub(1) else {
        return Ok(None);
    };
    for fact in &facts[..count] {
        list.push(copied(alloc, fact)?)?;
    }
    let Some(last) = plus(alloc, &facts[count], UNLIMITED.saturating_sub(limit))? else {
        return Ok(None);
    };
    list.push(last)?;
    Ok(Some(list))
}

/// The form may pass a limit at one opening.
fn passes_at(
    alloc: Global,
    opening: &Opening,
    limit: i64,
    questions: &mut Questions<'_>,
) -> Result<Passing, FindError> {
    let Some(facts) = limited(alloc, opening.facts.as_slice(), limit)? else {
        return Ok(Passing::Perhaps);
    };
    match questions.ask(alloc, facts.as_slice())? {
        Answer::Proof(_) => Ok(Passing::Never),
        Answer::Undecided => Ok(Passing::Perhaps),
        Answer::Model(point) => {
            let over = facts
                .last()
                .and_then(|last| value_of(last, point.as_slice()));
            match over {
                // (the last fact is the form less the limit and one)
                Some(over) => Ok(Passing::To(over.saturating_add(limit).saturating_add(1))),
                None => Ok(Passing::Perhaps),
            }
        }
    }
}

/// Whether the form of a loop passes a limit at one of its openings, as far as a search tells.
fn passes_somewhere(
    alloc: Global,
    openings: &[Opening],
    limit: i64,
    questions: &mut Questions<'_>,
) -> Result<Passing, FindError> {
    for opening in openings {
        match passes_at(alloc, opening, limit, questions)? {
            Passing::Never => {}
            found => return Ok(found),
        }
    }
    Ok(Passing::Never)
}

/// The least limit from `low` to `high` that is shown, `high` being shown; 128 questions at most, where half as many are enough.
fn least_between(
    alloc: Global,
    openings: &[Opening],
    low: i64,
    high: i64,
    questions: &mut Questions<'_>,
) -> Result<i64, FindError> {
    let mut low = low;
    let mut high = high;
    for _ in 0..128 {
        if low >= high {
            return Ok(high);
        }
        let middle = low.saturating_add(high.saturating_sub(low) / 2);
        match passes_somewhere(alloc, openings, middle, questions)? {
            Passing::Never => high = middle,
            Passing::To(value) => low = value.max(middle.saturating_add(1)),
            Passing::Perhaps => low = middle.saturating_add(1),
        }
    }
    Ok(high)
}

/// The least limit that a loop's form is shown not to pass where it has one; none where no limit is shown.
fn least_limit(
    alloc: Global,
    openings: &[Opening],
    questions: &mut Questions<'_>,
) -> Result<Option<i64>, FindError> {
    let mut low = 0;
    // Each point tells a value that the form may have; mostly the first ones tell the greatest.
    for _ in 0..8 {
        match passes_somewhere(alloc, openings, low, questions)? {
            Passing::Never => return Ok(Some(low)),
            Passing::To(value) => low = value.max(low.saturating_add(1)),
            Passing::Perhaps => break,
        }
    }
    let high = UNLIMITED / 4;
    match passes_somewhere(alloc, openings, high, questions)? {
        Passing::Never => Ok(Some(least_between(alloc, openings, low.min(high), high, questions)?)),
        Passing::To(_) | Passing::Perhaps => Ok(None),
    }
}

/// The least limits that are shown, of a walk in which each is `UNLIMITED`; of a loop of which none is shown, 0.
pub fn least_limits(
    alloc: Global,
    found: &Obligations<Elements>,
    rankings: &[Ranking],
    memory: &mut Memory,
) -> Result<Vec<i64>, FindError> {
    let mut limits = Vec::new(alloc);
    let mut questions = Questions::over(alloc, memory)?;
    for ranking in rankings {
        let openings = openings_of(alloc, found, ranking.number)?;
        let limit = least_limit(alloc, openings.as_slice(), &mut questions)?;
        limits.push(limit.unwrap_or(0))?;
    }
    let own = questions.into_own();
    memory.take(own)?;
    Ok(limits)
}
