//! Decides one list of facts: by a sum alone, then by cuts, and by a dive now and then.

use super::answer::{Answer, Point};
use super::congruences::{moduli_of, several};
use super::cuts::{Cuts, cut};
use super::dive::dive;
use super::sums::enter_sums;
use super::whole::{is_whole, point_of};
use super::writing::{derive, derive_given};
use crate::stop::Stop;
use crate::tableau::{PIVOTS, Part, Tableau};
use cut_proof::Derivation;
use linear::Fact;
use std::alloc::{AllocError, Global};

/// The most times that the tableau is solved, with cuts made between.
pub const ROUNDS: u32 = 40;

/// Facts that several lists begin with, taken in and solved.
#[derive(Drop)]
pub struct Prepared {
    tableau: Tableau,
    count: usize,
}

impl Prepared {
    /// A tableau that has taken in no facts.
    pub fn new(alloc: Global) -> Prepared {
        Prepared {
            tableau: Tableau::new(alloc),
            count: 0,
        }
    }

    /// A solved tableau of these facts, or one of no facts where solving is given up.
    pub fn of_facts(alloc: Global, facts: &[Fact]) -> Result<Prepared, AllocError> {
        match solved(alloc, facts) {
            Ok(tableau) => Ok(Prepared {
                tableau,
                count: facts.len(),
            }),
            Err(Stop::GivenUp) => Ok(Prepared::new(alloc)),
            Err(Stop::Memory) => Err(AllocError),
        }
    }

    /// Decides a list that begins with the facts that are prepared.
    pub fn decide(&self, alloc: Global, facts: &[Fact]) -> Result<Answer, Stop> {
        let tableau = self.tableau.copy(alloc, PIVOTS)?;
        decide_from(alloc, tableau, facts, self.count)
    }
}

/// Decides a list with other steps, each by the first row and variable.
fn decide_orderly(alloc: Global, facts: &[Fact]) -> Result<Answer, Stop> {
    decide_from(alloc, Tableau::orderly(alloc), facts, 0)
}

/// Decides a list with sums of two facts taken in before anything else.
fn decide_by_sums(alloc: Global, start: Tableau, facts: &[Fact]) -> Result<Answer, Stop> {
    let mut tableau = start;
    if let Some(number) = enter_all(alloc, &mut tableau, facts, 0)? {
        return Ok(Answer::Proof(derive_given(alloc, number)?));
    }
    match enter_sums(alloc, &mut tableau, facts)? {
        Some(parts) => proof(alloc, &tableau, parts.as_slice()),
        None => conclude(alloc, facts, tableau, ROUNDS),
    }
}

/// Decides a list without the congruences of all moduli but one.
fn decide_with_one(
    alloc: Global,
    facts: &[Fact],
    moduli: &[Option<u64>],
    modulus: u64,
) -> Result<Answer, Stop> {
    let mut tableau = Tableau::new(alloc);
    for (place, of_fact) in moduli.iter().enumerate() {
        if of_fact.is_none_or(|own| own == modulus) {
            if let Some(number) = enter_one(alloc, &mut tableau, facts, place)? {
                return Ok(Answer::Proof(derive_given(alloc, number)?));
            }
        }
    }
    conclude(alloc, facts, tableau, ROUNDS)
}

/// Decides a list by what it says with the congruences of one modulus alone.
fn decide_by_modulus(alloc: Global, facts: &[Fact]) -> Result<Answer, Stop> {
    let moduli = moduli_of(alloc, facts)?;
    for modulus in several(alloc, moduli.as_slice())? {
        match decide_with_one(alloc, facts, moduli.as_slice(), modulus) {
            Ok(Answer::Proof(derivation)) => return Ok(Answer::Proof(derivation)),
            Err(Stop::Memory) => return Err(Stop::Memory),
            _ => {}
        }
    }
    Err(Stop::GivenUp)
}

/// The most pivots, and the most rounds of cuts, for a list that is decided soon or not at all.
const SOON_PIVOTS: u32 = 200;

const SOON_ROUNDS: u32 = 9;

/// Decides a list with few steps.
pub fn decide_soon(alloc: Global, facts: &[Fact]) -> Result<Answer, Stop> {
    let mut tableau = Tableau::new(alloc).copy(alloc, SOON_PIVOTS)?;
    match enter_all(alloc, &mut tableau, facts, 0)? {
        Some(number) => Ok(Answer::Proof(derive_given(alloc, number)?)),
        None => conclude(alloc, facts, tableau, SOON_ROUNDS),
    }
}

/// Decides a list that was given up, in other ways.
pub fn decide_otherwise(alloc: Global, facts: &[Fact]) -> Result<Answer, Stop> {
    let mut outcome = decide_orderly(alloc, facts);
    if let Err(Stop::GivenUp) = outcome {
        outcome = decide_by_sums(alloc, Tableau::new(alloc), facts);
    }
    if let Err(Stop::GivenUp) = outcome {
        outcome = decide_by_sums(alloc, Tableau::orderly(alloc), facts);
    }
    if let Err(Stop::GivenUp) = outcome {
        outcome = decide_by_modulus(alloc, facts);
    }
    outcome
}

/// Takes in the facts behind the first `count`, and decides.
fn decide_from(
    alloc: Global,
    start: Tableau,
    facts: &[Fact],
    count: usize,
) -> Result<Answer, Stop> {
    let mut tableau = start;
    match enter_all(alloc, &mut tableau, facts, count)? {
        Some(number) => Ok(Answer::Proof(derive_given(alloc, number)?)),
        None => conclude(alloc, facts, tableau, ROUNDS),
    }
}

/// The tableau of facts that are in common.
fn solved(alloc: Global, facts: &[Fact]) -> Result<Tableau, Stop> {
    let mut tableau = Tableau::new(alloc);
    if enter_all(alloc, &mut tableau, facts, 0)?.is_some() {
        return Err(Stop::GivenUp);
    }
    let _parts = tableau.solve(alloc)?;
    Ok(tableau)
}

/// Takes in the facts behind the first `count`, or answers the number of one that is a constant below 0.
pub fn enter_all(
    alloc: Global,
    tableau: &mut Tableau,
    facts: &[Fact],
    count: usize,
) -> Result<Option<u32>, Stop> {
    for place in count..facts.len() {
        let number = enter_one(alloc, tableau, facts, place)?;
        if number.is_some() {
            return Ok(number);
        }
    }
    Ok(None)
}

/// Takes in the fact at a place of the list, or answers its number where it is a constant below 0.
fn enter_one(
    alloc: Global,
    tableau: &mut Tableau,
    facts: &[Fact],
    place: usize,
) -> Result<Option<u32>, Stop> {
    let (Some(fact), Ok(number)) = (facts.get(place), u32::try_from(place.saturating_add(1))) else {
        return Err(Stop::GivenUp);
    };
    if !fact.terms().is_empty() {
        tableau.enter_fact(alloc, number, fact)?;
    } else if fact.constant_part() < 0 {
        return Ok(Some(number));
    }
    Ok(None)
}

/// Whether a dive is made in this round.
fn dives(round: u32) -> bool {
    matches!(round, 8 | 24)
}

/// A whole point: the tableau's own, or in some rounds one near it.
fn whole_point(alloc: Global, tableau: &Tableau, round: u32) -> Result<Option<Point>, Stop> {
    let own = point_of(alloc, tableau.solved.as_slice())?;
    if own.is_some() || !dives(round) {
        return Ok(own);
    }
    dive(alloc, tableau)
}

/// Solves the tableau, so many times at most, and makes cuts while its point is not whole.
pub fn conclude(
    alloc: Global,
    facts: &[Fact],
    start: Tableau,
    rounds: u32,
) -> Result<Answer, Stop> {
    let mut tableau = start;
    for round in 0..rounds {
        if let Some(parts) = tableau.solve(alloc)? {
            return proof(alloc, &tableau, parts.as_slice());
        }
        if let Some(point) = whole_point(alloc, &tableau, round)? {
            return Ok(Answer::Model(point));
        }
        match cut(alloc, &mut tableau, facts)? {
            Cuts::Made => {}
            Cuts::Refuting(parts) => return proof(alloc, &tableau, parts.as_slice()),
            Cuts::Exhausted => return last_dive(alloc, &tableau),
        }
    }
    Err(Stop::GivenUp)
}

/// Solves the tableau, and makes cuts where its point is not whole.
fn next_round(alloc: Global, tableau: &mut Tableau, facts: &[Fact]) -> Result<Cuts, Stop> {
    match tableau.solve(alloc)? {
        Some(parts) => Ok(Cuts::Refuting(parts)),
        None if is_whole(tableau.solved.as_slice()) => Ok(Cuts::Exhausted),
        None => cut(alloc, tableau, facts),
    }
}

/// A derivation that refutes the tableau's facts, with so many rounds of cuts at most; none where a whole point meets them all, or nothing
/// is left to cut. No point is sought.
pub fn refuted(
    alloc: Global,
    facts: &[Fact],
    start: Tableau,
    rounds: u32,
) -> Result<Option<Derivation>, Stop> {
    let mut tableau = start;
    for _ in 0..rounds {
        match next_round(alloc, &mut tableau, facts)? {
            Cuts::Made => {}
            Cuts::Exhausted => return Ok(None),
            Cuts::Refuting(parts) => {
                let origins = tableau.origins.as_slice();
                return Ok(Some(derive(alloc, origins, parts.as_slice())?));
            }
        }
    }
    Ok(None)
}

fn last_dive(alloc: Global, tableau: &Tableau) -> Result<Answer, Stop> {
    match dive(alloc, tableau)? {
        Some(point) => Ok(Answer::Model(point)),
        None => Err(Stop::GivenUp),
    }
}

fn proof(alloc: Global, tableau: &Tableau, parts: &[Part]) -> Result<Answer, Stop> {
    let derivation = derive(alloc, tableau.origins.as_slice(), parts)?;
    Ok(Answer::Proof(derivation))
}
