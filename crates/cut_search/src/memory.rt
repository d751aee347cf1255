//! A search that remembers.

ghost use Rattle.std.specs.Prelude.{◌≡◌, IfOk, IfSome};
ghost use Rattle.linear.specs.Forms.{forms};
ghost use Rattle.cut_search.specs.Answers.{IsAnswer};

use crate::answer::{Answer, Point};
use crate::divisions::{quotient_reduced, quotients_by};
use crate::equalities::Equalities;
use crate::found::Found;
use crate::hashes::{first_place, hash_of, hash_of_list, hashes_of};
use crate::monomials::have_products;
use crate::point::meets;
use crate::real_points::met_by;
use crate::searching::{search_naming, search_plainly};
use cut_proof::{Derivation, refutes};
use guesses::copied;
use linear::{Form, Symbol};
use std::alloc::{AllocError, Global};
use std::mem::replace;

/// The most answers of a kind that are remembered; then all are forgotten.
const LIMIT: usize = 4096;

/// The most points with the number of a question that are tried, the newest first.
const POINTS: usize = 24;

/// The work after which no more is begun. It counts the facts that are asked about, a search as many times the facts of
/// its list, and products too.
const WORK: u64 = 9_000_000;

/// The work of a search, as a multiple of the facts of its list.
const SEARCH: u64 = 20;

/// A point, and the number of the fact that was denied; of a list with products where these are none at the point, so that products of
/// facts may refute another list, that of all of it.
#[derive(Drop)]
struct Seen {
    key: u64,
    point: Point,
}

/// The numbers of a list: of its last fact, of all of it, and of each fact.
#[derive(Drop)]
struct Numbers {
    key: u64,
    whole: u64,
    each: Vec<u64>,
}

impl Numbers {
    /// The numbers of a list whose facts have these.
    fn of(each: Vec<u64>) -> Numbers {
        Numbers {
            key: each.as_slice().last().copied().unwrap_or(0),
            whole: hash_of_list(each.as_slice()),
            each,
        }
    }

    fn of_facts(alloc: Global, facts: &[Form]) -> Result<Numbers, AllocError> {
        Ok(Numbers::of(hashes_of(alloc, facts)?))
    }

    /// The numbers of facts of these, and of another one behind them.
    fn with_last(first: &Vec<u64>, last: &Form) -> Result<Numbers, AllocError> {
        let mut each = first.clone()?;
        each.push(hash_of(last))?;
        Ok(Numbers::of(each))
    }
}

/// The answers found so far: derivations, points, and the hashes of lists of which neither was found; whether derivations may have
/// products, and the slots of variables that their lemmas cannot name.
#[derive(Drop)]
pub struct Memory {
    multiplies: bool,
    unnamed: Vec<u64>,
    found: Vec<Found>,
    points: Vec<Seen>,
    undecided: Vec<u64>,
    searches: usize,
    work: u64,
}

impl Memory {
    /// A memory without answers, of a search with products of facts or without.
    pub fn new(alloc: Global, multiplies: bool) -> Memory {
        Memory::naming(alloc, multiplies, Vec::new(alloc))
    }

    /// A memory without answers, of a search whose lemmas name no variable of the slots.
    pub fn naming(alloc: Global, multiplies: bool, unnamed: Vec<u64>) -> Memory {
        Memory {
            multiplies,
            unnamed,
            found: Vec::new(alloc),
            points: Vec::new(alloc),
            undecided: Vec::new(alloc),
            searches: 0,
            work: 0,
        }
    }

    /// Counts work: so many facts were gone over.
    pub fn count(&mut self, facts: usize) {
        self.work = self.work.saturating_add(facts as u64);
    }

    /// So much work was done that a search does not begin another attempt. It is counted, not timed, so it is the same on each machine.
    pub fn is_spent(&self) -> bool {
        self.work >= WORK
    }

    /// The number of questions that were not answered from memory.
    pub fn searches(&self) -> usize {
        self.searches
    }

    /// Takes in what was found beside it, in that order.
    pub fn take(&mut self, own: Memory) -> Result<(), AllocError> {
        let Memory {
            found,
            points,
            undecided,
            searches,
            work,
            ..
        } = own;
        self.searches = self.searches.saturating_add(searches);
        self.work = self.work.saturating_add(work);
        for one in found {
            self.push_found(one)?;
        }
        for seen in points {
            self.keep_point(seen.key, seen.point)?;
        }
        for whole in undecided {
            self.keep_undecided(whole)?;
        }
        Ok(())
    }

    /// A derivation that refutes the facts, or whole numbers that meet them all, remembered or searched for. The last fact is
    /// the denial of what is to be shown; of equal facts a derivation names the first.
    pub fn ask(&mut self, alloc: Global, facts: &[Form]) -> Result<Answer, AllocError>
        ensures { IfOk result (λ a. IsAnswer (forms facts.now) a) }
    {
        self.count(facts.len());
        let numbers = Numbers::of_facts(alloc, facts)?;
        if let Some(answer) = self.recall(alloc, facts, &numbers)? {
            return Ok(answer);
        }
        self.seek(alloc, facts, &numbers)?;
        self.recall_found(alloc, facts, &numbers)
    }

    /// The remembered answer to a list of facts that was just searched; undecided where none is remembered.
    fn recall_found(
        &self,
        alloc: Global,
        facts: &[Form],
        numbers: &Numbers,
    ) -> Result<Answer, AllocError>
        ensures { IfOk result (λ a. IsAnswer (forms facts.now) a) }
    {
        match self.recall(alloc, facts, numbers)? {
            Some(answer) => Ok(answer),
            None => Ok(Answer::Undecided),
        }
    }

    /// The remembered answer to a list of facts: a derivation that still refutes them, that nothing was found, or a point; none where none
    /// is.
    fn recall(
        &self,
        alloc: Global,
        facts: &[Form],
        numbers: &Numbers,
    ) -> Result<Option<Answer>, AllocError>
        ensures { IfOk result (λ r. IfSome r (λ a. IsAnswer (forms facts.now) a)) }
    {
        if let Some(answer) = self.recall_proof(alloc, facts, numbers)? {
            return Ok(Some(answer));
        }
        if self.undecided.as_slice().contains(&numbers.whole) {
            return Ok(Some(Answer::Undecided));
        }
        self.recall_point(alloc, facts, numbers)
    }

    fn recall_proof(
        &self,
        alloc: Global,
        facts: &[Form],
        numbers: &Numbers,
    ) -> Result<Option<Answer>, AllocError>
        ensures { IfOk result (λ r. IfSome r (λ a. IsAnswer (forms facts.now) a)) }
    {
        for found in self.found.as_slice() {
            if let Some(derivation) = found.over(alloc, numbers.key, numbers.each.as_slice())? {
                let answer = checked_proof(alloc, facts, derivation)?;
                if answer.is_some() {
                    return Ok(answer);
                }
            }
        }
        Ok(None)
    }

    /// Products of these facts are products.
    fn is_of_products(&self, facts: &[Form]) -> bool {
        self.multiplies && have_products(facts)
    }

    /// The point as one that may answer for these facts: with the values of their products, but where it is remembered of this whole list.
    fn point_for(
        &self,
        alloc: Global,
        facts: &[Form],
        seen: &Seen,
        numbers: &Numbers,
    ) -> Result<Option<Point>, AllocError> {
        if seen.key == numbers.whole || (seen.key == numbers.key && !self.is_of_products(facts)) {
            Ok(Some(seen.point.clone()?))
        } else if seen.key == numbers.key {
            met_by(alloc, facts, seen.point.as_slice())
        } else {
            Ok(None)
        }
    }

    fn recall_point(
        &self,
        alloc: Global,
        facts: &[Form],
        numbers: &Numbers,
    ) -> Result<Option<Answer>, AllocError>
        ensures { IfOk result (λ r. IfSome r (λ a. IsAnswer (forms facts.now) a)) }
    {
        let mut tried: usize = 0;
        for seen in self.points.iter().rev() {
            if tried >= POINTS {
                return Ok(None);
            }
            if seen.key == numbers.key || seen.key == numbers.whole {
                tried += 1;
                if let Some(point) = self.point_for(alloc, facts, seen, numbers)? {
                    let answer = checked_point(facts, point);
                    if answer.is_some() {
                        return Ok(answer);
                    }
                }
            }
        }
        Ok(None)
    }

    /// Searches, and remembers what is found.
    fn seek(&mut self, alloc: Global, facts: &[Form], numbers: &Numbers) -> Result<(), AllocError> {
        self.searches = self.searches.saturating_add(1);
        self.work = self
            .work
            .saturating_add((facts.len() as u64).saturating_mul(SEARCH));
        let distinct = distinct_of(alloc, facts, numbers.each.as_slice())?;
        let mut work = 0;
        let answer = self.search(alloc, distinct.facts.as_slice(), &mut work)?;
        self.work = self.work.saturating_add(work);
        match answer {
            Answer::Proof(derivation) => self.keep_proof(alloc, numbers.key, &distinct, derivation),
            Answer::Model(point) => {
                let key = self.point_key(alloc, facts, numbers, point.as_slice())?;
                self.keep_point(key, point)
            }
            Answer::Undecided => self.keep_undecided(numbers.whole),
        }
    }

    /// The number by which a point is found again: that of the last fact, where products are products at it.
    fn point_key(
        &self,
        alloc: Global,
        facts: &[Form],
        numbers: &Numbers,
        point: &[(Symbol, i64)],
    ) -> Result<u64, AllocError> {
        if self.is_of_products(facts) && met_by(alloc, facts, point)?.is_none() {
            Ok(numbers.whole)
        } else {
            Ok(numbers.key)
        }
    }

    fn search(&self, alloc: Global, facts: &[Form], work: &mut u64) -> Result<Answer, AllocError> {
        if self.multiplies {
            search_naming(alloc, facts, self.unnamed.as_slice(), work)
        } else {
            search_plainly(alloc, facts)
        }
    }

    fn keep_proof(
        &mut self,
        alloc: Global,
        key: u64,
        distinct: &Distinct,
        derivation: Derivation,
    ) -> Result<(), AllocError> {
        let found = Found::new(alloc, key, distinct.hashes.as_slice(), derivation)?;
        self.push_found(found)
    }

    fn push_found(&mut self, found: Found) -> Result<(), AllocError> {
        if self.found.len() >= LIMIT {
            self.found.clear();
        }
        self.found.push(found)?;
        Ok(())
    }

    fn keep_point(&mut self, key: u64, point: Point) -> Result<(), AllocError> {
        if self.points.len() >= LIMIT {
            self.points.clear();
        }
        self.points.push(Seen { key, point })?;
        Ok(())
    }

    fn keep_undecided(&mut self, whole: u64) -> Result<(), AllocError> {
        if self.undecided.len() >= LIMIT {
            self.undecided.clear();
        }
        self.undecided.push(whole)?;
        Ok(())
    }
}

/// Questions beside a memory that others read too: it is asked first, and what is found is kept apart, until the memory takes it in. So
/// what is found does not depend on what others find meanwhile. The last facts to which a denial was added are at hand, with their number,
/// and the equalities that they hold, once these were asked for.
#[derive(Drop)]
pub struct Questions<'a> {
    known: &'a Memory,
    own: Memory,
    held: u64,
    facts: Vec<Form>,
    each: Vec<u64>,
    equalities: Option<Equalities>,
}

impl<'a> Questions<'a> {
    /// Questions of which none was asked.
    pub fn over(alloc: Global, known: &'a Memory) -> Result<Questions<'a>, AllocError> {
        let unnamed = known.unnamed.clone()?;
        Ok(Questions {
            known,
            own: Memory::naming(alloc, known.multiplies, unnamed),
            held: 0,
            facts: Vec::new(alloc),
            each: Vec::new(alloc),
            equalities: None,
        })
    }

    /// The answers that were found, as a memory.
    pub fn into_own(self) -> Memory {
        self.own
    }

    /// A derivation that refutes the facts, or whole numbers that meet them all, remembered or searched for, as of a memory.
    pub fn ask(&mut self, alloc: Global, facts: &[Form]) -> Result<Answer, AllocError>
        ensures { IfOk result (λ a. IsAnswer (forms facts.now) a) }
    {
        let numbers = Numbers::of_facts(alloc, facts)?;
        self.answer(alloc, facts, &numbers)
    }

    /// The answer to facts of these numbers.
    fn answer(
        &mut self,
        alloc: Global,
        facts: &[Form],
        numbers: &Numbers,
    ) -> Result<Answer, AllocError>
        ensures { IfOk result (λ a. IsAnswer (forms facts.now) a) }
    {
        self.own.count(facts.len());
        if let Some(answer) = self.known.recall(alloc, facts, numbers)? {
            return Ok(answer);
        }
        if let Some(answer) = self.own.recall(alloc, facts, numbers)? {
            return Ok(answer);
        }
        self.own.seek(alloc, facts, numbers)?;
        self.own.recall_found(alloc, facts, numbers)
    }

    /// Has these facts at hand.
    fn hold(&mut self, alloc: Global, facts: &[Form]) -> Result<(), AllocError> {
        let each = hashes_of(alloc, facts)?;
        let whole = hash_of_list(each.as_slice());
        if self.held == whole && self.facts.len() == facts.len() {
            return Ok(());
        }
        self.each = each;
        self.facts.clear();
        for fact in facts {
            self.facts.push(copied(alloc, fact)?)?;
        }
        self.held = whole;
        self.equalities = None;
        Ok(())
    }

    /// Has the equalities of these facts at hand.
    fn hold_equalities(&mut self, alloc: Global, facts: &[Form]) -> Result<(), AllocError> {
        self.hold(alloc, facts)?;
        if self.equalities.is_none() {
            self.equalities = Some(Equalities::of_facts(alloc, facts)?);
        }
        Ok(())
    }

    /// The answer of `ask` to these facts and a denial behind them.
    pub fn ask_denied(
        &mut self,
        alloc: Global,
        facts: &[Form],
        denial: Form,
    ) -> Result<Answer, AllocError> {
        self.hold(alloc, facts)?;
        let numbers = Numbers::with_last(&self.each, &denial)?;
        let mut list = replace(&mut self.facts, Vec::new(alloc));
        list.push(denial)?;
        let answer = self.answer(alloc, list.as_slice(), &numbers)?;
        drop(list.pop());
        self.facts = list;
        Ok(answer)
    }

    /// The quotient of a form by a number with the equalities put in that the facts hold; none where the number does not divide it.
    pub fn quotient(
        &mut self,
        alloc: Global,
        facts: &[Form],
        form: &Form,
        modulus: u64,
    ) -> Result<Option<Form>, AllocError> {
        self.hold_equalities(alloc, facts)?;
        match &self.equalities {
            Some(equalities) => quotient_reduced(alloc, equalities, form, modulus),
            None => Ok(None),
        }
    }

    /// Quotients of a form by another one, the best first, by facts and the multiples of that one known where the path begins.
    pub fn quotients_by(
        &mut self,
        alloc: Global,
        facts: &[Form],
        form: &Form,
        of: &Form,
        known: &[(u32, Form)],
    ) -> Result<Vec<Form>, AllocError> {
        self.hold_equalities(alloc, facts)?;
        match &self.equalities {
            Some(equalities) => quotients_by(alloc, equalities, form, of, known),
            None => Ok(Vec::new(alloc)),
        }
    }
}

/// Facts of a list, each once, and their numbers.
#[derive(Drop)]
struct Distinct {
    facts: Vec<Form>,
    hashes: Vec<u64>,
}

/// A list without what is repeated.
fn distinct_of(alloc: Global, facts: &[Form], hashes: &[u64]) -> Result<Distinct, AllocError> {
    let mut distinct = Distinct {
        facts: Vec::new(alloc),
        hashes: Vec::new(alloc),
    };
    for (fact, hash) in facts.iter().zip(hashes) {
        if first_place(distinct.hashes.as_slice(), *hash).is_none() {
            distinct.facts.push(copied(alloc, fact)?)?;
            distinct.hashes.push(*hash)?;
        }
    }
    Ok(distinct)
}

/// The answer that is a derivation; none where it does not refute the facts.
fn checked_proof(
    alloc: Global,
    facts: &[Form],
    derivation: Derivation,
) -> Result<Option<Answer>, AllocError>
    ensures { IfOk result (λ r. IfSome r (λ a. IsAnswer (forms facts.now) a)) }
{
    if refutes(alloc, facts, &derivation)? {
        Ok(Some(Answer::Proof(derivation)))
    } else {
        Ok(None)
    }
}

/// The answer that is a point; none where it does not meet the facts.
fn checked_point(facts: &[Form], point: Point) -> Option<Answer>
    ensures { IfSome result (λ a. IsAnswer (forms facts.now) a) }
{
    if meets(facts, point.as_slice()) {
        Some(Answer::Model(point))
    } else {
        None
    }
}
