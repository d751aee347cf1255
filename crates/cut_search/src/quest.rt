//! The search with products of facts, and lemmas.

use crate::answer::Answer;
use crate::deciding::{ROUNDS, enter_all, refuted};
use crate::hashes::{first_place, hash_of};
use crate::monomials::have_products;
use crate::multiplying::{LARGE, MIDDLE, leave_some};
use crate::pool::Pool;
use crate::proving::{finished, over_known};
use crate::real_points::real_point;
use crate::stop::Stop;
use crate::tableau::{PIVOTS, Tableau};
use crate::writing::{derive, derive_given, plain};
use cut_proof::{Derivation, Lemma, Line};
use guesses::{plus, try_multiple};
use linear::{Fact, Form};
use std::alloc::{AllocError, Global};

/// The most times that lemmas are tried anew with those that are shown.
const TURNS: u32 = 5;

/// The most lemmas that are tried each time.
const LEMMAS: usize = 44;

/// The most times that the tableau of a lemma is solved, and the most pivots of it.
const LEMMA_ROUNDS: u32 = 10;

const LEMMA_PIVOTS: u32 = 600;

/// The most pivots of the last try.
const LAST_PIVOTS: u32 = 500;

/// As how much work each form of a tableau counts that is solved.
const WORK: u64 = 25;

/// As how much work a tableau of so many forms counts.
fn work_of(forms: usize) -> u64 {
    (forms as u64).saturating_mul(WORK)
}

/// Facts with products and the lemmas shown so far, and a tableau of the first `entered` forms of the pool, solved.
#[derive(Drop)]
struct Quest {
    count: usize,
    pool: Pool,
    tableau: Tableau,
    lemmas: Vec<Lemma>,
    tried: Vec<u64>,
    work: u64,
}

/// The result of a step: lines that refute, over the numbers of the pool's forms.
type Lines = Option<Vec<Line>>;

/// The lines of a derivation.
fn lines_of(derivation: Option<Derivation>) -> Lines {
    match derivation {
        Some(derivation) => Some(derivation.lines),
        None => None,
    }
}

/// Takes a search that was given up as one that found nothing.
fn found_or_not(outcome: Result<Lines, Stop>) -> Result<Lines, AllocError> {
    match outcome {
        Ok(lines) => Ok(lines),
        Err(Stop::GivenUp) => Ok(None),
        Err(Stop::Memory) => Err(AllocError),
    }
}

/// Takes in the forms behind the first `from`, and solves the tableau.
fn enter(alloc: Global, tableau: &mut Tableau, forms: &[Form], from: usize) -> Result<Lines, Stop> {
    if let Some(number) = enter_all(alloc, tableau, forms, from)? {
        let derivation = derive_given(alloc, number)?;
        return Ok(Some(derivation.lines));
    }
    match tableau.solve(alloc)? {
        Some(parts) => {
            let derivation = derive(alloc, tableau.origins.as_slice(), parts.as_slice())?;
            Ok(Some(derivation.lines))
        }
        None => Ok(None),
    }
}

/// The form that is at least 0 exactly where this one is not; none where a number is too large.
fn denial_of(alloc: Global, form: &Form) -> Result<Option<Form>, AllocError> {
    match try_multiple(alloc, form, -1)? {
        Some(opposite) => plus(alloc, &opposite, -1),
        None => Ok(None),
    }
}

/// The result of a lemma's trial: it is not shown, it is, or with it all is refuted by these lines over the facts and
/// lemmas.
#[derive(Drop)]
enum Tried {
    Failed,
    Shown,
    Refuting(Vec<Line>),
}

impl Quest {
    /// Lines that refute the facts with the lemmas, by cuts.
    fn conclude(&self, alloc: Global) -> Result<Lines, Stop> {
        let tableau = self.tableau.copy(alloc, PIVOTS)?;
        let found = refuted(alloc, self.pool.forms.as_slice(), tableau, ROUNDS)?;
        Ok(lines_of(found))
    }

    /// Lines that refute the denial of a form, which the pool has with its products as the last ones.
    fn refuted(&self, alloc: Global, pool: &Pool) -> Result<Lines, Stop> {
        let mut tableau = self.tableau.copy(alloc, LEMMA_PIVOTS)?;
        let forms = pool.forms.as_slice();
        let found = enter(alloc, &mut tableau, forms, self.pool.forms.len())?;
        if found.is_some() {
            return Ok(found);
        }
        let found = refuted(alloc, forms, tableau, LEMMA_ROUNDS)?;
        Ok(lines_of(found))
    }

    /// Lines that show a form, over the facts and lemmas and the form's denial.
    fn lemma_lines(&self, alloc: Global, form: &Form) -> Result<Lines, Stop> {
        let Some(denial) = denial_of(alloc, form)? else {
            return Ok(None);
        };
        let mut pool = self.pool.copy(alloc)?;
        pool.add(alloc, &denial)?;
        let lines = found_or_not(self.refuted(alloc, &pool))?;
        written(alloc, &pool, lines)
    }

    /// Takes in a lemma that is shown; lines that refute, over the pool, where that leaves nothing.
    fn take(&mut self, alloc: Global, form: Form, lines: Vec<Line>) -> Result<Lines, Stop> {
        let from = self.pool.forms.len();
        self.pool.add(alloc, &form)?;
        self.lemmas.push(Lemma { form, lines })?;
        let mut tableau = self.tableau.copy(alloc, PIVOTS)?;
        match enter(alloc, &mut tableau, self.pool.forms.as_slice(), from) {
            Ok(found) => {
                self.tableau = tableau;
                Ok(found)
            }
            // (where it cannot be solved with the lemma, it stays without it)
            Err(Stop::GivenUp) => Ok(None),
            Err(Stop::Memory) => Err(Stop::Memory),
        }
    }

    /// Tries a form as a lemma, unless it was tried since the last one was shown.
    fn try_lemma(&mut self, alloc: Global, form: Form) -> Result<Tried, Stop> {
        let hash = hash_of(&form);
        if first_place(self.tried.as_slice(), hash).is_some() {
            return Ok(Tried::Failed);
        }
        self.tried.push(hash)?;
        self.work = self.work.saturating_add(work_of(self.pool.forms.len()));
        let Some(lines) = self.lemma_lines(alloc, &form)? else {
            return Ok(Tried::Failed);
        };
        self.tried.clear();
        let found = self.take(alloc, form, lines)?;
        match written(alloc, &self.pool, found)? {
            Some(lines) => Ok(Tried::Refuting(lines)),
            None => Ok(Tried::Shown),
        }
    }

    /// Tries what may be lemmas, each once.
    fn turn(&mut self, alloc: Global) -> Result<Tried, Stop> {
        let mut turn = Tried::Failed;
        let menu = self.pool.menu(alloc, LEMMAS)?;
        for form in menu.into_iter().take(LEMMAS) {
            let Some(form) = self.pool.said(alloc, form)? else {
                continue;
            };
            match self.try_lemma(alloc, form)? {
                Tried::Failed => {}
                Tried::Shown => turn = Tried::Shown,
                Tried::Refuting(lines) => return Ok(Tried::Refuting(lines)),
            }
        }
        Ok(turn)
    }

    /// Lines that refute the facts with the lemmas, over them.
    fn concluded(&self, alloc: Global) -> Result<Lines, Stop> {
        let lines = found_or_not(self.conclude(alloc))?;
        written(alloc, &self.pool, lines)
    }

    /// Lines that refute the facts with lemmas, which are sought.
    fn seek(&mut self, alloc: Global) -> Result<Lines, Stop> {
        for _ in 0..TURNS {
            match self.turn(alloc)? {
                Tried::Failed => return Ok(None),
                Tried::Refuting(lines) => return Ok(Some(lines)),
                Tried::Shown => {
                    let found = self.concluded(alloc)?;
                    if found.is_some() {
                        return Ok(found);
                    }
                }
            }
        }
        Ok(None)
    }

    /// The derivation with the lemmas that it needs.
    fn derivation(self, alloc: Global, lines: Vec<Line>) -> Result<Derivation, Stop> {
        let Quest { count, lemmas, .. } = self;
        finished(alloc, count, lemmas, lines)
    }
}

/// The lines over the facts and lemmas that these are over the pool.
fn written(alloc: Global, pool: &Pool, lines: Lines) -> Result<Lines, Stop> {
    match lines {
        Some(lines) => {
            let lines = over_known(alloc, lines.as_slice(), pool.sources.as_slice())?;
            Ok(Some(lines))
        }
        None => Ok(None),
    }
}

impl Quest {
    /// A quest that begins with a pool, before anything is taken in.
    fn begin(alloc: Global, count: usize, pool: Pool) -> Quest {
        let work = work_of(pool.forms.len());
        Quest {
            count,
            pool,
            tableau: Tableau::new(alloc),
            lemmas: Vec::new(alloc),
            tried: Vec::new(alloc),
            work,
        }
    }

    /// Lines that refute the facts, with lemmas that are sought where it takes them.
    fn lines(&mut self, alloc: Global) -> Result<Lines, Stop> {
        let begun = enter(alloc, &mut self.tableau, self.pool.forms.as_slice(), 0)?;
        let found = written(alloc, &self.pool, begun)?;
        if found.is_some() {
            return Ok(found);
        }
        let found = self.concluded(alloc)?;
        if found.is_some() {
            return Ok(found);
        }
        self.seek(alloc)
    }
}

/// A derivation by products of two facts, and by lemmas. The work is counted.
fn by_lemmas(
    alloc: Global,
    facts: &[Fact],
    unnamed: &[u64],
    large: u64,
    work: &mut u64,
) -> Result<Option<Derivation>, Stop> {
    let pool = Pool::of_facts(alloc, facts, unnamed, large)?;
    let mut quest = Quest::begin(alloc, facts.len(), pool);
    let found = quest.lines(alloc);
    *work = work.saturating_add(quest.work);
    match found? {
        Some(lines) => Ok(Some(quest.derivation(alloc, lines)?)),
        None => Ok(None),
    }
}

/// A derivation of a list without products that was given up, by lemmas on the parts of sums. The work is counted.
fn by_digits(
    alloc: Global,
    facts: &[Fact],
    unnamed: &[u64],
    work: &mut u64,
) -> Result<Option<Derivation>, Stop> {
    let pool = Pool::of_facts(alloc, facts, unnamed, LARGE)?;
    let mut quest = Quest::begin(alloc, facts.len(), pool);
    enter_all_of(alloc, &mut quest)?;
    let found = quest.seek(alloc);
    *work = work.saturating_add(quest.work);
    match found? {
        Some(lines) => Ok(Some(quest.derivation(alloc, lines)?)),
        None => Ok(None),
    }
}

/// Takes in the facts of a quest that are not refuted by sums alone, and solves the tableau.
fn enter_all_of(alloc: Global, quest: &mut Quest) -> Result<(), Stop> {
    match enter(alloc, &mut quest.tableau, quest.pool.forms.as_slice(), 0)? {
        Some(_) => Err(Stop::GivenUp),
        None => Ok(()),
    }
}

/// Lines that refute a wide pool, with few steps.
fn last_lines(alloc: Global, pool: &Pool) -> Result<Lines, Stop> {
    let mut tableau = Tableau::new(alloc).copy(alloc, LAST_PIVOTS)?;
    let found = enter(alloc, &mut tableau, pool.forms.as_slice(), 0)?;
    if found.is_some() {
        return Ok(found);
    }
    let found = refuted(alloc, pool.forms.as_slice(), tableau, ROUNDS)?;
    Ok(lines_of(found))
}

/// A derivation by products with one symbol more. The work is counted.
fn by_wider(
    alloc: Global,
    facts: &[Fact],
    unnamed: &[u64],
    large: u64,
    work: &mut u64,
) -> Result<Option<Derivation>, Stop> {
    let Some(pool) = Pool::wide(alloc, facts, unnamed, large)? else {
        return Ok(None);
    };
    *work = work.saturating_add(work_of(pool.forms.len()));
    let lines = found_or_not(last_lines(alloc, &pool))?;
    match written(alloc, &pool, lines)? {
        Some(lines) => Ok(Some(plain(alloc, lines))),
        None => Ok(None),
    }
}

/// Takes a search that was given up as one that found nothing.
fn known_or_not(
    outcome: Result<Option<Derivation>, Stop>,
) -> Result<Option<Derivation>, AllocError> {
    match outcome {
        Ok(found) => Ok(found),
        Err(Stop::GivenUp) => Ok(None),
        Err(Stop::Memory) => Err(AllocError),
    }
}

/// A derivation by products of facts with no larger constants, in one of the ways in turn. The work is counted.
fn by_some(
    alloc: Global,
    facts: &[Fact],
    unnamed: &[u64],
    large: u64,
    work: &mut u64,
) -> Result<Option<Derivation>, AllocError> {
    let first = known_or_not(by_lemmas(alloc, facts, unnamed, large, work))?;
    if first.is_some() {
        return Ok(first);
    }
    known_or_not(by_wider(alloc, facts, unnamed, large, work))
}

/// A derivation by products, at first without those of the ends of large ranges. The work is counted.
fn by_any(
    alloc: Global,
    facts: &[Fact],
    unnamed: &[u64],
    work: &mut u64,
) -> Result<Option<Derivation>, AllocError> {
    if leave_some(facts) {
        let first = by_some(alloc, facts, unnamed, MIDDLE, work)?;
        if first.is_some() {
            return Ok(first);
        }
    }
    by_some(alloc, facts, unnamed, LARGE, work)
}

/// The derivation, or the outcome where there is none.
fn found_or(found: Option<Derivation>, outcome: Result<Answer, Stop>) -> Result<Answer, Stop> {
    match found {
        Some(derivation) => Ok(Answer::Proof(derivation)),
        None => outcome,
    }
}

/// Searches facts of which some have products.
fn of_products(
    alloc: Global,
    facts: &[Fact],
    unnamed: &[u64],
    outcome: Result<Answer, Stop>,
    work: &mut u64,
) -> Result<Answer, Stop> {
    if let Some(point) = real_point(alloc, facts, &outcome)? {
        return Ok(Answer::Model(point));
    }
    let found = by_any(alloc, facts, unnamed, work)?;
    found_or(found, outcome)
}

/// What is found with lemmas, and where products are products, in the place of what was found without: a derivation, or a point at which
/// products are products. What was found stays where it is a derivation, where it is a point and no fact has a product, and where nothing
/// is found. Lemmas name no variable of the slots. The work is counted.
pub fn with_lemmas(
    alloc: Global,
    facts: &[Fact],
    unnamed: &[u64],
    outcome: Result<Answer, Stop>,
    work: &mut u64,
) -> Result<Answer, Stop> {
    match outcome {
        Ok(Answer::Proof(derivation)) => Ok(Answer::Proof(derivation)),
        Err(Stop::Memory) => Err(Stop::Memory),
        outcome if have_products(facts) => of_products(alloc, facts, unnamed, outcome, work),
        Ok(Answer::Model(point)) => Ok(Answer::Model(point)),
        outcome => {
            let found = known_or_not(by_digits(alloc, facts, unnamed, work))?;
            found_or(found, outcome)
        }
    }
}
