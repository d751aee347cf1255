//! The tableau of the simplex method: a row for each slack or symbol that is a sum of the others, and the steps between tableaus.

use super::row::{Entry, Row, Variable};
use super::stop::Stop;
use linear::{Fact, Symbol};
use std::alloc::{AllocError, Global};

/// The most pivots in one search.
pub const PIVOTS: u32 = 3_000;

/// The number of steps, from the first on, for which short rows are taken, as long as that leads on.
const SHORT: u32 = 400;

/// A slack with a weight.
#[derive(Clone, Copy, PartialEq, Eq)]
pub struct Part {
    pub weight: i64,
    pub slack: u32,
}

/// The origin of a slack.
#[derive(Drop)]
pub enum Origin {
    /// A fact, counted from 1, divided.
    Given(u32, i64),
    /// A sum of earlier slacks, divided, and the form that it makes.
    Cut(Vec<Part>, i64, Row),
    /// A bound that is tried. No derivation stands on it.
    Guess,
}

/// Rows of slacks, at least 0, and of symbols, over the variables that have no row. Those are 0 at the tableau's point.
#[derive(Drop)]
pub struct Tableau {
    pub rows: Vec<Row>,
    pub solved: Vec<Row>,
    pub origins: Vec<Origin>,
    pivots: u32,
    most: u32,
    short: u32,
    scratch: Vec<Entry>,
    uses: Vec<u32>,
}

/// The next step of the simplex method.
#[derive(Clone, Copy)]
enum Step {
    /// No slack is below 0.
    Done,
    /// The slack of this row is below 0, and nothing can be let in for it.
    Stuck(usize),
    /// Lets a variable in for the slack of a row.
    Pivot(usize, Variable),
}

/// A variable that may come into the basis for a row's slack, and in how many rows it stands: fewer is better.
#[derive(Clone, Copy)]
struct Offer {
    variable: Variable,
    uses: u32,
}

fn is_free(variable: Variable) -> bool {
    matches!(variable, Variable::Free(_))
}

/// Whether the variable's growth makes a row's slack grow.
fn can_enter(entry: &Entry) -> bool {
    is_free(entry.variable) || entry.coefficient > 0
}

/// Counts of each slack in how many rows it is.
fn count_uses(uses: &mut Vec<u32>, rows: &[Row]) {
    for row in rows {
        for entry in row.entries.iter() {
            if let Variable::Slack(slack) = entry.variable {
                if let Some(count) = uses.get_mut(slack as usize) {
                    *count = count.saturating_add(1);
                }
            }
        }
    }
}

/// The number of rows in which a symbol stands.
fn uses_of_symbol(rows: &[Row], symbol: Symbol) -> u32 {
    let mut uses = 0u32;
    for row in rows {
        if row.coefficient(Variable::Free(symbol)) != 0 {
            uses = uses.saturating_add(1);
        }
    }
    uses
}

fn is_better(offer: &Offer, than: &Option<Offer>) -> bool {
    match than {
        None => true,
        Some(other) => {
            if is_free(offer.variable) == is_free(other.variable) {
                offer.uses < other.uses
            } else {
                is_free(offer.variable)
            }
        }
    }
}

fn substitute_all(rows: &mut Vec<Row>, row: &Row, scratch: &mut Vec<Entry>) -> Result<(), Stop> {
    for other in rows.iter_mut() {
        other.substitute(row, scratch)?;
    }
    Ok(())
}

fn take_row(rows: &mut Vec<Row>, place: usize) -> Result<Row, Stop> {
    if place < rows.len() {
        Ok(rows.swap_remove(place))
    } else {
        Err(Stop::GivenUp)
    }
}

fn copy_rows(alloc: Global, rows: &[Row]) -> Result<Vec<Row>, AllocError> {
    let mut copies = Vec::with_capacity(alloc, rows.len())?;
    for row in rows {
        copies.push(row.copy(alloc)?)?;
    }
    Ok(copies)
}

fn copy_origins(alloc: Global, origins: &[Origin]) -> Result<Vec<Origin>, AllocError> {
    let mut copies = Vec::with_capacity(alloc, origins.len())?;
    for origin in origins {
        copies.push(origin.copy(alloc)?)?;
    }
    Ok(copies)
}

impl Origin {
    fn copy(&self, alloc: Global) -> Result<Origin, AllocError> {
        match self {
            Origin::Given(number, divisor) => Ok(Origin::Given(*number, *divisor)),
            Origin::Cut(parts, divisor, form) => copy_cut(alloc, parts.as_slice(), *divisor, form),
            Origin::Guess => Ok(Origin::Guess),
        }
    }
}

fn copy_cut(alloc: Global, parts: &[Part], divisor: i64, form: &Row) -> Result<Origin, AllocError> {
    let parts = Vec::from_slice(alloc, parts)?;
    let form = form.copy(alloc)?;
    Ok(Origin::Cut(parts, divisor, form))
}

impl Tableau {
    /// No rows yet. Steps take short rows first, and later the first row and variable, so that none comes again.
    pub fn new(alloc: Global) -> Tableau {
        Tableau::with_short_steps(alloc, SHORT)
    }

    /// No rows yet. Each step takes the first row and variable.
    pub fn orderly(alloc: Global) -> Tableau {
        Tableau::with_short_steps(alloc, 0)
    }

    fn with_short_steps(alloc: Global, short: u32) -> Tableau {
        Tableau {
            rows: Vec::new(alloc),
            solved: Vec::new(alloc),
            origins: Vec::new(alloc),
            pivots: 0,
            most: PIVOTS,
            short,
            scratch: Vec::new(alloc),
            uses: Vec::new(alloc),
        }
    }

    /// A copy of the tableau, with no step made yet and so many at most.
    pub fn copy(&self, alloc: Global, most: u32) -> Result<Tableau, AllocError> {
        let rows = copy_rows(alloc, self.rows.as_slice())?;
        let solved = copy_rows(alloc, self.solved.as_slice())?;
        let origins = copy_origins(alloc, self.origins.as_slice())?;
        Ok(Tableau {
            rows,
            solved,
            origins,
            pivots: 0,
            most,
            short: self.short,
            scratch: Vec::new(alloc),
            uses: Vec::new(alloc),
        })
    }

    /// The number of the next slack.
    pub fn next_slack(&self) -> Result<u32, Stop> {
        match u32::try_from(self.origins.len()) {
            Ok(slack) => Ok(slack),
            Err(_) => Err(Stop::GivenUp),
        }
    }

    /// Takes in a slack, whose row is over symbols.
    pub fn enter(&mut self, mut row: Row, origin: Origin) -> Result<(), Stop> {
        for solved in self.solved.iter() {
            row.substitute(solved, &mut self.scratch)?;
        }
        self.rows.push(row)?;
        self.origins.push(origin)?;
        Ok(())
    }

    /// Takes in a fact with terms, of this number.
    pub fn enter_fact(&mut self, alloc: Global, number: u32, fact: &Fact) -> Result<(), Stop> {
        let slack = self.next_slack()?;
        let (row, divisor) = Row::of_fact(alloc, slack, fact)?;
        self.enter(row, Origin::Given(number, divisor))
    }

    /// The row of a slack below 0 that has the fewest entries.
    fn violated(&self) -> Option<usize> {
        let mut best: Option<usize> = None;
        let mut fewest = usize::MAX;
        for (place, row) in self.rows.iter().enumerate() {
            if row.constant < 0 && row.entries.len() < fewest {
                best = Some(place);
                fewest = row.entries.len();
            }
        }
        best
    }

    /// The row of the first slack below 0.
    fn first_violated(&self) -> Option<usize> {
        let mut best: Option<(usize, Variable)> = None;
        for (place, row) in self.rows.iter().enumerate() {
            if row.constant < 0 && best.is_none_or(|old| row.basic < old.1) {
                best = Some((place, row.basic));
            }
        }
        best.map(|found| found.0)
    }

    /// The number of rows in which a variable stands, of slacks by the last count.
    fn uses_of(&self, variable: Variable) -> u32 {
        match variable {
            Variable::Free(symbol) => uses_of_symbol(self.rows.as_slice(), symbol),
            Variable::Slack(slack) => self.uses.get(slack as usize).copied().unwrap_or(0),
        }
    }

    /// The variable to let in for a row below 0: a symbol, else what the fewest rows have.
    fn entering(&self, row: &Row) -> Option<Variable> {
        let mut best: Option<Offer> = None;
        for entry in row.entries.iter() {
            if can_enter(entry) {
                let offer = Offer {
                    variable: entry.variable,
                    uses: self.uses_of(entry.variable),
                };
                if is_better(&offer, &best) {
                    best = Some(offer);
                }
            }
        }
        best.map(|offer| offer.variable)
    }

    /// Counts the uses of slacks anew.
    fn count(&mut self) -> Result<(), Stop> {
        self.uses.clear();
        self.uses.resize(self.origins.len(), 0)?;
        count_uses(&mut self.uses, self.rows.as_slice());
        Ok(())
    }

    /// Lets a variable in for the slack of a row.
    pub fn pivot(&mut self, leaving: usize, entering: Variable) -> Result<(), Stop> {
        if self.pivots >= self.most {
            return Err(Stop::GivenUp);
        }
        self.pivots += 1;
        let mut row = take_row(&mut self.rows, leaving)?;
        row.solve_for(entering, &mut self.scratch)?;
        substitute_all(&mut self.rows, &row, &mut self.scratch)?;
        substitute_all(&mut self.solved, &row, &mut self.scratch)?;
        if is_free(entering) {
            self.solved.push(row)?;
        } else {
            self.rows.push(row)?;
        }
        Ok(())
    }

    /// The next step by the first row and variable.
    fn orderly_step(&self) -> Step {
        let Some(place) = self.first_violated() else {
            return Step::Done;
        };
        match self.rows.get(place).and_then(first_to_enter) {
            Some(variable) => Step::Pivot(place, variable),
            None => Step::Stuck(place),
        }
    }

    /// The next step by the shortest row and the variable that the fewest rows have.
    fn short_step(&mut self) -> Result<Step, Stop> {
        let Some(place) = self.violated() else {
            return Ok(Step::Done);
        };
        if self.rows.get(place).is_some_and(|row| !starts_free(row)) {
            self.count()?;
        }
        match self.rows.get(place).and_then(|row| self.entering(row)) {
            Some(variable) => Ok(Step::Pivot(place, variable)),
            None => Ok(Step::Stuck(place)),
        }
    }

    fn step(&mut self) -> Result<Step, Stop> {
        if self.pivots >= self.short {
            Ok(self.orderly_step())
        } else {
            self.short_step()
        }
    }

    /// Moves to a point where no slack is below 0, or answers the parts of a sum that is below 0.
    pub fn solve(&mut self, alloc: Global) -> Result<Option<Vec<Part>>, Stop> {
        for _ in 0..PIVOTS {
            match self.step()? {
                Step::Done => return Ok(None),
                Step::Stuck(place) => return self.parts_of(alloc, place),
                Step::Pivot(place, variable) => self.pivot(place, variable)?,
            }
        }
        Err(Stop::GivenUp)
    }

    /// The parts of the sum that a row says to be below 0.
    fn parts_of(&self, alloc: Global, place: usize) -> Result<Option<Vec<Part>>, Stop> {
        match self.rows.get(place) {
            Some(row) => Ok(Some(parts_of(alloc, row)?)),
            None => Err(Stop::GivenUp),
        }
    }
}

fn starts_free(row: &Row) -> bool {
    row.entries
        .first()
        .is_some_and(|entry| is_free(entry.variable))
}

fn first_to_enter(row: &Row) -> Option<Variable> {
    for entry in row.entries.iter() {
        if can_enter(entry) {
            return Some(entry.variable);
        }
    }
    None
}

/// The parts of the sum that a row says to be below 0.
fn parts_of(alloc: Global, row: &Row) -> Result<Vec<Part>, Stop> {
    let mut sum = Row {
        basic: row.basic,
        denominator: 1,
        constant: 0,
        entries: row.opposed(alloc)?,
    };
    sum.round();
    let mut parts = Vec::new(alloc);
    for entry in sum.entries.iter() {
        if let Variable::Slack(slack) = entry.variable {
            parts.push(Part {
                weight: entry.coefficient,
                slack,
            })?;
        }
    }
    Ok(parts)
}
