//! Certificates.

ghost use Rattle.std.specs.Prelude.{◌<◌, ◌^◌};

use std::alloc::{AllocError, Global};
use std::sync::Arc;

/// One of the three dimensions of a launch.
#[derive(Clone, Copy, Drop)]
pub enum Dimension {
    First,
    Second,
    Third,
}

/// A symbol, by what it is called. The second item's symbol of a name, and the product of a name and of others (`a*b*c` is that of `a` and
/// of `b*c`), stand in wide certificates alone.
#[derive(Drop)]
pub enum Name {
    Variable(String),
    AtAnchor(String),
    Turns(u64),
    Fresh(u64),
    Argument(String),
    Length(String),
    Groups(Dimension),
    Group(Dimension),
    Local(Dimension),
    Second(Box<Name>),
    Product(Box<Name>, Box<Name>),
}

/// A symbol with its coefficient.
#[derive(Drop)]
pub struct Term {
    pub coefficient: i64,
    pub name: Name,
}

/// The terms of a form. Copies of the form share them: a line that names a form of the table takes a few bytes, however
/// many terms that has.
#[derive(Drop)]
pub struct SharedTerms {
    pub(crate) shared: Arc<Vec<Term>>,
}

impl SharedTerms {
    ghost use Rattle.std.specs.Prelude.{◌≡◌, IfOk};
    ghost use Rattle.std.specs.Arc.{arc_value};

    /// Makes a list of terms one that copies share. The error is want of memory.
    pub fn of(alloc: Global, terms: Vec<Term>) -> Result<SharedTerms, AllocError>
        ensures { IfOk result (λ t. (arc_value t.shared).items ≡ terms.items) }
    {
        let shared = Arc::new(alloc, terms)?;
        Ok(SharedTerms { shared })
    }

    /// The same terms once more.
    pub fn copy(&self) -> Result<SharedTerms, AllocError>
        ensures { IfOk result (λ t. arc_value t.shared ≡ arc_value self.now.shared) }
    {
        let shared = Arc::try_clone(&self.shared)?;
        Ok(SharedTerms { shared })
    }

    /// The terms, in their order.
    pub fn as_slice(&self) -> &[Term]
        ensures { result.now ≡ (arc_value self.now.shared).items }
    {
        let terms: &Vec<Term> = &self.shared;
        terms.as_slice()
    }
}

/// A sum of terms and a constant.
#[derive(Drop)]
pub struct Form {
    pub terms: SharedTerms,
    pub constant: i64,
}

/// The point at which the items of a group meet: their first step, or a barrier statement by its number.
#[derive(Clone, Copy, Drop)]
pub enum Anchor {
    KernelEntry,
    Barrier(u64),
}

/// An anchor, or the test of a loop on the way from it.
#[derive(Clone, Copy, Drop)]
pub struct Spot {
    pub anchor: Anchor,
    pub head: Option<u64>,
}

/// A form that the modulus divides. The modulus is a natural number of a certificate's text.
#[derive(Drop)]
pub struct Congruence {
    pub modulus: u64,
    pub form: Form,
    pub ghost small: { modulus < 2 ^ 63 },
}

/// A form that is a multiple of another; in wide certificates alone.
#[derive(Drop)]
pub struct Multiple {
    pub of: Form,
    pub form: Form,
}

/// The lines of a spot: names on which the items of a group agree, forms that are at least 0, congruences, and multiples.
#[derive(Drop)]
pub struct Place {
    pub spot: Spot,
    pub same: Vec<String>,
    pub facts: Vec<Form>,
    pub congruences: Vec<Congruence>,
    pub multiples: Vec<Multiple>,
}

/// The change of a loop's form in each turn: it falls by a step at least, or to a half at most, or, from the number on,
/// doubles at least.
#[derive(Clone, Copy, PartialEq, Eq, Drop)]
pub enum Descent {
    Down(u64),
    Halve,
    Double(u64),
}

/// A loop's ranking: the loop's number, the form, its change in each turn, and the most that the form is where the loop
/// opens, or, where it doubles, where the loop's test is true.
#[derive(Drop)]
pub struct Bound {
    pub number: u64,
    pub descent: Descent,
    pub most: i64,
    pub form: Form,
}

/// The manner in which an entry shows its obligation: plainly, of a divisor as positive or negative, or of a congruence with its quotient.
#[derive(Drop)]
pub enum EntrySort {
    Show,
    Positive,
    Negative,
    Quotient(Form),
}

/// A line of a derivation, and what it is multiplied or divided by.
#[derive(Clone, Copy, Drop)]
pub struct Scaled {
    pub factor: i64,
    pub line: i64,
}

/// A line of a derivation. Facts and lines are counted from 1; a number that names none may stand here. Products of two lines stand in wide
/// certificates alone.
#[derive(Drop)]
pub enum Step {
    Given(i64),
    Sum(Vec<Scaled>),
    Divide(Scaled),
    Product(i64, i64),
}

/// A form that is at least 0, and the steps that show it; in wide certificates alone.
#[derive(Drop)]
pub struct Lemma {
    pub form: Form,
    pub steps: Vec<Step>,
}

/// An entry: the number of its obligation, the manner in which it shows that, its lemmas, and the steps of its derivation.
#[derive(Drop)]
pub struct Entry {
    pub obligation: u64,
    pub sort: EntrySort,
    pub lemmas: Vec<Lemma>,
    pub steps: Vec<Step>,
}
