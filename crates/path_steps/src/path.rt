//! What an item meets along a path.

ghost use Rattle.std.specs.Prelude.{length};
ghost use Rattle.std.specs.List.{All};
ghost use Rattle.path_steps.specs.Before.{HasFacts, HasAll, EndHasAll};
ghost use Rattle.path_steps.specs.Marks.{AreMarked};

use crate::marks::Marks;
use core_code::tree::{Array, Site};
use linear::{Form, Symbol};
use words::Kind;

/// The sorts of obligations: an end of a kind's range, a place in an array, that a divisor is not 0, that a quotient is an `int`, that a
/// loop's ranking is as it was said, that a fact or a congruence of a place holds where an item comes to it, that a store keeps what its
/// buffer holds; of two items, that they do not meet in an element, that they have a variable alike at a barrier, or that they do not come
/// to two stops.
#[derive(Clone, Copy)]
pub enum Sort {
    OfRange(Kind),
    OfIndex,
    OfDivisor,
    OfQuotient,
    OfRanking,
    OfFact,
    OfCongruence,
    OfContent,
    OfPair,
    OfSame,
    OfMeeting,
}

/// A place in the source: the number of a statement, and a site in it.
#[derive(Clone, Copy)]
pub struct Spot {
    pub statement: u32,
    pub site: Site,
}

/// The target of an access: a store or a load, the array, and the site where the array is named.
#[derive(Clone, Copy)]
pub struct Target {
    pub is_store: bool,
    pub array: Array,
    pub spot: Spot,
}

/// The goal of a claim: that a form is at least 0; of a divisor, that one of two is, one where it is positive, one where it is negative; of
/// what is said of a place or a loop, that a form is at least 0 that is put together of others; of a congruence likewise, with a quotient
/// that is named.
#[derive(Drop)]
pub enum Goal {
    AtLeastZero(Form),
    Either(Form, Form),
    Replaced { made: Vec<Form>, form: Form },
    Divided { made: Vec<Form>, form: Form },
}

/// A claim: what is to be shown of one item, with the number of the item's facts before it. One that is not needed is shown only where it
/// has an entry.
#[derive(Drop)]
pub struct Claim {
    pub sort: Sort,
    pub spot: Spot,
    pub needed: bool,
    pub settled: bool,
    pub goal: Goal,
    pub facts: usize,
}

/// An access with its index, and the numbers of the item's facts, new symbols and narrowed elements before it.
#[derive(Drop)]
pub struct Access {
    pub target: Target,
    pub index: Form,
    pub facts: usize,
    pub news: usize,
    pub narrowed: usize,
}

/// The element of a new symbol, and where it was made. With that it takes memory also where an element takes none, so no list holds 2^60.
#[derive(Clone, Copy)]
pub struct Invented<D> {
    pub spot: Spot,
    pub element: D,
}

/// A symbol has this element from here on.
#[derive(Clone, Copy)]
pub struct Narrowed<D> {
    pub symbol: Symbol,
    pub element: D,
}

/// The way that is taken at a fork: the first one, or the other one, with the number of claims before it.
#[derive(Clone, Copy)]
pub enum Choice {
    First,
    Other(u32),
}

/// A form with the kind of its value.
#[derive(Drop)]
pub struct Value {
    pub kind: Kind,
    pub form: Form,
}

/// A quotient by a form that is no number, and what it leaves.
#[derive(Drop)]
pub struct Shared {
    pub dividend: Form,
    pub divisor: Form,
    pub quotient: Form,
    pub left: Form,
}

/// The value of a loop's ranking when its test was last true, with the loop's number.
#[derive(Drop)]
pub struct Ranked {
    pub number: u32,
    pub form: Form,
}

/// The point at which an item stops: a barrier, the head of a loop that has turned (`again`) or has not, or the end of the kernel.
#[derive(Clone, Copy)]
pub enum Stop {
    Barrier(u32),
    Head { number: u32, again: bool },
    End,
}

/// The end of a path: its stop, the loops that turned since the anchor, where that is one list, the variables there, and the numbers of the
/// item's facts, new symbols and narrowed elements.
#[derive(Drop)]
pub struct Arrived {
    pub stop: Stop,
    pub turns: Option<Vec<u32>>,
    pub variables: Vec<Value>,
    pub facts: usize,
    pub news: usize,
    pub narrowed: usize,
}

/// A path of one item, with all that is found along it, and where its walk stands. The choices that were given are taken first, and nothing
/// is noted before the last of them.
#[derive(Drop)]
pub struct Path<D> {
    pub facts: Vec<Form>,
    pub claims: Vec<Claim>,
    pub accesses: Vec<Access>,
    pub ends: Vec<Arrived>,
    pub count: u32,
    pub taken: Vec<Choice>,
    pub given: Vec<Choice>,
    pub news: Vec<Invented<D>>,
    pub narrowed: Vec<Narrowed<D>>,
    pub marks: Marks<D>,
    pub variables: Vec<Value>,
    pub ranks: Vec<Ranked>,
    pub quotients: Vec<Shared>,
    pub at: Spot,
    pub ghost claims_in: { All (HasFacts (length facts.items)) claims.items },
    pub ghost accesses_in: { All (HasAll (length facts.items) (length news.items) (length narrowed.items)) accesses.items },
    pub ghost ends_in: { All (EndHasAll (length facts.items) (length news.items) (length narrowed.items)) ends.items },
    pub ghost marked: { AreMarked marks narrowed.items },
}
