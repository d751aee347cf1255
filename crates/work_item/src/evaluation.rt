//! The values of terms.

ghost use Rattle.std.specs.Prelude.{◌≡◌, ℕ, ℤ, List, [], true, map, length, slice_index_or, Result, MatchOption};
ghost use Rattle.semantics.specs.Word as meaning;
ghost use Rattle.semantics.specs.Evaluation as evaluation;
ghost use Rattle.semantics.specs.Evaluation.{within, At, Outside};
ghost use Rattle.semantics.specs.Memory.{extent, element_kind, owner_of, kind_in};
ghost use Rattle.words.specs.View.{word as word_seen, kind as kind_seen, value_of, seen};
ghost use Rattle.core_code.specs.View.{term as term_seen, array as array_seen, site as site_seen};
ghost use Rattle.work_item.specs.Proper.{is_proper_term};
ghost use Rattle.work_item.specs.View.{setup_at, ids, ids_of, IsItem, outcome};

use crate::dimension::Dimension;
use crate::operations::{id_word, literal, operate, unary};
use crate::shifts::shifted;
use core_code::tree::{Array, Core, Site, Space, Term};
use launch::launches::Launch;
use words::{Fault, Kind, Word, convert, is_zero, larger, read_as, smaller, truth};

/// A work-item of a kernel at a launch: who it is, along each dimension.
#[derive(Clone, Copy)]
pub struct Identity<'a> {
    pub core: &'a Core,
    pub launch: &'a Launch,
    pub x: Dimension,
    pub y: Dimension,
    pub z: Dimension,
    /// The number of the item's work-group.
    pub group: u64,
}

/// A value, with the answers to loads that were not used.
#[derive(Clone, Copy)]
pub struct Value<'a> {
    pub word: Word,
    pub rest: &'a [Word],
}

/// The reasons for which a term has no value: its first load without an answer, or a fault before it.
#[derive(Clone, Copy)]
pub enum Stop {
    Needs {
        array: Array,
        index: u32,
        site: Site,
    },
    Faults {
        fault: Fault,
        site: Site,
    },
}

/// The word of a private variable, by its slot; 0 past the last slot.
fn variable(variables: &[Word], slot: u32) -> Word
    ensures { word_seen result ≡ slice_index_or (map word_seen variables.now) slot meaning.zero_word }
{
    match variables.get(slot as usize) {
        Some(word) => *word,
        None => Word::Int(0),
    }
}

/// A result, or the fault at a site.
fn settled(answer: Result<Word, Fault>, site: Site, rest: &[Word]) -> Result<Value<'_>, Stop>
    ensures { outcome result ≡ evaluation.settled (seen answer) (site_seen site) (map word_seen rest.now) }
{
    match answer {
        Ok(word) => Ok(Value { word, rest }),
        Err(fault) => Err(Stop::Faults { fault, site }),
    }
}

/// An index that lies among so many elements.
pub fn index_within(length: usize, word: Word) -> Option<u32>
    ensures { MatchOption result (within length (value_of word) ≡ Outside) (λ k. within length (value_of word) ≡ At k) }
{
    let index = match word {
        Word::Uint(index) | Word::Size(index) => index,
        Word::Int(index) if index >= 0 => index as u32,
        Word::Int(_) => return None,
    };
    if (index as usize) < length {
        Some(index)
    } else {
        None
    }
}

/// A word that lies among so many elements, or the fault that it does not.
fn inside(length: u32, word: Word) -> Result<Word, Fault>
    ensures { seen result ≡ evaluation.inside (within length (value_of word)) (word_seen word) }
{
    match index_within(length as usize, word) {
        Some(_) => Ok(word),
        None => Err(Fault::OutOfBounds),
    }
}

impl<'a> Identity<'a> {
    /// The place of the item along a dimension: of 3 and more, ids of 0 and sizes of 1 (OpenCL 1.2, 6.12.1).
    fn along(&self, dimension: u32) -> Dimension
        ensures { (i : ℕ) → IsItem self.now i → ids result ≡ ids_of (setup_at self.now) i dimension }
    {
        match dimension {
            0 => self.x,
            1 => self.y,
            2 => self.z,
            _ => Dimension::past(),
        }
    }

    /// The number of elements of an array.
    pub fn extent(&self, array: Array) -> usize
        ensures { result ≡ extent (setup_at self.now) (array_seen array) }
    {
        match array.space {
            Space::Global => match self.launch.buffers.words.get(array.number as usize) {
                Some(words) => words.len(),
                None => 0,
            },
            Space::Local => match self.core.arrays.get(array.number as usize) {
                Some(declared) => declared.length as usize,
                None => 0,
            },
        }
    }

    /// The kind of an array's elements.
    pub fn kind_of(&self, array: Array) -> Kind
        ensures array { kind_seen result ≡ element_kind (setup_at self.now) (array_seen array) }
        ensures owner { (i : ℕ) → kind_seen result ≡ kind_in (setup_at self.now) (owner_of (setup_at self.now) i (array_seen array).space) array.number }
    {
        match array.space {
            Space::Global => match self.core.buffers.get(array.number as usize) {
                Some(kind) => *kind,
                None => Kind::Int,
            },
            Space::Local => match self.core.arrays.get(array.number as usize) {
                Some(declared) => declared.kind,
                None => Kind::Int,
            },
        }
    }

    /// The value of a load: its answer, read as the array's kind, or what it needs, or its fault.
    fn load<'b>(&self, array: Array, site: Site, index: Value<'b>) -> Result<Value<'b>, Stop>
        ensures { outcome result ≡ evaluation.load (setup_at self.now) (array_seen array) (site_seen site) (value_of index.entry.word) (map word_seen index.entry.rest.now) }
    {
        if let Some((answer, rest)) = index.rest.split_first() {
            return Ok(Value {
                word: read_as(*answer, self.kind_of(array)),
                rest,
            });
        }
        match index_within(self.extent(array), index.word) {
            Some(index) => Err(Stop::Needs { array, index, site }),
            None => Err(Stop::Faults {
                fault: Fault::OutOfBounds,
                site,
            }),
        }
    }

    /// The value of a term, given its private variables and the answers to its loads so far.
    #[tactic(auto, unfolding(semantics::specs::Evaluation::evaluate))]
    pub fn evaluate<'b>(
        &self,
        term: &Term,
        variables: &[Word],
        answers: &'b [Word],
    ) -> Result<Value<'b>, Stop>
        requires { is_proper_term (term_seen term.now) ≡ true }
        ensures { (i : ℕ) (now : List ℕ) → IsItem self.now i → outcome result ≡ evaluation.evaluate (setup_at self.now) i now (term_seen term.now) (map word_seen variables.now) (map word_seen answers.now) }
    {
        match term {
            Term::Literal { kind, value } => Ok(Value {
                word: literal(*kind, *value),
                rest: answers,
            }),
            Term::Variable { slot } => Ok(Value {
                word: variable(variables, *slot),
                rest: answers,
            }),
            Term::Id {
                kind,
                function,
                dimension,
            } => Ok(Value {
                word: id_word(*kind, self.along(*dimension).id(*function)),
                rest: answers,
            }),
            Term::Load { array, site, index } => {
                let index = self.evaluate(index, variables, answers)?;
                self.load(*array, *site, index)
            }
            Term::Unary {
                operator,
                kind,
                site,
                of,
            } => {
                let of = self.evaluate(of, variables, answers)?;
                settled(unary(*operator, *kind, of.word), *site, of.rest)
            }
            Term::Binary {
                operator,
                kind,
                site,
                left,
                right,
            } => {
                let left = self.evaluate(left, variables, answers)?;
                let right = self.evaluate(right, variables, left.rest)?;
                let word = operate(*operator, *kind, left.word, right.word);
                settled(word, *site, right.rest)
            }
            Term::Convert { kind, site, of } => {
                let of = self.evaluate(of, variables, answers)?;
                settled(convert(of.word, *kind), *site, of.rest)
            }
            Term::Compare {
                relation,
                kind,
                left,
                right,
            } => {
                let left = self.evaluate(left, variables, answers)?;
                let right = self.evaluate(right, variables, left.rest)?;
                Ok(Value {
                    word: truth(relation.compare(*kind, left.word, right.word)),
                    rest: right.rest,
                })
            }
            Term::Not { of } => {
                let of = self.evaluate(of, variables, answers)?;
                Ok(Value {
                    word: truth(is_zero(of.word)),
                    rest: of.rest,
                })
            }
            Term::And { left, right } => {
                let left = self.evaluate(left, variables, answers)?;
                if is_zero(left.word) {
                    return Ok(Value {
                        word: truth(false),
                        rest: left.rest,
                    });
                }
                let right = self.evaluate(right, variables, left.rest)?;
                Ok(Value {
                    word: truth(!is_zero(right.word)),
                    rest: right.rest,
                })
            }
            Term::Or { left, right } => {
                let left = self.evaluate(left, variables, answers)?;
                if !is_zero(left.word) {
                    return Ok(Value {
                        word: truth(true),
                        rest: left.rest,
                    });
                }
                let right = self.evaluate(right, variables, left.rest)?;
                Ok(Value {
                    word: truth(!is_zero(right.word)),
                    rest: right.rest,
                })
            }
            Term::Select {
                test,
                taken,
                skipped,
            } => {
                let test = self.evaluate(test, variables, answers)?;
                if is_zero(test.word) {
                    self.evaluate(skipped, variables, test.rest)
                } else {
                    self.evaluate(taken, variables, test.rest)
                }
            }
            Term::Minimum { left, right } => {
                let left = self.evaluate(left, variables, answers)?;
                let right = self.evaluate(right, variables, left.rest)?;
                Ok(Value {
                    word: smaller(left.word, right.word),
                    rest: right.rest,
                })
            }
            Term::Maximum { left, right } => {
                let left = self.evaluate(left, variables, answers)?;
                let right = self.evaluate(right, variables, left.rest)?;
                Ok(Value {
                    word: larger(left.word, right.word),
                    rest: right.rest,
                })
            }
            Term::Shift {
                direction,
                kind,
                value,
                count,
            } => {
                let value = self.evaluate(value, variables, answers)?;
                let count = self.evaluate(count, variables, value.rest)?;
                Ok(Value {
                    word: shifted(*direction, *kind, value.word, count.word),
                    rest: count.rest,
                })
            }
            Term::Within {
                site,
                length,
                index,
            } => {
                let index = self.evaluate(index, variables, answers)?;
                settled(inside(*length, index.word), *site, index.rest)
            }
            Term::Opaque {
                kind,
                first,
                second,
                third,
                ..
            } => {
                let first = self.evaluate(first, variables, answers)?;
                let second = self.evaluate(second, variables, first.rest)?;
                let third = self.evaluate(third, variables, second.rest)?;
                Ok(Value {
                    word: read_as(Word::Int(0), *kind),
                    rest: third.rest,
                })
            }
        }
    }
}
