//! What a work-item asks for next.

ghost use Rattle.std.specs.Prelude.{◌≡◌, ℕ, List, Some, Err, true};
ghost use Rattle.semantics.specs.Word as word;
ghost use Rattle.semantics.specs.Memory.{cell, owner_of, extent, kind_in};
ghost use Rattle.semantics.specs.Evaluation.{evaluate, within};
ghost use Rattle.semantics.specs.Item as items;
ghost use Rattle.semantics.specs.Ask as meaning;
ghost use Rattle.words.specs.View.{kind as kind_seen, value_of};
ghost use Rattle.core_code.specs.View.{term as term_seen, array as array_seen, site as site_seen, statement as statement_seen, statements as statements_seen};
ghost use Rattle.work_item.specs.Proper.{is_proper_term, is_proper_statement, is_proper_left};
ghost use Rattle.work_item.specs.View.{setup_at, IsItem, outcome};
ghost use Rattle.work_item.specs.Left.{behind, turned};
ghost use Rattle.work_item.specs.Items.{item as item_seen};
ghost use Rattle.work_item.specs.Asks.{asked, cell as cell_seen};

use crate::evaluation::{Identity, Stop, index_within};
use crate::item::{Item, Status};
use crate::left::Frame;
use core_code::tree::{Array, Site, Space, Statement, Term};
use words::{Fault, Kind, Word, is_zero, read_as};

/// The owner of an array: the launch of its buffers, a work-group of its local arrays.
#[derive(Clone, Copy)]
pub enum Owner {
    Launch,
    Group(u64),
}

/// An element of memory.
#[derive(Clone, Copy)]
pub struct Cell {
    pub owner: Owner,
    pub array: u32,
    pub index: u32,
}

/// The next thing that a work-item asks for.
#[derive(Clone, Copy)]
pub enum Ask<'a> {
    Loads {
        at: Cell,
        kind: Kind,
        site: Site,
    },
    /// A word of the element's kind.
    Stores {
        at: Cell,
        site: Site,
        value: Word,
    },
    Faults {
        fault: Fault,
        site: Site,
    },
    Sets {
        slot: u32,
        value: Word,
    },
    /// A branch of an `if`.
    Takes {
        block: &'a [Statement],
    },
    /// A turn of the loop in front.
    Repeats {
        body: &'a [Statement],
        update: &'a [Statement],
    },
    /// The statement in front is done.
    PassesBy,
    /// The item comes to a barrier.
    Arrives,
    Ends,
    /// The item leaves the loop of that number by `break`.
    Leaves {
        number: u32,
    },
    /// The item goes to the next turn of the loop of that number by `continue`.
    Resumes {
        number: u32,
    },
    /// The passing of the barrier in front.
    Waits,
    /// The item asks for nothing: it has ended, or stopped at a fault.
    Rests,
}

impl Identity<'_> {
    /// The cell of an element of an array, as this item sees it.
    pub fn cell(&self, array: Array, index: u32) -> Cell
        ensures { (i : ℕ) → IsItem self.now i → cell_seen result ≡ cell (setup_at self.now) i (array_seen array) index }
    {
        let owner = match array.space {
            Space::Global => Owner::Launch,
            Space::Local => Owner::Group(self.group),
        };
        Cell {
            owner,
            array: array.number,
            index,
        }
    }

    // Where a term has no value.
    fn stopped<'b>(&self, stop: Stop) -> Ask<'b>
        ensures { (i : ℕ) (it : items.Item) (go : word.Word → List word.Word → meaning.Ask) → IsItem self.now i → asked result it ≡ meaning.on_value (setup_at self.now) i it (outcome (Err stop)) go }
    {
        match stop {
            Stop::Needs { array, index, site } => Ask::Loads {
                at: self.cell(array, index),
                kind: self.kind_of(array),
                site,
            },
            Stop::Faults { fault, site } => Ask::Faults { fault, site },
        }
    }

    // A store.
    fn store<'b>(
        &self,
        item: &Item<'b>,
        array: Array,
        site: Site,
        index: &Term,
        value: &Term,
    ) -> Ask<'b>
        requires index { is_proper_term (term_seen index.now) ≡ true }
        requires value { is_proper_term (term_seen value.now) ≡ true }
        ensures { (i : ℕ) → IsItem self.now i → asked result (item_seen item.now) ≡ meaning.on_value (setup_at self.now) i (item_seen item.now) (evaluate (setup_at self.now) i (items.trail (item_seen item.now).left) (term_seen index.now) (item_seen item.now).variables (item_seen item.now).answers) (λ k later. meaning.on_value (setup_at self.now) i (item_seen item.now) (evaluate (setup_at self.now) i (items.trail (item_seen item.now).left) (term_seen value.now) (item_seen item.now).variables later) (λ v _. meaning.stores (setup_at self.now) i (item_seen item.now) (array_seen array) (site_seen site) (within (extent (setup_at self.now) (array_seen array)) k.value) v.value (behind (item_seen item.now).left))) }
    {
        let variables = item.variables.as_slice();
        let index = match self.evaluate(index, variables, item.answers.as_slice()) {
            Ok(index) => index,
            Err(stop) => return self.stopped(stop),
        };
        let value = match self.evaluate(value, variables, index.rest) {
            Ok(value) => value,
            Err(stop) => return self.stopped(stop),
        };
        match index_within(self.extent(array), index.word) {
            Some(index) => Ask::Stores {
                at: self.cell(array, index),
                site,
                value: read_as(value.word, self.kind_of(array)),
            },
            None => Ask::Faults {
                fault: Fault::OutOfBounds,
                site,
            },
        }
    }

    // By the statement in front.
    fn act<'b>(&self, item: &Item<'b>, frame: Frame<'b>) -> Ask<'b>
        requires front { item.now.left.front ≡ Some frame }
        requires proper { is_proper_statement (statement_seen frame.statement.now) ≡ true }
        ensures { (i : ℕ) → IsItem self.now i → asked result (item_seen item.now) ≡ meaning.act (setup_at self.now) i (item_seen item.now) (statement_seen frame.entry.statement.now) frame.entry.turns (behind (item_seen item.now).left) }
    {
        let variables = item.variables.as_slice();
        let answers = item.answers.as_slice();
        match frame.statement {
            Statement::Set { slot, value, .. } => {
                match self.evaluate(value, variables, answers) {
                    Ok(value) => Ask::Sets {
                        slot: *slot,
                        value: value.word,
                    },
                    Err(stop) => self.stopped(stop),
                }
            }
            Statement::Store {
                array,
                site,
                index,
                value,
                ..
            } => self.store(item, *array, *site, index, value),
            Statement::If {
                test,
                taken,
                skipped,
                ..
            } => match self.evaluate(test, variables, answers) {
                Ok(test) => Ask::Takes {
                    block: chosen(test.word, taken.as_slice(), skipped.as_slice()),
                },
                Err(stop) => self.stopped(stop),
            },
            Statement::Loop {
                test,
                body,
                update,
                ..
            } => match self.evaluate(test, variables, answers) {
                Ok(test) => turn(test.word, body.as_slice(), update.as_slice()),
                Err(stop) => self.stopped(stop),
            },
            Statement::Barrier { .. } => Ask::Arrives,
            Statement::Return { .. } => Ask::Ends,
            Statement::Break { of, .. } => Ask::Leaves { number: *of },
            Statement::Continue { of, .. } => Ask::Resumes { number: *of },
        }
    }

    /// The next thing that an item asks for, as it stands.
    #[tactic(auto, unfolding(semantics::specs::Ask::ask))]
    pub fn ask<'b>(&self, item: &Item<'b>) -> Ask<'b>
        requires { is_proper_left (item_seen item.now).left ≡ true }
        ensures { (i : ℕ) → IsItem self.now i → asked result (item_seen item.now) ≡ meaning.ask (setup_at self.now) i (item_seen item.now) }
    {
        match item.status {
            Status::Running => match item.left.front {
                Some(frame) => self.act(item, frame),
                None => Ask::Ends,
            },
            Status::Waiting => Ask::Waits,
            Status::Ended | Status::Stopped { .. } => Ask::Rests,
        }
    }
}

// A branch.
fn chosen<'b>(test: Word, taken: &'b [Statement], skipped: &'b [Statement]) -> &'b [Statement]
    ensures { (rest : List items.Entry) → items.enter (statements_seen result.now) rest ≡ meaning.choose (word.is_zero (value_of test)) (items.enter (statements_seen skipped.now) rest) (items.enter (statements_seen taken.now) rest) }
{
    if is_zero(test) { skipped } else { taken }
}

// A turn of a loop, or its end.
fn turn<'b>(test: Word, body: &'b [Statement], update: &'b [Statement]) -> Ask<'b>
    ensures { (it : items.Item) → asked result it ≡ meaning.Goes (items.finished it (meaning.choose (word.is_zero (value_of test)) (behind it.left) (items.enter (statements_seen body.now) (items.enter (statements_seen update.now) (turned it.left)))) it.variables) }
{
    if is_zero(test) {
        Ask::PassesBy
    } else {
        Ask::Repeats { body, update }
    }
}
