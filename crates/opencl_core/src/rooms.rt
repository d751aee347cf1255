//! What is known where writing out has come to, and what was written so far.

ghost use Rattle.std.specs.Prelude.{◌≡◌, OnOk, IfOk, map, drop, is_some, ◌++◌};
ghost use Rattle.core_code.specs.View.{site, statement as statement_seen, term};
ghost use Rattle.kernel_names.specs.View.{sort as sort_seen, standing as standing_seen, variable as variable_seen};
ghost use Rattle.words.specs.View.{kind as kind_seen};
ghost use Rattle.opencl_effects.specs.View.{sort as mark_sort};
ghost use Rattle.opencl_terms.specs.Answers.{value_type};
ghost use Rattle.opencl_values.specs.Scope as scope;
ghost use Rattle.opencl_values.specs.View.{Gives, bindings, meaning as meaning_seen, names as known_seen};
ghost use Rattle.opencl_core.specs.Rooms as rules;
ghost use Rattle.semantics.specs.Word as word;
ghost use Rattle.opencl_core.specs.View as seen;

use crate::names::is_taken;
use crate::templates::{Returning, Template};
use core_code::tree::{LocalArray, Site, Statement, Term};
use kernel_names::{NameMap, Sort, Standing, Variable};
use opencl_effects::effects::Helper;
use opencl_effects::marks::{Mark, Sort as MarkSort};
use opencl_terms::scalars::ValueType;
use opencl_values::error::{Fault, ValueError, refused};
use opencl_values::scope::{Binding, Drawn, Meaning, Names, meaning_of};
use opencl_values::wholes::places;
use std::alloc::{AllocError, Global};
use std::mem::replace;
use words::Kind;

/// So many core statements are written at most.
pub const MOST_STATEMENTS: u32 = 4_096;

/// So many slots there are at most.
pub const MOST_SLOTS: usize = 512;

/// The last number of a name whose block has not ended yet.
const NOT_ENDED: u32 = 4_097;

/// The kind of ids and sizes; the sizes of a work-group; the visible names, of which the first `around` are declared around the innermost
/// block; the values of expressions with effects that were written out; the functions of the file, and what a `return` does; the kinds of
/// all slots, of value parameters and then of variables; the local arrays, with the count of their elements; the kinds of the buffers; the
/// number of the next core statement; the statements of the part that is being written; the map of names, with the statements of this part
/// and the variables of this block.
#[derive(Drop)]
pub struct Room<'a> {
    pub ids: Kind,
    pub sizes: [u32; 3],
    pub visible: Vec<Binding<'a>>,
    pub drawn: Vec<Drawn>,
    pub helpers: Vec<Helper<'a>>,
    pub templates: &'a [Template],
    pub returns: Returning,
    pub around: usize,
    pub slots: Vec<Kind>,
    pub arrays: Vec<LocalArray>,
    pub elements: u32,
    pub buffers: Vec<Kind>,
    pub next: u32,
    pub written: Vec<Statement>,
    pub names: NameMap,
}

/// A part of a statement: what was written for it, and where that stands.
#[derive(Drop)]
pub struct Part {
    pub statements: Vec<Statement>,
    pub standings: Vec<Standing>,
}

/// What comes back at the end of a block: how many names are around the block in which it stands, and the variables of that one.
#[derive(Drop)]
pub struct Scope {
    pub around: usize,
    pub variables: Vec<Variable>,
}

// A variable of a block that ends with a number.
fn ended(alloc: Global, last: u32, of: &Variable) -> Result<Variable, AllocError>
    ensures { IfOk result (λ v. variable_seen v ≡ rules.ended last (variable_seen of.now)) }
{
    let last = if of.last <= last { of.last } else { last };
    Ok(Variable {
        name: String::from_str(alloc, of.name.as_str())?,
        site: of.site,
        first: of.first,
        last,
    })
}

/// Puts the variables of a block that ends with a number behind others.
pub fn end_all(
    alloc: Global,
    last: u32,
    inner: &[Variable],
    outer: &mut Vec<Variable>,
) -> Result<(), AllocError>
    ensures { OnOk result (map variable_seen outer.new.items ≡ map variable_seen outer.old.items ++ map (rules.ended last) (map variable_seen inner.now)) }
{
    for variable in inner {
        let kept = ended(alloc, last, variable)?;
        outer.push(kept)?;
    }
    Ok(())
}

// The names behind the first ones.
fn behind<'a, 'b>(visible: &'b [Binding<'a>], first: usize) -> &'b [Binding<'a>]
    ensures { result.now ≡ drop first visible.now }
{
    if first <= visible.len() {
        &visible[first..]
    } else {
        &[]
    }
}

#[tactic(auto, using(crate::proofs::Lists::kept))]
fn is_declared(visible: &[Binding], name: &str) -> bool
    ensures { result ≡ is_some (scope.meaning_of (bindings visible.now) name.now) }
{
    meaning_of(visible, name).is_some()
}

impl<'a> Room<'a> {
    /// What terms of expressions depend on.
    pub fn known(&self) -> Names<'_>
        ensures { known_seen result ≡ rules.known (seen.room self.now) }
    {
        Names {
            ids: self.ids,
            visible: self.visible.as_slice(),
            drawn: self.drawn.as_slice(),
        }
    }

    /// Gives the next number to a statement that begins here.
    pub fn count(&mut self, at: Site) -> Result<u32, ValueError>
        ensures room { Gives (λ _. seen.room self.new) result (rules.counted (site at) (seen.room self.old)) }
        ensures number { IfOk result (λ n. n ≡ self.old.next) }
    {
        let number = self.next;
        if number > MOST_STATEMENTS {
            return refused(Fault::TooMany, at);
        }
        self.next = number + 1;
        Ok(number)
    }

    /// Puts a statement behind those that are written, with what stands in it.
    #[tactic(auto, using(crate::proofs::Lists::behind_others))]
    pub fn put(
        &mut self,
        statement: Statement,
        at: Site,
        sort: Sort,
        inside: &[Standing],
    ) -> Result<(), AllocError>
        ensures { OnOk result (seen.room self.new ≡ rules.put (statement_seen statement) (site at) (sort_seen sort) (map standing_seen inside.now) (seen.room self.old)) }
    {
        let number = statement.number();
        let last = self.next.saturating_sub(1);
        self.written.push(statement)?;
        self.names.statements.push(Standing {
            number,
            site: at,
            sort,
            last,
        })?;
        self.names.statements.extend_from_slice(inside)
    }

    /// Sets apart what was written so far, to write a part of a statement.
    pub fn set_apart(&mut self, alloc: Global) -> Part
        ensures part { seen.part result ≡ rules.part_of (seen.room self.old) }
        ensures room { seen.room self.new ≡ rules.apart (seen.room self.old) }
    {
        Part {
            statements: replace(&mut self.written, Vec::new(alloc)),
            standings: replace(&mut self.names.statements, Vec::new(alloc)),
        }
    }

    /// Takes back what was set apart, and gives the part that was written.
    pub fn rejoin(&mut self, before: Part) -> Part
        ensures part { seen.part result ≡ rules.part_of (seen.room self.old) }
        ensures room { seen.room self.new ≡ rules.rejoined (seen.part before) (seen.room self.old) }
    {
        Part {
            statements: replace(&mut self.written, before.statements),
            standings: replace(&mut self.names.statements, before.standings),
        }
    }

    /// Begins a block.
    pub fn open(&mut self, alloc: Global) -> Scope
        ensures scope { seen.scope result ≡ rules.scope_of (seen.room self.old) }
        ensures room { seen.room self.new ≡ rules.opened (seen.room self.old) }
    {
        let around = replace(&mut self.around, self.visible.len());
        Scope {
            around,
            variables: replace(&mut self.names.variables, Vec::new(alloc)),
        }
    }

    /// Ends a block.
    #[tactic(auto, using(crate::proofs::Lists::kept))]
    pub fn close(&mut self, alloc: Global, scope: Scope) -> Result<(), AllocError>
        ensures { OnOk result (seen.room self.new ≡ rules.closed (seen.scope scope) (seen.room self.old)) }
    {
        let Scope { around, variables } = scope;
        let last = self.next.saturating_sub(1);
        let inner = replace(&mut self.names.variables, variables);
        end_all(alloc, last, &inner, &mut self.names.variables)?;
        self.visible.truncate(self.around);
        self.around = around;
        Ok(())
    }

    /// Whether this block may declare a name.
    #[tactic(auto, using(crate::proofs::Lists::kept))]
    fn may_declare(&self, name: &str) -> bool
        ensures { result ≡ rules.may_declare name.now (seen.room self.now) }
    {
        !is_declared(behind(&self.visible, self.around), name) && !is_taken(name)
    }

    /// Declares a name in this block.
    pub fn declare(&mut self, at: Site, name: &'a str, meaning: Meaning) -> Result<(), ValueError>
        ensures { Gives (λ _. seen.room self.new) result (rules.declared (site at) name.now (meaning_seen meaning) (seen.room self.old)) }
    {
        if !self.may_declare(name) {
            return refused(Fault::NameTwice, at);
        }
        self.visible.push(Binding { name, meaning })?;
        Ok(())
    }

    /// The slot that comes next.
    pub fn next_slot(&self, at: Site) -> Result<u32, ValueError>
        ensures { Gives (λ slot. slot) result (rules.next_slot (site at) (seen.room self.now)) }
    {
        let count = self.slots.len();
        if count < MOST_SLOTS {
            Ok(count as u32)
        } else {
            refused(Fault::TooMany, at)
        }
    }

    // A variable in the map of names.
    fn push_range(
        &mut self,
        alloc: Global,
        at: Site,
        name: &str,
        first: u32,
        last: u32,
    ) -> Result<(), AllocError>
        ensures { OnOk result (seen.room self.new ≡ rules.with_range (site at) name.now first last (seen.room self.old)) }
    {
        let name = String::from_str(alloc, name)?;
        self.names.variables.push(Variable {
            name,
            site: at,
            first,
            last,
        })?;
        Ok(())
    }

    /// The slots that come next, for the components of a vector one behind the other.
    pub fn next_slots(&self, at: Site, count: u32) -> Result<u32, ValueError>
        ensures { Gives (λ slot. slot) result (rules.next_slots (site at) count (seen.room self.now)) }
    {
        let slots = self.slots.len();
        if slots <= MOST_SLOTS && count as usize <= MOST_SLOTS - slots {
            Ok(slots as u32)
        } else {
            refused(Fault::TooMany, at)
        }
    }

    #[tactic(auto, unfolding(crate::specs::Rooms::component_added))]
    fn add_component(
        &mut self,
        alloc: Global,
        at: Site,
        name: &str,
        range: (u32, u32),
        kind: Kind,
    ) -> Result<(), AllocError>
        ensures { OnOk result (seen.room self.new ≡ rules.component_added (site at) name.now range.0 range.1 (kind_seen kind) (seen.room self.old)) }
    {
        self.slots.push(kind)?;
        self.push_range(alloc, at, name, range.0, range.1)
    }

    /// Declares a private variable, which is visible from the next statement on.
    pub fn declare_variable(
        &mut self,
        alloc: Global,
        at: Site,
        name: &'a str,
        of: ValueType,
        is_constant: bool,
    ) -> Result<(), ValueError>
        ensures { Gives (λ _. seen.room self.new) result (rules.variable_declared (site at) name.now (value_type of) is_constant (seen.room self.old)) }
    {
        let slot = self.next_slots(at, of.width)?;
        self.declare(
            at,
            name,
            Meaning::Variable {
                of,
                slot,
                is_constant,
            },
        )?;
        let range = (self.next, NOT_ENDED);
        let kind = of.scalar.kind(self.ids);
        add_components(alloc, at, name, range, kind, places(of.width), self)?;
        Ok(())
    }

    /// Adds a variable in the next slot that the text does not name.
    pub fn make_up(&mut self, alloc: Global, at: Site, kind: Kind) -> Result<(), AllocError>
        ensures { OnOk result (seen.room self.new ≡ rules.made_up (site at) (kind_seen kind) (seen.room self.old)) }
    {
        self.slots.push(kind)?;
        self.push_range(alloc, at, "_", 1, 0)
    }

    /// Adds variables in the next slots that the text does not name.
    pub fn make_all_up(
        &mut self,
        alloc: Global,
        at: Site,
        kind: Kind,
        count: u32,
    ) -> Result<(), AllocError>
        ensures { OnOk result (seen.room self.new ≡ rules.all_made_up (site at) (kind_seen kind) count (seen.room self.old)) }
    {
        add_components(alloc, at, "_", (1, 0), kind, places(count), self)
    }

    /// Takes up a pointer's slot, an `int`, and its name.
    pub fn push_pointer(&mut self, alloc: Global, at: Site, name: &str) -> Result<(), AllocError>
        ensures { OnOk result (seen.room self.new ≡ rules.with_range (site at) name.now self.old.next rules.not_ended (rules.with_slot word.Int (seen.room self.old))) }
    {
        let first = self.next;
        self.slots.push(Kind::Int)?;
        self.push_range(alloc, at, name, first, NOT_ENDED)
    }

    /// What stands at a site has the value that variables keep, from a slot on.
    pub fn push_drawn(
        &mut self,
        sort: MarkSort,
        at: Site,
        of: ValueType,
        slot: u32,
    ) -> Result<(), AllocError>
        ensures { OnOk result (seen.room self.new ≡ rules.with_drawn (mark_sort sort) (site at) (value_type of) slot (seen.room self.old)) }
    {
        self.drawn.push(Drawn {
            mark: Mark { sort, site: at },
            of,
            slot,
        })?;
        Ok(())
    }

    /// Writes a value into a slot.
    pub fn set(&mut self, slot: u32, value: Term, at: Site) -> Result<(), ValueError>
        ensures { Gives (λ _. seen.room self.new) result (rules.set slot (term value) (site at) (seen.room self.old)) }
    {
        let number = self.count(at)?;
        self.put(
            Statement::Set {
                number,
                slot,
                value,
            },
            at,
            Sort::Other,
            &[],
        )?;
        Ok(())
    }
}

// Adds variables of one name in the next slots.
fn add_components(
    alloc: Global,
    at: Site,
    name: &str,
    range: (u32, u32),
    kind: Kind,
    places: &[u32],
    room: &mut Room,
) -> Result<(), AllocError>
    ensures { OnOk result (seen.room room.new ≡ rules.components_added (site at) name.now range.0 range.1 (kind_seen kind) places.now (seen.room room.old)) }
{
    match places {
        [] => Ok(()),
        [_, rest @ ..] => {
            room.add_component(alloc, at, name, range, kind)?;
            add_components(alloc, at, name, range, kind, rest, room)
        }
    }
}
