//! The end of a path, in the terms of the place that it reaches.

use crate::aliases::Aliases;
use crate::names::{Except, Name, Named, Names};
use crate::sums::plus_symbol;
use guesses::{
    Leaf, Sight, at_anchor, copied, is_global, is_product, is_variable, try_difference,
    try_multiple, turns, variable,
};
use linear::{Form, Symbol, Term};
use std::alloc::{AllocError, Global};

/// The number of kinds of names, of which the first is the best.
const KINDS: u32 = 4;

/// A variable, an `@x` or a `$K` of the place that is reached, and its value over the symbols of the path.
#[derive(Drop)]
pub struct Value {
    pub owner: Symbol,
    pub form: Form,
}

/// The names that symbols of a path have at the place that it reaches, and the values there that gave them.
#[derive(Drop)]
pub struct Naming {
    pub(crate) aliases: Aliases,
    pub(crate) names: Names,
    /// The values of variables, then those at the anchor.
    pub(crate) values: Vec<Value>,
    /// The values of the rankings of the loops around the place, when their tests were last true.
    pub(crate) ranks: Vec<Value>,
}

impl Naming {
    /// The names at the end of a path, of the place that it reaches.
    pub fn of(alloc: Global, leaf: &Leaf, sight: &Sight) -> Result<Naming, AllocError> {
        let aliases = Aliases::of(alloc, leaf.facts.as_slice())?;
        let mut naming = Naming {
            aliases,
            names: Names::new(alloc),
            values: Vec::new(alloc),
            ranks: Vec::new(alloc),
        };
        naming.take_values(alloc, leaf, sight)?;
        naming.take_ranks(alloc, leaf)?;
        naming.name_plainly(alloc)?;
        naming.name_by_sums(alloc)?;
        naming.name_beside(alloc)?;
        Ok(naming)
    }

    /// The form over the symbols of the place reached, where each of its symbols has a name there that is not left out.
    pub fn rewrite(
        &self,
        alloc: Global,
        form: &Form,
        except: Except,
    ) -> Result<Option<Form>, AllocError> {
        let Some(form) = self.aliases.settled(alloc, form)? else {
            return Ok(None);
        };
        self.names.rewritten(alloc, &form, except)
    }

    /// All that a symbol is called at the place reached, each so many times as its owner has it.
    pub fn all_names(&self, alloc: Global, symbol: &Form) -> Result<Vec<Form>, AllocError> {
        let mut found = Vec::new(alloc);
        let Some(form) = self.aliases.settled(alloc, symbol)? else {
            return Ok(found);
        };
        let [term] = form.terms() else {
            return Ok(found);
        };
        if let Some(named) = self.names.find(term.symbol) {
            for name in named.names.as_slice() {
                found.push(copied(alloc, &name.form)?)?;
            }
        }
        Ok(found)
    }

    /// Forms that are 0 at the place reached: the best name of a symbol less another one that a variable told.
    pub fn coincidences(&self, alloc: Global) -> Result<Vec<Form>, AllocError> {
        let mut found = Vec::new(alloc);
        for named in self.names.list.as_slice() {
            add_coincidences(alloc, named, &mut found)?;
        }
        Ok(found)
    }

    /// Reads the values of the variables that are seen at the place reached, there and at its anchor.
    fn take_values(&mut self, alloc: Global, leaf: &Leaf, sight: &Sight) -> Result<(), AllocError> {
        for slot in sight.slots.as_slice() {
            if let Some(form) = leaf.variables.get(*slot as usize) {
                self.take_value(alloc, variable(*slot), form)?;
            }
        }
        for slot in sight.before.as_slice() {
            if let Some(form) = anchored(leaf, *slot) {
                self.take_value(alloc, at_anchor(*slot), form)?;
            }
        }
        Ok(())
    }

    /// One more value of a variable.
    fn take_value(&mut self, alloc: Global, owner: Symbol, form: &Form) -> Result<(), AllocError> {
        if let Some(form) = self.aliases.settled(alloc, form)? {
            self.values.push(Value { owner, form })?;
        }
        Ok(())
    }

    /// Takes in the values of the rankings of the loops around the place, when their tests were last true.
    fn take_ranks(&mut self, alloc: Global, leaf: &Leaf) -> Result<(), AllocError> {
        for (number, form) in leaf.ranks.as_slice() {
            if let Some(form) = self.aliases.settled(alloc, form)? {
                let owner = turns(*number);
                self.ranks.push(Value { owner, form })?;
            }
        }
        Ok(())
    }

    /// Names that values of one symbol tell, the best kinds first.
    fn name_plainly(&mut self, alloc: Global) -> Result<(), AllocError> {
        for kind in 0..KINDS {
            for value in self.values.as_slice() {
                if let Some(term) = named_plainly(value, kind) {
                    let constant = Form::constant(alloc, value.form.constant_part());
                    let told = Name::told(alloc, value.owner, term.coefficient, &constant)?;
                    if let Some(name) = told {
                        self.names.put(alloc, term.symbol, name)?;
                    }
                }
            }
        }
        Ok(())
    }

    /// One more name, behind all others, of each symbol that a value has beside those of the launch and of the item: of `row + groups`,
    /// which is `row` at the end and was `@row`, that it is `row` less the groups.
    fn name_beside(&mut self, alloc: Global) -> Result<(), AllocError> {
        for value in self.values.as_slice() {
            if let Some(term) = only_own(&value.form) {
                if let Some(others) = without_term(alloc, &value.form, term)? {
                    let told = Name::told(alloc, value.owner, term.coefficient, &others)?;
                    self.names.put_beside(alloc, term.symbol, told)?;
                }
            }
        }
        Ok(())
    }

    /// Names that values of several symbols tell, where only one has no name yet.
    fn name_by_sums(&mut self, alloc: Global) -> Result<(), AllocError> {
        for value in self.ranks.as_slice() {
            solve(alloc, &mut self.names, value)?;
        }
        for _ in 0..2 {
            for value in self.values.as_slice() {
                if value.form.terms().len() > 1 {
                    solve(alloc, &mut self.names, value)?;
                }
            }
        }
        Ok(())
    }
}

/// The one term of a sum whose symbol is not of the launch or the item, if there is just one.
fn only_own(form: &Form) -> Option<Term> {
    let mut found = None;
    for term in form.terms() {
        if !is_global(term.symbol) {
            if found.is_some() {
                return None;
            }
            found = Some(*term);
        }
    }
    if form.terms().len() > 1 { found } else { None }
}

/// The value at the anchor, where it is told.
fn anchored(leaf: &Leaf, slot: u32) -> Option<&Form> {
    for (other, form) in leaf.anchored.as_slice() {
        if *other == slot {
            return Some(form);
        }
    }
    None
}

/// The one term of a value that names its symbol in that kind: by its own name, by another one, by another one and a number, or all others.
fn named_plainly(value: &Value, kind: u32) -> Option<Term> {
    let [term] = value.form.terms() else {
        return None;
    };
    if is_global(term.symbol) || kind_of(value, *term) != kind {
        return None;
    }
    Some(*term)
}

/// The kind of name that such a value gives: 0 is the best.
fn kind_of(value: &Value, term: Term) -> u32 {
    let is_alone = term.coefficient == 1 && value.form.constant_part() == 0;
    if is_alone && term.symbol == value.owner {
        0
    } else if is_alone {
        1
    } else if term.coefficient.unsigned_abs() == 1 {
        2
    } else {
        3
    }
}

/// Names the one symbol of a value that has no name, if there is just one.
fn solve(alloc: Global, names: &mut Names, value: &Value) -> Result<(), AllocError> {
    let Some(term) = names.only_unnamed(&value.form) else {
        return Ok(());
    };
    if is_product(term.symbol) {
        return Ok(());
    }
    let Some(others) = without_term(alloc, &value.form, term)? else {
        return Ok(());
    };
    let Some(others) = names.rewritten(alloc, &others, Except::Nothing)? else {
        return Ok(());
    };
    let Some(name) = Name::told(alloc, value.owner, term.coefficient, &others)? else {
        return Ok(());
    };
    names.put(alloc, term.symbol, name)
}

/// The form less one of its terms.
fn without_term(alloc: Global, form: &Form, term: Term) -> Result<Option<Form>, AllocError> {
    let Some(opposite) = term.coefficient.checked_neg() else {
        return Ok(None);
    };
    plus_symbol(alloc, form, term.symbol, opposite)
}

/// The best name of the symbol less each other one that a variable told.
fn add_coincidences(alloc: Global, named: &Named, found: &mut Vec<Form>) -> Result<(), AllocError> {
    let [best, others @ ..] = named.names.as_slice() else {
        return Ok(());
    };
    for other in others {
        if is_variable(other.owner) {
            if let Some(form) = name_difference(alloc, best, other)? {
                found.push(form)?;
            }
        }
    }
    Ok(())
}

/// One name less the other, each so many times as the other one tells the symbol.
fn name_difference(alloc: Global, best: &Name, other: &Name) -> Result<Option<Form>, AllocError> {
    let Some(left) = try_multiple(alloc, &best.form, other.factor)? else {
        return Ok(None);
    };
    let Some(right) = try_multiple(alloc, &other.form, best.factor)? else {
        return Ok(None);
    };
    try_difference(alloc, &left, &right)
}
