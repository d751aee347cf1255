//! The latest narrowed elements of a path, by their symbols.

ghost use Rattle.std.specs.Prelude.{◌≡◌, map};
ghost use Rattle.walk_trees.specs.Held as held;
ghost use Rattle.path_steps.specs.View.{narrowed_seen};

use crate::path::Narrowed;
use linear::Symbol;
use std::alloc::Global;
use std::collections::BTreeMap;

/// The latest element of each symbol that was narrowed behind the first so many elements. A long path has thousands, and each term of each
/// form on it asks for one. (The elements before them, with which a path begins, are few.)
#[derive(Drop)]
pub struct Marks<D> {
    pub(crate) from: usize,
    pub(crate) latest: BTreeMap<u64, D>,
}

/// The latest element of a symbol, or what was found before.
pub fn latest<D: Copy>(found: D, narrowed: &[Narrowed<D>], symbol: Symbol) -> D
    ensures { result ≡ held.latest found (map narrowed_seen narrowed.now) symbol.number }
{
    let mut element = found;
    for one in narrowed {
        if one.symbol.number == symbol.number {
            element = one.element;
        }
    }
    element
}

impl<D: Copy> Marks<D> {
    ghost use Rattle.std.specs.Prelude.{◌≡◌, map};
    ghost use Rattle.walk_trees.specs.Held as held;
    ghost use Rattle.path_steps.specs.Marks.{AreMarked, IsMarkedNext};
    ghost use Rattle.path_steps.specs.View.{narrowed_seen};

    /// No marks behind these elements.
    pub fn behind(alloc: Global, narrowed: &[Narrowed<D>]) -> Marks<D>
        ensures { AreMarked result narrowed.now }
    {
        Marks {
            from: narrowed.len(),
            latest: BTreeMap::new(alloc),
        }
    }

    /// Marks the last of these elements, behind those that were marked. Where memory is wanted, none is marked any more.
    pub(crate) fn mark(&mut self, last: Narrowed<D>, narrowed: &[Narrowed<D>])
        ensures { IsMarkedNext self.old last self.new narrowed.now }
    {
        let (symbol, element) = (last.symbol.number, last.element);
        if self.latest.insert(symbol, element).is_err() {
            self.latest.clear();
            self.from = narrowed.len();
        }
    }

    /// The latest of these elements that a symbol has, or what was found before.
    pub(crate) fn latest(&self, found: D, narrowed: &[Narrowed<D>], symbol: Symbol) -> D
        requires { AreMarked self.now narrowed.now }
        ensures { result ≡ held.latest found (map narrowed_seen narrowed.now) symbol.number }
    {
        match self.latest.get(&symbol.number) {
            Some(element) => *element,
            None => latest(found, &narrowed[..self.from], symbol),
        }
    }
}
