//! What is known of the accesses of one element.

ghost use Rattle.std.specs.Prelude.{◌≡◌, ◌<◌};
ghost use Rattle.clashes.specs.Marks.{loads_meet, loads_after, beside, seen_meets, seen_after, nothing};

use crate::mark::Mark;

/// The loads of an element since its last store, as far as a later store has to know them.
#[derive(Clone, Copy)]
pub enum Loads {
    Nobody,
    /// All loads are of one item; the mark is that of the last one.
    OneItem(Mark),
    /// The loads are of several items of one group, in their last epoch.
    OneGroup { group: u64, epoch: u64 },
    /// The loads are of items of several groups.
    Groups,
}

/// The last store of an element, and the loads since.
#[derive(Clone, Copy)]
pub struct Seen {
    pub store: Option<Mark>,
    pub loads: Loads,
}

impl Loads {
    /// Whether a store clashes with one of them.
    fn meet(self, mark: Mark, size: u64) -> bool
        requires { 0 < size }
        ensures { result ≡ loads_meet size self mark }
    {
        match self {
            Loads::Nobody => false,
            Loads::OneItem(last) => last.is_unordered(mark, size),
            Loads::OneGroup { group, epoch } => mark.item / size != group || mark.epoch == epoch,
            Loads::Groups => true,
        }
    }

    /// The loads of an element with one more, by groups of this size.
    fn with(self, mark: Mark, size: u64) -> Loads
        requires { 0 < size }
        ensures { result ≡ loads_after size self mark }
    {
        match self {
            Loads::Nobody => Loads::OneItem(mark),
            Loads::OneItem(last) => last.beside(mark, size),
            Loads::OneGroup { group, epoch } => {
                if mark.item / size != group {
                    Loads::Groups
                } else if mark.epoch == epoch {
                    self
                } else {
                    Loads::OneItem(mark)
                }
            }
            Loads::Groups => self,
        }
    }
}

impl Mark {
    /// A load after the loads of one item.
    fn beside(self, mark: Mark, size: u64) -> Loads
        requires { 0 < size }
        ensures { result ≡ beside size self mark }
    {
        let group = mark.item / size;
        if self.item == mark.item {
            Loads::OneItem(mark)
        } else if self.item / size != group {
            Loads::Groups
        } else if self.epoch == mark.epoch {
            Loads::OneGroup {
                group,
                epoch: mark.epoch,
            }
        } else {
            Loads::OneItem(mark)
        }
    }
}

impl Seen {
    /// An element that nobody has accessed.
    pub fn nothing() -> Seen
        ensures { result ≡ nothing }
    {
        Seen {
            store: None,
            loads: Loads::Nobody,
        }
    }

    /// Whether an access clashes with an earlier one.
    pub fn meets(self, mark: Mark, is_store: bool, size: u64) -> bool
        requires { 0 < size }
        ensures { result ≡ seen_meets size self mark is_store }
    {
        let meets_store = match self.store {
            Some(last) => last.is_unordered(mark, size),
            None => false,
        };
        meets_store || (is_store && self.loads.meet(mark, size))
    }

    /// An element's accesses with one more; a store makes its earlier loads forgotten.
    pub fn with(self, mark: Mark, is_store: bool, size: u64) -> Seen
        requires { 0 < size }
        ensures { result ≡ seen_after size self mark is_store }
    {
        if is_store {
            Seen {
                store: Some(mark),
                loads: Loads::Nobody,
            }
        } else {
            Seen {
                store: self.store,
                loads: self.loads.with(mark, size),
            }
        }
    }
}
