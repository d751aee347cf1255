//! With which lists of loops turned a head is reached.

ghost use Rattle.std.specs.Prelude.{◌≡◌, [], ◌∷◌, IfOk};
ghost use Rattle.arrivals.specs.Places as meaning;
ghost use Rattle.places.specs.Reaching as reaching;
ghost use Rattle.places.specs.View.{lists as lists_seen};

use std::alloc::{AllocError, Global};

/// The lists of loops turned with which a head is reached: none, one, the newest first, or two at least.
#[derive(Drop)]
pub enum Lists {
    NoList,
    OneList(Vec<u32>),
    TwoLists,
}

/// Two lists of numbers are the same, in order.
fn same_numbers(left: &[u32], right: &[u32]) -> bool
    ensures { result ≡ meaning.same_numbers left.now right.now }
{
    if left.len() != right.len() {
        return false;
    }
    for i in 0..left.len() {
        if left[i] != right[i] {
            return false;
        }
    }
    true
}

impl Lists {
    /// A copy of the lists.
    pub fn copy(&self, alloc: Global) -> Result<Lists, AllocError>
        ensures { IfOk result (λ l. lists_seen l ≡ lists_seen self.now) }
    {
        match self {
            Lists::NoList => Ok(Lists::NoList),
            Lists::OneList(list) => {
                let list = Vec::from_slice(alloc, list.as_slice())?;
                Ok(Lists::OneList(list))
            }
            Lists::TwoLists => Ok(Lists::TwoLists),
        }
    }

    // With a list too.
    fn with_list(self, list: Vec<u32>) -> Lists
        ensures { lists_seen result ≡ meaning.with_list list.items (lists_seen self) }
    {
        match self {
            Lists::NoList => Lists::OneList(list),
            Lists::OneList(other) => {
                if same_numbers(list.as_slice(), other.as_slice()) {
                    Lists::OneList(other)
                } else {
                    Lists::TwoLists
                }
            }
            Lists::TwoLists => Lists::TwoLists,
        }
    }

    /// The lists of a head that is reached both with these and with others.
    pub fn join(self, other: Lists) -> Lists
        ensures { lists_seen result ≡ reaching.join (lists_seen self) (lists_seen other) }
    {
        match self {
            Lists::NoList => other,
            Lists::OneList(list) => other.with_list(list),
            Lists::TwoLists => Lists::TwoLists,
        }
    }

    /// The loop of that number has turned before.
    pub fn after(self, number: u32) -> Result<Lists, AllocError>
        ensures { IfOk result (λ l. lists_seen l ≡ reaching.after (lists_seen self) (number ∷ [])) }
    {
        match self {
            Lists::NoList => Ok(Lists::NoList),
            Lists::OneList(list) => {
                let mut list = list;
                list.push(number)?;
                Ok(Lists::OneList(list))
            }
            Lists::TwoLists => Ok(Lists::TwoLists),
        }
    }

    /// The lists with which a head is reached from a loop: one without turns from the head itself, none from another loop.
    pub fn at_head(alloc: Global, is: bool) -> Lists
        ensures { lists_seen result ≡ reaching.at_head is }
    {
        if is {
            Lists::OneList(Vec::new(alloc))
        } else {
            Lists::NoList
        }
    }
}
