//! Findings that say the same.

ghost use Rattle.std.specs.Prelude.{◌≡◌, ◌↔◌, IsTrue, reverse};
ghost use Rattle.findings.specs.Likeness.{AreAlike};

use crate::finding::{Finding, FindingKind, Spot};

fn same_kind(one: FindingKind, other: FindingKind) -> bool
    ensures { IsTrue result ↔ (one ≡ other) }
{
    one == other
}

fn same_spot(one: Spot, other: Spot) -> bool
    ensures { IsTrue result ↔ (one ≡ other) }
{
    one == other
}

/// Whether two lists of sites are the same.
fn are_same(one: &[Spot], other: &[Spot]) -> bool
    ensures { IsTrue result ↔ (one.now ≡ other.now) }
{
    if one.len() != other.len() {
        return false;
    }
    for at in 0..one.len() {
        if !same_spot(one[at], other[at]) {
            return false;
        }
    }
    true
}

/// Two lists of sites are the same, one of them from its end.
fn are_turned(one: &[Spot], other: &[Spot]) -> bool
    ensures { IsTrue result ↔ (one.now ≡ reverse other.now) }
{
    if one.len() != other.len() {
        return false;
    }
    for at in 0..one.len() {
        if !same_spot(one[at], other[other.len() - 1 - at]) {
            return false;
        }
    }
    true
}

impl Finding {
    /// Whether another finding says the same: what is wrong and where, the sites in either order. Grades and items may differ.
    pub fn is_like(&self, other: &Finding) -> bool
        ensures { IsTrue result ↔ AreAlike self.now other.now }
    {
        same_kind(self.kind, other.kind)
            && (are_same(&self.sites, &other.sites) || are_turned(&self.sites, &other.sites))
    }
}
