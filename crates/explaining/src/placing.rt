//! Tests, taken up with the places where they are told.

use crate::forks::{Tests, sides_of};
use core_code::tree::{Site, Term};
use std::alloc::{AllocError, Global};

/// The places at which the tests of a statement are told: its signs, where there are as many as tests, else its begin.
#[derive(Drop)]
struct Places {
    signs: Vec<Site>,
    begin: Site,
}

impl Places {
    /// The place of a sign by its number in the text.
    fn at(&self, number: usize) -> Site {
        self.signs.get(number).copied().unwrap_or(self.begin)
    }

    /// These places, where there are so many signs; else where the statement begins.
    fn of_so_many(self, count: usize) -> Places {
        let mut places = self;
        if places.signs.len() != count {
            places.signs.clear();
        }
        places
    }
}

/// The names of the three ways of a test; empty where it has not three.
fn note_of(test: &Term, ways: u64) -> &'static str {
    match test {
        Term::And { .. } | Term::Or { .. } | Term::Not { .. } => "",
        Term::Compare { .. } if ways == 3 => ": below, equal, above",
        _ if ways == 3 => ": below 0, 0, above 0",
        _ => "",
    }
}

/// The number of signs of tests that a term has in the text.
fn count_signs(term: &Term) -> usize {
    match term {
        Term::Literal { .. } | Term::Variable { .. } | Term::Id { .. } => 0,
        Term::Load { index: of, .. }
        | Term::Unary { of, .. }
        | Term::Convert { of, .. }
        | Term::Within { index: of, .. } => count_signs(of),
        Term::Not { of } => count_signs(of).saturating_add(1),
        Term::Binary { left, right, .. }
        | Term::Shift {
            value: left,
            count: right,
            ..
        } => {
            let first = count_signs(left);
            first.saturating_add(count_signs(right))
        }
        Term::Compare { left, right, .. }
        | Term::And { left, right }
        | Term::Or { left, right }
        | Term::Minimum { left, right }
        | Term::Maximum { left, right } => {
            let first = count_signs(left).saturating_add(1);
            first.saturating_add(count_signs(right))
        }
        Term::Select {
            test,
            taken,
            skipped,
        } => {
            let first = count_signs(test).saturating_add(1);
            let second = first.saturating_add(count_signs(taken));
            second.saturating_add(count_signs(skipped))
        }
        Term::Opaque {
            first,
            second,
            third,
            ..
        } => {
            let one = count_signs(first);
            let both = one.saturating_add(count_signs(second));
            both.saturating_add(count_signs(third))
        }
    }
}

/// The number of a term's own sign in the text, of which so many stand in front of the term.
fn own_sign(term: &Term, before: usize) -> usize {
    match term {
        Term::Compare { left: first, .. }
        | Term::And { left: first, .. }
        | Term::Or { left: first, .. }
        | Term::Select { test: first, .. } => before.saturating_add(count_signs(first)),
        _ => before,
    }
}

/// Takes up a test alone, which is told at a site.
fn push_own(tests: &mut Tests<'_>, test: &Term, at: Site) -> Result<(), AllocError> {
    let ways = sides_of(tests, test, false).total();
    tests.push_fork(at, ways, note_of(test, ways))
}

/// Takes up the tests that a value is, or has of its own; a test may be told already.
fn push_head(
    tests: &mut Tests<'_>,
    at: Site,
    term: &Term,
    is_told: bool,
) -> Result<(), AllocError> {
    match term {
        Term::Compare { .. } | Term::Not { .. } | Term::And { .. } | Term::Or { .. } => {
            if is_told {
                Ok(())
            } else {
                push_own(tests, term, at)
            }
        }
        Term::Select { test, .. } => push_own(tests, test, at),
        Term::Minimum { left, right } | Term::Maximum { left, right } => {
            let ways = tests.ways_of_end(left, right);
            tests.push_fork(at, ways, "")
        }
        _ => Ok(()),
    }
}

/// Takes up the tests in a value, or those in the operands of a test that is told already; so many signs stand in front of it.
fn push_value(
    tests: &mut Tests<'_>,
    places: &Places,
    before: usize,
    term: &Term,
    is_told: bool,
) -> Result<(), AllocError> {
    let own = own_sign(term, before);
    push_head(tests, places.at(own), term, is_told)?;
    let behind = own.saturating_add(1);
    match term {
        Term::Literal { .. } | Term::Variable { .. } | Term::Id { .. } => Ok(()),
        Term::Load { index: of, .. }
        | Term::Unary { of, .. }
        | Term::Convert { of, .. }
        | Term::Within { index: of, .. } => push_value(tests, places, before, of, false),
        Term::Not { of } => push_value(tests, places, behind, of, true),
        Term::And { left, right } | Term::Or { left, right } => {
            push_value(tests, places, before, left, true)?;
            push_value(tests, places, behind, right, true)
        }
        Term::Compare { left, right, .. } => {
            push_value(tests, places, before, left, false)?;
            push_value(tests, places, behind, right, false)
        }
        Term::Minimum { left, right } | Term::Maximum { left, right } => {
            push_value(tests, places, behind, left, false)?;
            let second = behind.saturating_add(count_signs(left));
            push_value(tests, places, second, right, false)
        }
        Term::Binary { left, right, .. }
        | Term::Shift {
            value: left,
            count: right,
            ..
        } => {
            push_value(tests, places, before, left, false)?;
            let second = before.saturating_add(count_signs(left));
            push_value(tests, places, second, right, false)
        }
        Term::Opaque {
            first,
            second,
            third,
            ..
        } => {
            push_value(tests, places, before, first, false)?;
            let one = before.saturating_add(count_signs(first));
            push_value(tests, places, one, second, false)?;
            let both = one.saturating_add(count_signs(second));
            push_value(tests, places, both, third, false)
        }
        Term::Select {
            test,
            taken,
            skipped,
        } => {
            push_value(tests, places, before, test, true)?;
            push_value(tests, places, behind, taken, false)?;
            let last = behind.saturating_add(count_signs(taken));
            push_value(tests, places, last, skipped, false)
        }
    }
}

/// The place of a test that is a number: its operator, else its first name.
fn place_of_number(tests: &Tests<'_>, begin: Site, test: &Term) -> Site {
    match test {
        Term::Convert { of, .. } => place_of_number(tests, begin, of),
        Term::Load { site, .. } | Term::Unary { site, .. } | Term::Binary { site, .. } => *site,
        _ => tests.signs.name_in_test(begin).unwrap_or(begin),
    }
}

/// The place at which a test is told.
fn place_of_test(tests: &Tests<'_>, places: &Places, test: &Term) -> Site {
    match test {
        Term::Convert { of, .. } => place_of_test(tests, places, of),
        Term::Compare { .. }
        | Term::Not { .. }
        | Term::And { .. }
        | Term::Or { .. }
        | Term::Select { .. }
        | Term::Minimum { .. }
        | Term::Maximum { .. } => places.at(own_sign(test, 0)),
        _ => place_of_number(tests, places.begin, test),
    }
}

/// Takes up the test of a statement.
pub fn take_test(
    alloc: Global,
    tests: &mut Tests<'_>,
    number: u32,
    test: &Term,
) -> Result<(), AllocError> {
    let begin = tests.site_of(number);
    let places = Places {
        signs: tests.signs.of_test(alloc, begin)?,
        begin,
    };
    let places = places.of_so_many(count_signs(test));
    let place = place_of_test(tests, &places, test);
    push_own(tests, test, place)?;
    push_value(tests, &places, 0, test, true)
}

/// The signs in a statement that sets something.
fn places_of_value(alloc: Global, tests: &Tests<'_>, number: u32) -> Result<Places, AllocError> {
    let begin = tests.site_of(number);
    Ok(Places {
        signs: tests.signs.of_value(alloc, begin)?,
        begin,
    })
}

/// Takes up the tests in the value of a variable.
pub fn take_value(
    alloc: Global,
    tests: &mut Tests<'_>,
    number: u32,
    value: &Term,
) -> Result<(), AllocError> {
    let places = places_of_value(alloc, tests, number)?;
    let places = places.of_so_many(count_signs(value));
    push_value(tests, &places, 0, value, false)
}

/// The value behind a sign `op=`, of what is computed of it and of the target, if that is so.
fn behind_target(value: &Term) -> Option<&Term> {
    match value {
        Term::Convert { of, .. } => behind_target(of),
        Term::Binary { left, right, .. } if matches!(&**left, Term::Load { .. }) => Some(right),
        _ => None,
    }
}

/// Takes up the tests in the index and in the value of an element; an index that is written once, with a sign `op=`, is told once.
pub fn take_element(
    alloc: Global,
    tests: &mut Tests<'_>,
    number: u32,
    index: &Term,
    value: &Term,
) -> Result<(), AllocError> {
    let places = places_of_value(alloc, tests, number)?;
    let first = count_signs(index);
    let count = places.signs.len();
    let own = match behind_target(value) {
        Some(own) if first > 0 && count == first.saturating_add(count_signs(own)) => own,
        _ => value,
    };
    let places = places.of_so_many(first.saturating_add(count_signs(own)));
    push_value(tests, &places, 0, index, false)?;
    push_value(tests, &places, first, own, false)
}
