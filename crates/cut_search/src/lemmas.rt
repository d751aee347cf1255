//! What may be lemmas: what a symbol multiplies in an equality, or in a sum of two facts.

use crate::digits::add_digits;
use crate::following::{add_following, count_opposite};
use crate::hashes::{hash_of_opposite, hashes_of};
use crate::menu::{Listed, Menu};
use crate::multiplying::Multiplied;
use crate::replacing::{replaced_all, replacements_of};
use facts::{Family, Side};
use guesses::{
    Factors, common_divisor, copied, divisor_of, has_product, index_of, is_product, one_of, plain,
    plus, try_difference, try_multiple, try_sum,
};
use linear::{Form, Symbol, Term};
use std::alloc::{AllocError, Global};

/// The number of equalities of which sums and differences are made, the last ones.
const SUMMED: usize = 6;

/// The number of equalities, about and at most.
const EQUALITIES: usize = 40;

/// The number of facts of which two are added, and of their sums, at most.
const FACTS: usize = 40;

const SUMS: usize = 120;

/// A symbol, and the form that it is multiplied with in a form.
#[derive(Drop)]
struct Share {
    symbol: Symbol,
    form: Form,
}

/// Adds so many times what a symbol multiplies in a term; nothing where the term has not the symbol.
fn add_share(alloc: Global, sum: Form, term: &Term, factor: u64) -> Result<Form, AllocError> {
    let factors = Factors::of(term.symbol);
    if !factors.each().contains(&factor) {
        return Ok(sum);
    }
    let rest = factors.without(factor);
    let one = if rest.first == 0 {
        Form::constant(alloc, 1)
    } else {
        one_of(alloc, rest.symbol())?
    };
    let Some(part) = try_multiple(alloc, &one, term.coefficient)? else {
        return Ok(sum);
    };
    Ok(try_sum(alloc, &sum, &part)?.unwrap_or(sum))
}

/// The cofactor of a factor in a form: the sum that it is multiplied with.
fn share_of(alloc: Global, form: &Form, factor: u64) -> Result<Form, AllocError> {
    let mut sum = Form::constant(alloc, 0);
    for term in form.terms() {
        sum = add_share(alloc, sum, term, factor)?;
    }
    Ok(sum)
}

/// Adds the factors of a product that are not there.
fn note_factors(found: &mut Vec<u64>, symbol: Symbol) -> Result<(), AllocError> {
    for factor in Factors::of(symbol).each() {
        if factor != 0 && !found.as_slice().contains(&factor) {
            found.push(factor)?;
        }
    }
    Ok(())
}

/// The factors of the products of a form.
fn factors_in(alloc: Global, form: &Form) -> Result<Vec<u64>, AllocError> {
    let mut found = Vec::new(alloc);
    for term in form.terms() {
        if is_product(term.symbol) {
            note_factors(&mut found, term.symbol)?;
        }
    }
    Ok(found)
}

/// The cofactor of each symbol that is in a product of a form, that of most terms first.
fn shares_of(alloc: Global, form: &Form) -> Result<Vec<Share>, AllocError> {
    let mut shares: Vec<Share> = Vec::new(alloc);
    let factors = factors_in(alloc, form)?;
    for factor in factors.as_slice() {
        let share = share_of(alloc, form, *factor)?;
        let count = share.terms().len();
        let at = shares
            .iter()
            .position(|other| other.form.terms().len() < count)
            .unwrap_or(shares.len());
        let symbol = plain(*factor);
        shares.insert(
            at.min(shares.len()),
            Share {
                symbol,
                form: share,
            },
        )?;
    }
    Ok(shares)
}

/// A form divided by the greatest number that divides it.
fn whole(alloc: Global, form: Form) -> Result<Form, AllocError> {
    let divisor = divisor_of(common_divisor(&form), form.constant_part().unsigned_abs());
    match i64::try_from(divisor) {
        Ok(divisor) if divisor > 1 => Ok(form.divided(alloc, divisor)?.unwrap_or(form)),
        _ => Ok(form),
    }
}

/// Copies of the facts with products.
fn with_products(alloc: Global, facts: &[Form]) -> Result<Vec<Form>, AllocError> {
    let mut found = Vec::new(alloc);
    for fact in facts {
        if has_product(fact) {
            found.push(copied(alloc, fact)?)?;
        }
    }
    Ok(found)
}

/// The forms with products that are 0, of each and its opposite the first.
fn equalities_of(alloc: Global, facts: &[Form]) -> Result<Listed, AllocError> {
    let mut found = Listed::new(alloc);
    let hashes = hashes_of(alloc, facts)?;
    for fact in facts {
        let opposite = hash_of_opposite(fact);
        if has_product(fact) && !found.has(opposite) && hashes.as_slice().contains(&opposite) {
            found.add(copied(alloc, fact)?)?;
        }
    }
    Ok(found)
}

/// Adds the equalities in which symbols are replaced by what short equalities say of them.
fn add_replaced(alloc: Global, equalities: &mut Listed, facts: &[Form]) -> Result<(), AllocError> {
    let replacements = replacements_of(alloc, facts)?;
    let mut more = Vec::new(alloc);
    for form in equalities.forms.as_slice() {
        more.push(replaced_all(alloc, form, replacements.as_slice())?)?;
    }
    for form in more {
        equalities.add(form)?;
    }
    Ok(())
}

/// The difference and the sum of two forms, where they have terms.
fn combined(
    alloc: Global,
    found: &mut Vec<Form>,
    one: &Form,
    other: &Form,
) -> Result<(), AllocError> {
    if let Some(difference) = try_difference(alloc, one, other)? {
        found.push(difference)?;
    }
    if let Some(sum) = try_sum(alloc, one, other)? {
        found.push(sum)?;
    }
    Ok(())
}

/// The differences and the sums of two of the last equalities.
fn combinations(alloc: Global, forms: &[Form]) -> Result<Vec<Form>, AllocError> {
    let mut found = Vec::new(alloc);
    let from = forms.len().saturating_sub(SUMMED);
    let last = forms.get(from..).unwrap_or(&[]);
    for (place, one) in last.iter().enumerate() {
        for other in last.iter().skip(place.saturating_add(1)) {
            combined(alloc, &mut found, one, other)?;
        }
    }
    Ok(found)
}

/// The equalities of facts, with short ones put in, and their differences and sums.
fn all_equalities(alloc: Global, facts: &[Form]) -> Result<Vec<Form>, AllocError> {
    let mut equalities = equalities_of(alloc, facts)?;
    add_replaced(alloc, &mut equalities, facts)?;
    for form in combinations(alloc, equalities.forms.as_slice())? {
        if equalities.forms.len() < EQUALITIES && !form.terms().is_empty() {
            equalities.forms.push(form)?;
        }
    }
    Ok(equalities.forms)
}

/// Adds that a factor is not above 0.
fn add_no_more(alloc: Global, menu: &mut Menu, factor: u64) {
    match one_of(alloc, plain(factor)) {
        Ok(one) => menu.add_made(try_multiple(alloc, &one, -1)),
        Err(_) => menu.note_lack(),
    }
}

/// The second item's symbol of a new one of the first item; none of other symbols.
fn copy_of(factor: u64) -> Option<u64> {
    let symbol = plain(factor);
    let index = u32::try_from(index_of(symbol)).ok()?;
    match Family::of(symbol) {
        Family::New(Side::First) => {
            let copy = Family::New(Side::Second).symbol(index as u64);
            Some(copy.number.saturating_add(1))
        }
        _ => None,
    }
}

/// The difference of two factors.
fn difference_of(alloc: Global, one: u64, other: u64) -> Result<Option<Form>, AllocError> {
    let first = one_of(alloc, plain(one))?;
    let second = one_of(alloc, plain(other))?;
    try_difference(alloc, &first, &second)
}

/// Adds that a new symbol, as a quotient, is the same of both items, where both are factors of products.
fn add_copies(alloc: Global, menu: &mut Menu, factors: &[u64]) {
    for factor in factors {
        if let Some(copy) = copy_of(*factor) {
            if factors.contains(&copy) {
                menu.add_both_made(alloc, difference_of(alloc, *factor, copy));
            }
        }
    }
}

/// The factors of the products of facts.
fn factors_in_all(alloc: Global, facts: &[Form]) -> Result<Vec<u64>, AllocError> {
    let mut found = Vec::new(alloc);
    for fact in facts {
        for term in fact.terms() {
            if is_product(term.symbol) {
                note_factors(&mut found, term.symbol)?;
            }
        }
    }
    Ok(found)
}

/// Adds of a fact that a product of two symbols is not above 0 that neither symbol is.
fn add_factors(alloc: Global, menu: &mut Menu, fact: &Form) {
    let Some(term) = fact.terms().first() else {
        return;
    };
    if fact.terms().len() != 1 || fact.constant_part() != 0 || term.coefficient != -1 {
        return;
    }
    let factors = Factors::of(term.symbol);
    if factors.third == 0 && factors.first != factors.second {
        add_no_more(alloc, menu, factors.first);
        add_no_more(alloc, menu, factors.second);
    }
}

/// Adds what a symbol multiplies in a form, both ways, and what symbols multiply in that.
fn add_parts(alloc: Global, menu: &mut Menu, form: &Form) -> Result<(), AllocError> {
    if form.terms().len() < 2 && form.constant_part() == 0 {
        return Ok(());
    }
    menu.add_both(alloc, form);
    for share in shares_of(alloc, form)?.as_slice() {
        menu.add_both(alloc, &share.form);
    }
    Ok(())
}

/// Adds what symbols multiply in an equality.
fn add_equality(alloc: Global, menu: &mut Menu, form: &Form) -> Result<(), AllocError> {
    for share in shares_of(alloc, form)? {
        let form = whole(alloc, share.form)?;
        add_parts(alloc, menu, &form)?;
    }
    Ok(())
}

/// One form has a term whose coefficient has the other sign in the other one.
fn are_apart(one: &Form, other: &Form) -> bool {
    for term in one.terms() {
        let coefficient = other.coefficient(term.symbol);
        if coefficient != 0 && (coefficient > 0) != (term.coefficient > 0) {
            return true;
        }
    }
    false
}

/// Adds the sums of a fact with others that cancel some of it.
fn add_sums(
    alloc: Global,
    sums: &mut Vec<Form>,
    one: &Form,
    others: &[Form],
) -> Result<(), AllocError> {
    for other in others {
        if sums.len() < SUMS && are_apart(one, other) {
            if let Some(sum) = try_sum(alloc, one, other)? {
                sums.push(sum)?;
            }
        }
    }
    Ok(())
}

/// The facts with products, and sums of two of them.
fn facts_and_sums(alloc: Global, facts: Vec<Form>) -> Result<Vec<Form>, AllocError> {
    let mut sums = Vec::new(alloc);
    let first = facts.get(..FACTS.min(facts.len())).unwrap_or(&[]);
    let room = SUMS.saturating_sub(facts.len());
    for (place, one) in first.iter().enumerate() {
        let others = first.get(place.saturating_add(1)..).unwrap_or(&[]);
        if sums.len() < room {
            add_sums(alloc, &mut sums, one, others)?;
        }
    }
    let mut all = facts;
    for sum in sums {
        all.push(sum)?;
    }
    Ok(all)
}

/// The sums of a fact with products and one without that cancel some of it.
fn mixed_sums(alloc: Global, facts: &[Form]) -> Result<Vec<Form>, AllocError> {
    let mut sums = Vec::new(alloc);
    for one in facts {
        if has_product(one) {
            add_mixed(alloc, &mut sums, one, facts)?;
        }
    }
    Ok(sums)
}

/// Adds the sums of a fact with others of two terms and more, without products, that cancel some of it.
fn add_mixed(
    alloc: Global,
    sums: &mut Vec<Form>,
    one: &Form,
    others: &[Form],
) -> Result<(), AllocError> {
    for other in others {
        let is_mixed = other.terms().len() >= 2 && !has_product(other);
        if is_mixed && sums.len() < SUMS && count_opposite(one, other) > 0 {
            if let Some(sum) = try_sum(alloc, one, other)? {
                sums.push(sum)?;
            }
        }
    }
    Ok(())
}

/// The number of terms of a form that lack a symbol among their factors.
fn count_without(form: &Form, symbol: Symbol) -> usize {
    let factor = symbol.number.saturating_add(1);
    let mut count = 0usize;
    for term in form.terms() {
        if !Factors::of(term.symbol).each().contains(&factor) {
            count = count.saturating_add(1);
        }
    }
    count
}

/// Adds what a symbol multiplies in a fact, where it has few terms besides.
fn add_share_of_fact(alloc: Global, menu: &mut Menu, fact: &Form, share: Share) {
    let rest = count_without(fact, share.symbol);
    let is_long = share.form.terms().len() >= 2;
    if rest == 0 && fact.constant_part() < 0 {
        if is_long || share.form.constant_part() != 0 {
            menu.add_made(plus(alloc, &share.form, -1));
        }
    } else if rest <= 3 && is_long {
        menu.add(share.form);
    }
}

/// Adds what symbols multiply in a fact.
fn add_fact(alloc: Global, menu: &mut Menu, fact: &Form) -> Result<(), AllocError> {
    for share in shares_of(alloc, fact)? {
        add_share_of_fact(alloc, menu, fact, share);
    }
    Ok(())
}

/// Forms that may serve as lemmas of facts, the likeliest first, so many at most or somewhat more.
pub fn lemmas_for(
    alloc: Global,
    facts: &[Form],
    multiplied: Multiplied<'_>,
    most: usize,
) -> Result<Vec<Form>, AllocError> {
    let mut menu = Menu::beside(alloc, facts)?;
    let products = with_products(alloc, facts)?;
    let factors = factors_in_all(alloc, products.as_slice())?;
    let mut hashes = hashes_of(alloc, facts)?;
    hashes.sort_unstable();
    let hashes = hashes.as_slice();
    if products.is_empty() {
        add_digits(alloc, &mut menu, facts, hashes);
        return menu.forms();
    }
    add_following(
        alloc,
        &mut menu,
        &multiplied,
        factors.as_slice(),
        facts,
        hashes,
    );
    add_copies(alloc, &mut menu, factors.as_slice());
    for fact in products.as_slice() {
        add_factors(alloc, &mut menu, fact);
    }
    let equalities = all_equalities(alloc, facts)?;
    for form in equalities.iter().rev() {
        if menu.found.len() < most {
            add_equality(alloc, &mut menu, form)?;
        }
    }
    if menu.found.len() < most {
        let all = facts_and_sums(alloc, products)?;
        add_facts(alloc, &mut menu, all.as_slice(), most)?;
    }
    if menu.found.len() < most {
        let all = mixed_sums(alloc, facts)?;
        add_facts(alloc, &mut menu, all.as_slice(), most)?;
    }
    if menu.found.len() < most {
        add_digits(alloc, &mut menu, facts, hashes);
    }
    menu.forms()
}

/// Adds what symbols multiply in facts, while there are too few.
fn add_facts(
    alloc: Global,
    menu: &mut Menu,
    facts: &[Form],
    most: usize,
) -> Result<(), AllocError> {
    for fact in facts {
        if menu.found.len() < most {
            add_fact(alloc, menu, fact)?;
        }
    }
    Ok(())
}
