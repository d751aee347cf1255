//! What is taken into a tableau: facts, and products of two of them.

use crate::hashes::hash_of;
use crate::lemmas::lemmas_for;
use crate::monomials::{Couple, closed, equal_couples, partings, products_of, widened};
use crate::multiplying::{
    Factor, LARGE, Multiplied, Source, copy_factors, factor_of, factors_of, pairs_of,
    pairs_with_last,
};
use crate::unnamed::{add_couples, is_named, named, values_of};
use guesses::copied;
use linear::{Form, Symbol};
use std::alloc::{AllocError, Global};

/// So many products are taken in, at most.
const MOST: usize = 600;

/// So many are taken in with one symbol more, at most.
const WIDE: usize = 400;

/// Facts and lemmas, and what is taken into a tableau, in its order, each with what it is.
#[derive(Drop)]
pub struct Pool {
    /// The facts, and the lemmas behind them.
    pub known: Vec<Form>,
    pub forms: Vec<Form>,
    pub sources: Vec<Source>,
    hashes: Vec<u64>,
    products: Vec<Symbol>,
    partings: Vec<Couple>,
    factors: Vec<Factor>,
    /// The slots of variables that lemmas cannot name.
    unnamed: Vec<u64>,
    /// The number of facts among what is known. One with a constant as large as that is not multiplied.
    given: usize,
    large: u64,
}

/// Copies each form of a list. The error is want of memory.
fn copies(alloc: Global, forms: &[Form]) -> Result<Vec<Form>, AllocError> {
    let mut all = Vec::with_capacity(alloc, forms.len())?;
    for form in forms {
        all.push(copied(alloc, form)?)?;
    }
    Ok(all)
}

/// A number that stands behind so many.
fn next_number(count: usize) -> u32 {
    u32::try_from(count).unwrap_or(u32::MAX).saturating_add(1)
}

impl Pool {
    /// A pool of facts and of products of two of them.
    pub fn of_facts(
        alloc: Global,
        facts: &[Form],
        unnamed: &[u64],
        large: u64,
    ) -> Result<Pool, AllocError> {
        let mut pool = Pool::bare(alloc, facts, unnamed, large)?;
        let products = pool.at_hand(alloc)?;
        pool.take_products(alloc, products)?;
        Ok(pool)
    }

    /// A pool of facts and of products of two of them, where one symbol of a product may be another one that stands beside it in a short
    /// fact; none where those are too many, or nothing more.
    pub fn wide(
        alloc: Global,
        facts: &[Form],
        unnamed: &[u64],
        large: u64,
    ) -> Result<Option<Pool>, AllocError> {
        let mut pool = Pool::bare(alloc, facts, unnamed, large)?;
        let products = pool.at_hand(alloc)?;
        let count = products.len();
        let products = widened(alloc, products, facts)?;
        if products.len() == count {
            return Ok(None);
        }
        pool.take_products(alloc, products)?;
        if pool.forms.len() > facts.len().saturating_add(WIDE) {
            return Ok(None);
        }
        Ok(Some(pool))
    }

    /// The same pool once more.
    pub fn copy(&self, alloc: Global) -> Result<Pool, AllocError> {
        let known = copies(alloc, self.known.as_slice())?;
        let forms = copies(alloc, self.forms.as_slice())?;
        Ok(Pool {
            known,
            forms,
            sources: self.sources.clone()?,
            hashes: self.hashes.clone()?,
            products: self.products.clone()?,
            factors: copy_factors(alloc, self.factors.as_slice())?,
            partings: self.partings.clone()?,
            unnamed: self.unnamed.clone()?,
            given: self.given,
            large: self.large,
        })
    }

    /// A pool of facts alone.
    fn bare(
        alloc: Global,
        facts: &[Form],
        unnamed: &[u64],
        large: u64,
    ) -> Result<Pool, AllocError> {
        let mut pool = Pool {
            known: Vec::new(alloc),
            forms: Vec::new(alloc),
            sources: Vec::new(alloc),
            hashes: Vec::new(alloc),
            products: Vec::new(alloc),
            factors: Vec::new(alloc),
            partings: Vec::new(alloc),
            unnamed: Vec::from_slice(alloc, unnamed)?,
            given: facts.len(),
            large,
        };
        for fact in facts {
            pool.put_known(alloc, fact)?;
        }
        Ok(pool)
    }

    /// The products at hand, with those that equalities give, also in the place of variables that lemmas cannot name.
    fn at_hand(&self, alloc: Global) -> Result<Vec<Symbol>, AllocError> {
        let known = self.known.as_slice();
        let mut couples = equal_couples(alloc, known)?;
        let values = values_of(alloc, self.unnamed.as_slice(), known)?;
        add_couples(&mut couples, values.as_slice())?;
        let products = products_of(alloc, known)?;
        closed(alloc, products, couples.as_slice())
    }

    /// Takes in a fact or a lemma, without products.
    fn put_known(&mut self, alloc: Global, form: &Form) -> Result<(), AllocError> {
        let first = next_number(self.known.len());
        let own = copied(alloc, form)?;
        self.put(own, Source { first, second: 0 })?;
        self.known.push(copied(alloc, form)?)?;
        Ok(())
    }

    /// Takes in a form that is not there.
    fn put(&mut self, form: Form, source: Source) -> Result<(), AllocError> {
        self.hashes.push(hash_of(&form))?;
        self.sources.push(source)?;
        self.forms.push(form)?;
        Ok(())
    }

    /// Takes in one more lemma, and products of it and of what it allows.
    pub fn add(&mut self, alloc: Global, form: &Form) -> Result<(), AllocError> {
        self.put_known(alloc, form)?;
        let products = self.at_hand(alloc)?;
        if products.as_slice() != self.products.as_slice() {
            return self.take_products(alloc, products);
        }
        let number = next_number(self.known.len()).saturating_sub(1);
        if let Some(factor) = factor_of(alloc, self.partings.as_slice(), number, form, LARGE)? {
            self.factors.push(factor)?;
            let pairs = pairs_with_last(alloc, self.factors.as_slice())?;
            self.multiply(alloc, pairs.as_slice())?;
        }
        Ok(())
    }

    /// Takes in all products of two facts that have no products but these.
    fn take_products(&mut self, alloc: Global, products: Vec<Symbol>) -> Result<(), AllocError> {
        self.partings = partings(alloc, products.as_slice())?;
        self.products = products;
        self.factors = factors_of(
            alloc,
            self.partings.as_slice(),
            self.known.as_slice(),
            self.given,
            self.large,
        )?;
        let pairs = pairs_of(alloc, self.factors.as_slice())?;
        self.multiply(alloc, pairs.as_slice())
    }

    /// Takes in the products of pairs of facts.
    fn multiply(&mut self, alloc: Global, pairs: &[Source]) -> Result<(), AllocError> {
        for pair in pairs {
            if self.forms.len() >= self.known.len().saturating_add(MOST) {
                return Ok(());
            }
            self.multiply_pair(alloc, *pair)?;
        }
        Ok(())
    }

    fn multiply_pair(&mut self, alloc: Global, pair: Source) -> Result<(), AllocError> {
        let (Some(first), Some(second)) = (self.fact(pair.first), self.fact(pair.second)) else {
            return Ok(());
        };
        match first.product(alloc, second)? {
            Some(form) if !self.has(&form) => self.put(form, pair),
            _ => Ok(()),
        }
    }

    /// Forms that may serve as lemmas of what is known, the likeliest first, so many at most or somewhat more.
    pub fn menu(&self, alloc: Global, most: usize) -> Result<Vec<Form>, AllocError> {
        let multiplied = Multiplied {
            partings: self.partings.as_slice(),
            large: self.large,
        };
        lemmas_for(alloc, self.known.as_slice(), multiplied, most)
    }

    fn has(&self, form: &Form) -> bool {
        self.hashes.as_slice().contains(&hash_of(form))
    }

    /// The form as a lemma may say it; none where it cannot be said.
    pub fn said(&self, alloc: Global, form: Form) -> Result<Option<Form>, AllocError> {
        let unnamed = self.unnamed.as_slice();
        if is_named(unnamed, &form) {
            return Ok(Some(form));
        }
        let values = values_of(alloc, unnamed, self.known.as_slice())?;
        named(alloc, unnamed, values.as_slice(), &form)
    }

    /// The fact or the lemma of a number.
    fn fact(&self, number: u32) -> Option<&Form> {
        self.known.get((number as usize).checked_sub(1)?)
    }
}
