//! Linear forms over numbered symbols, with their sums, differences, multiples and products.

ghost use Rattle.std.specs.Prelude.{◌≡◌, ℕ, ℤ, pos, negsuc, true, false, ◌+ℤ◌, ◌-ℤ◌, ◌*ℤ◌, ◌<ℤ◌, ◌&&◌, [], ◌∷◌, None, Some, IfOk, OnOk, IsErrOf, IfSome, MatchOption, length, IsTrue, ◌↔◌};
ghost use Rattle.linear.specs.Linear.{value_of, IsMet};
ghost use Rattle.linear.specs.Exact.{sum, multiple, form_without, coefficient_of, substituted, with_value, quotient, all_divide, fits, fits_i64, is_rising, over, form_over};
ghost use Rattle.linear.specs.Products.{IsMultiplicative, plus_multiple, varying, product};
ghost use Rattle.linear.specs.Terms.{terms, numbers, are_rising, are_i64};

use super::merge::{coefficient_at, combine_terms, divide_terms, with_symbols, without_symbol};
use super::products::add_rows;
use super::term::{Symbol, Term, combine};
use super::term_list::TermList;
use std::alloc::{AllocError, AllocFailed, Global};
use thiserror::Error;

/// A sum of terms and a constant.
#[derive(Debug, Drop)]
pub struct Form {
    terms: TermList,
    constant: i64,
    ghost rising: { are_rising terms.terms.items ≡ true },
    ghost in_range: { are_i64 terms.terms.items ≡ true },
    ghost constant_in_range: { fits_i64 constant ≡ true },
}

/// Says of a form that it is at least 0.
pub type Fact = Form;

/// The reasons for which there is no form.
#[derive(Error, Debug, Drop)]
pub enum LinearError {
    #[error("number too large")]
    TooLarge,
    #[error("out of memory")]
    Memory,
}

impl LinearError {
    ghost use Rattle.linear.specs.Errors.{error_number};

    /// The number under which the refusal is told.
    pub fn number(&self) -> u32
        ensures { result ≡ error_number self.now }
    {
        match self {
            LinearError::TooLarge => 54,
            LinearError::Memory => 90,
        }
    }
}

impl From<AllocError> for LinearError {
    ghost use Rattle.linear.specs.declared.form.LinearError.TheVariants.{Memory};

    ghost from_gives = { λ _ e. e ≡ Memory };

    fn from(_: AllocError) -> LinearError {
        LinearError::Memory
    }
}

impl<T: Drop> From<AllocFailed<T>> for LinearError {
    ghost use Rattle.linear.specs.declared.form.LinearError.TheVariants.{Memory};

    ghost from_gives = { λ _ e. e ≡ Memory };

    fn from(_: AllocFailed<T>) -> LinearError {
        LinearError::Memory
    }
}

impl Form {
    ghost use Rattle.linear.specs.Forms.{form};

    /// A form with no terms.
    pub fn constant(alloc: Global, constant: i64) -> Form
        ensures { form result ≡ record { terms = []; constant = constant } }
    {
        Form {
            terms: TermList::new(alloc),
            constant,
        }
    }

    /// The form that is one symbol, once.
    pub fn symbol(alloc: Global, symbol: Symbol) -> Result<Form, AllocError>
        ensures { IfOk result
            (λ f. form f ≡ record { terms = record { coefficient = pos 1; symbol = symbol.number } ∷ []; constant = pos 0 }) }
    {
        let mut terms = TermList::new(alloc);
        terms.push(Term {
            symbol,
            coefficient: 1,
        })?;
        Ok(Form { terms, constant: 0 })
    }

    /// The terms, in rising order of their symbols.
    pub fn terms(&self) -> &[Term]
        ensures { terms result.now ≡ (form self.now).terms }
    {
        self.terms.as_slice()
    }

    /// The constant of the form.
    pub fn constant_part(&self) -> i64
        ensures { result ≡ (form self.now).constant }
    {
        self.constant
    }

    /// A copy of the form.
    pub fn copy(&self, alloc: Global) -> Result<Form, AllocError>
        ensures { IfOk result (λ f. form f ≡ form self.now) }
    {
        let terms = TermList::from_slice(alloc, self.terms.as_slice())?;
        Ok(Form {
            terms,
            constant: self.constant,
        })
    }

    /// The sum of two forms.
    pub fn add(&self, alloc: Global, other: &Form) -> Result<Form, LinearError>
        ensures exact { IfOk result (λ f. form f ≡ sum (form self.now) (form other.now)) }
        ensures value { IfOk result (λ f. (v : ℕ → ℤ) → value_of v (form f) ≡ value_of v (form self.now) +ℤ value_of v (form other.now)) }
        ensures fits { OnOk result (fits (sum (form self.now) (form other.now)) ≡ true) }
        ensures too_large { IsErrOf result LinearError.TooLarge → fits (sum (form self.now) (form other.now)) ≡ false }
    {
        self.plus_multiple(alloc, 1, other)
    }

    /// The difference of two forms: a form and -1 times the other one.
    pub fn sub(&self, alloc: Global, other: &Form) -> Result<Form, LinearError>
        ensures exact { IfOk result (λ f. form f ≡ sum (form self.now) (multiple (negsuc 0) (form other.now))) }
        ensures value { IfOk result (λ f. (v : ℕ → ℤ) → value_of v (form f) ≡ value_of v (form self.now) -ℤ value_of v (form other.now)) }
        ensures fits { OnOk result (fits (sum (form self.now) (multiple (negsuc 0) (form other.now))) ≡ true) }
        ensures too_large { IsErrOf result LinearError.TooLarge
            → fits (sum (form self.now) (multiple (negsuc 0) (form other.now))) ≡ false }
    {
        self.plus_multiple(alloc, -1, other)
    }

    /// A multiple of the form.
    pub fn times(&self, alloc: Global, k: i64) -> Result<Form, LinearError>
        ensures exact { IfOk result (λ f. form f ≡ multiple k (form self.now)) }
        ensures value { IfOk result (λ f. (v : ℕ → ℤ) → value_of v (form f) ≡ k *ℤ value_of v (form self.now)) }
        ensures fits { OnOk result (fits (multiple k (form self.now)) ≡ true) }
        ensures too_large { IsErrOf result LinearError.TooLarge → fits (multiple k (form self.now)) ≡ false }
    {
        let none = Form::constant(alloc, 0);
        none.plus_multiple(alloc, k, self)
    }

    /// The form with another one in place of a symbol.
    pub fn substitute(
        &self,
        alloc: Global,
        symbol: Symbol,
        other: &Form,
    ) -> Result<Form, LinearError>
        ensures exact { IfOk result (λ f. form f ≡ substituted symbol.number (form self.now) (form other.now)) }
        ensures value { IfOk result (λ f. (v : ℕ → ℤ) → value_of v (form f)
            ≡ value_of (with_value v symbol.number (value_of v (form other.now))) (form self.now)) }
        ensures fits { OnOk result (fits (substituted symbol.number (form self.now) (form other.now)) ≡ true) }
        ensures too_large { IsErrOf result LinearError.TooLarge
            → fits (substituted symbol.number (form self.now) (form other.now)) ≡ false }
    {
        let rest = self.without(alloc, symbol)?;
        rest.plus_multiple(alloc, self.coefficient(symbol), other)
    }

    /// The coefficient of a symbol, 0 where there is no term of it.
    pub fn coefficient(&self, symbol: Symbol) -> i64
        ensures { result ≡ coefficient_of symbol.number (form self.now).terms }
    {
        coefficient_at(self.terms.as_slice(), symbol)
    }

    /// The form less its term of a symbol.
    fn without(&self, alloc: Global, symbol: Symbol) -> Result<Form, AllocError>
        ensures { IfOk result (λ f. form f ≡ form_without symbol.number (form self.now)) }
    {
        let terms = without_symbol(alloc, self.terms.as_slice(), symbol)?;
        Ok(Form {
            terms,
            constant: self.constant,
        })
    }

    /// The form with other symbols, one for each term, which rise as well.
    pub fn with_symbols(&self, alloc: Global, symbols: &[Symbol]) -> Result<Form, AllocError>
        requires each { length symbols.now ≡ length self.now.terms.terms.items }
        requires rising { is_rising 0 (over (numbers symbols.now) (form self.now).terms) ≡ true }
        ensures { IfOk result (λ f. form f ≡ form_over (numbers symbols.now) (form self.now)) }
    {
        let terms = with_symbols(alloc, self.terms.as_slice(), symbols)?;
        Ok(Form {
            terms,
            constant: self.constant,
        })
    }

    /// The form and a multiple of another one.
    fn plus_multiple(&self, alloc: Global, k: i64, other: &Form) -> Result<Form, LinearError>
        ensures exact { IfOk result (λ f. form f ≡ sum (form self.now) (multiple k (form other.now))) }
        ensures fits { OnOk result (fits (sum (form self.now) (multiple k (form other.now))) ≡ true) }
        ensures too_large { IsErrOf result LinearError.TooLarge → fits (sum (form self.now) (multiple k (form other.now))) ≡ false }
    {
        let Some(constant) = combine(self.constant, k, other.constant) else {
            return Err(LinearError::TooLarge);
        };
        let terms = combine_terms(alloc, self.terms.as_slice(), k, other.terms.as_slice())?;
        Ok(Form { terms, constant })
    }

    /// The form and a multiple of another one, where all numbers are `i64`.
    pub(crate) fn settled(
        &self,
        alloc: Global,
        k: i64,
        other: &Form,
    ) -> Result<Option<Form>, AllocError>
        ensures { IfOk result (λ r. MatchOption r (plus_multiple (form self.now) k (form other.now) ≡ None)
            (λ f. plus_multiple (form self.now) k (form other.now) ≡ Some (form f))) }
    {
        match self.plus_multiple(alloc, k, other) {
            Ok(form) => Ok(Some(form)),
            Err(LinearError::TooLarge) => Ok(None),
            Err(LinearError::Memory) => Err(AllocError),
        }
    }

    /// The form less its constant.
    fn varying(&self, alloc: Global) -> Result<Form, AllocError>
        ensures { IfOk result (λ f. form f ≡ varying (form self.now)) }
    {
        let terms = TermList::from_slice(alloc, self.terms.as_slice())?;
        Ok(Form { terms, constant: 0 })
    }

    /// The product of two forms, where all products of their symbols are, and each number of a sum on the way is an `i64`.
    pub fn product(&self, alloc: Global, other: &Form) -> Result<Option<Form>, AllocError>
        ensures exact { IfOk result (λ r. MatchOption r
            (product (form self.now) (form other.now) ≡ None) (λ f. product (form self.now) (form other.now) ≡ Some (form f))) }
        ensures value { IfOk result (λ r. IfSome r (λ f. (v : ℕ → ℤ) → IsMultiplicative v
            → value_of v (form f) ≡ value_of v (form self.now) *ℤ value_of v (form other.now))) }
    {
        let none = Form::constant(alloc, 0);
        let Some(constants) = none.settled(alloc, other.constant, self)? else {
            return Ok(None);
        };
        let varying = other.varying(alloc)?;
        let Some(start) = constants.settled(alloc, self.constant, &varying)? else {
            return Ok(None);
        };
        add_rows(alloc, start, self.terms.as_slice(), other.terms.as_slice())
    }

    /// The form with each coefficient divided and the constant rounded down, where each coefficient divides.
    pub fn divided(&self, alloc: Global, divisor: i64) -> Result<Option<Form>, AllocError>
        requires { pos 0 <ℤ divisor }
        ensures exact { IfOk result (λ r. MatchOption r (all_divide divisor (form self.now).terms ≡ false)
            (λ f. (all_divide divisor (form self.now).terms ≡ true) × (form f ≡ quotient divisor (form self.now)))) }
        ensures met { IfOk result (λ r. IfSome r (λ f. (v : ℕ → ℤ) → IsMet v (form self.now) → IsMet v (form f))) }
    {
        let constant = self.constant.div_euclid(divisor);
        let Some(terms) = divide_terms(alloc, self.terms.as_slice(), divisor)? else {
            return Ok(None);
        };
        Ok(Some(Form { terms, constant }))
    }
}
