//! Forms that may be lemmas, and forms that are listed once.

use crate::hashes::{first_place, hash_of, hashes_of};
use guesses::{copied, try_multiple};
use linear::Form;
use std::alloc::{AllocError, Global};

/// Forms that may be lemmas, each once, and none that is known. That memory ran out is noted.
#[derive(Drop)]
pub struct Menu {
    pub found: Vec<Form>,
    hashes: Vec<u64>,
    ran_out: bool,
}

impl Menu {
    /// A menu of forms that are none of these facts.
    pub fn beside(alloc: Global, facts: &[Form]) -> Result<Menu, AllocError> {
        Ok(Menu {
            found: Vec::new(alloc),
            hashes: hashes_of(alloc, facts)?,
            ran_out: false,
        })
    }

    /// Takes in a form, unless it is there or has no terms; whether there was memory for it.
    fn take(&mut self, form: Form) -> bool {
        let hash = hash_of(&form);
        if form.terms().is_empty() || first_place(self.hashes.as_slice(), hash).is_some() {
            return true;
        }
        self.hashes.push(hash).is_ok() && self.found.push(form).is_ok()
    }

    /// Notes that memory ran out.
    pub fn note_lack(&mut self) {
        self.ran_out = true;
    }

    /// Adds a form that is not known.
    pub fn add(&mut self, form: Form) {
        if !self.take(form) {
            self.note_lack();
        }
    }

    /// Adds a form that was made, unless a number was too large.
    pub fn add_made(&mut self, made: Result<Option<Form>, AllocError>) {
        match made {
            Ok(Some(form)) => self.add(form),
            Ok(None) => {}
            Err(_) => self.note_lack(),
        }
    }

    /// Adds a form that was made.
    pub fn add_one(&mut self, made: Result<Form, AllocError>) {
        match made {
            Ok(form) => self.add(form),
            Err(_) => self.note_lack(),
        }
    }

    /// Adds a form and its opposite.
    pub fn add_both(&mut self, alloc: Global, form: &Form) {
        self.add_one(copied(alloc, form));
        self.add_made(try_multiple(alloc, form, -1));
    }

    /// Adds a form that was made, and its opposite.
    pub fn add_both_made(&mut self, alloc: Global, made: Result<Option<Form>, AllocError>) {
        match made {
            Ok(Some(form)) => self.add_both(alloc, &form),
            Ok(None) => {}
            Err(_) => self.note_lack(),
        }
    }

    /// The forms, unless memory ran out.
    pub fn forms(self) -> Result<Vec<Form>, AllocError> {
        if self.ran_out {
            Err(AllocError)
        } else {
            Ok(self.found)
        }
    }
}

/// Forms with their hashes.
#[derive(Drop)]
pub struct Listed {
    pub forms: Vec<Form>,
    hashes: Vec<u64>,
}

impl Listed {
    pub fn new(alloc: Global) -> Listed {
        Listed {
            forms: Vec::new(alloc),
            hashes: Vec::new(alloc),
        }
    }

    pub fn has(&self, hash: u64) -> bool {
        first_place(self.hashes.as_slice(), hash).is_some()
    }

    /// Adds a form with terms, unless it is there.
    pub fn add(&mut self, form: Form) -> Result<(), AllocError> {
        let hash = hash_of(&form);
        if form.terms().is_empty() || self.has(hash) {
            return Ok(());
        }
        self.hashes.push(hash)?;
        self.forms.push(form)?;
        Ok(())
    }
}
