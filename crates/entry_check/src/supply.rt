//! The entries of a certificate, asked for by the numbers of their obligations.

ghost use Rattle.std.specs.Prelude.{◌≡◌};
ghost use Rattle.entry_check.specs.Supplied.{is_held_up_to};

use certificate::Entries;
use certificate::tree::Entry;
use std::alloc::AllocError;

/// Entries as they are read, of which the next one is held.
#[derive(Drop)]
pub struct Supply<'e, 't> {
    entries: &'e mut Entries<'t>,
    held: Option<Entry>,
}

/// An entry is held, and its number is not past this one.
fn is_up_to(held: &Option<Entry>, last: u64) -> bool
    ensures { result ≡ is_held_up_to held.now last }
{
    match held {
        Some(entry) => entry.obligation <= last,
        None => false,
    }
}

impl<'e, 't> Supply<'e, 't> {
    ghost use Rattle.std.specs.Prelude.{◌≡◌, ◌+◌, ◌<◌, ◌≤◌, ℕ, None, Some, true, IfOk, MatchOption};
    ghost use Rattle.certificate_text.specs.Rules.{rises, entry_is_before};
    ghost use Rattle.certificate.specs.EntryCursors.{left, stopped};
    ghost use Rattle.certificate.specs.View.{entry as entry_seen};
    ghost use Rattle.entry_check.specs.Entries.{entry_of, is_past};
    ghost use Rattle.entry_check.specs.Supplied.{IsReady, IsWhole, ahead, begin_from};

    /// Holds the next entry, where none is held. There is none only where all were read. A fault of the text, which does not come, is
    /// answered as want of memory.
    fn pull(&mut self) -> Result<(), AllocError>
        requires none { self.old.held ≡ None }
        requires whole { IsWhole self.old }
        ensures ready { IfOk result (λ _. IsReady self.new) }
        ensures same { IfOk result (λ _. ahead self.new ≡ ahead self.old) }
    {
        match self.entries.next() {
            Ok(entry) => {
                self.held = entry;
                Ok(())
            }
            Err(_) => Err(AllocError),
        }
    }

    /// All entries of a text whose entries rise, and that has no fault.
    pub fn of(entries: &'e mut Entries<'t>) -> Result<Supply<'e, 't>, AllocError>
        requires starts { stopped entries.old ≡ None }
        requires whole { (left entries.old).fault ≡ None }
        requires rises { rises entry_is_before (left entries.old).entries ≡ true }
        ensures ready { IfOk result (λ s. IsReady s) }
        ensures all { IfOk result (λ s. ahead s ≡ (left entries.old).entries) }
    {
        let mut supply = Supply {
            entries,
            held: None,
        };
        supply.pull()?;
        Ok(supply)
    }

    /// Passes over the entries up to this number.
    pub fn pass(&mut self, last: u64) -> Result<(), AllocError>
        requires { IsReady self.old }
        ensures ready { IfOk result (λ _. IsReady self.new) }
        ensures passed { IfOk result (λ _. begin_from (last + 1) (ahead self.new) ≡ true) }
        ensures later { IfOk result (λ _. (n : ℕ) → last < n → entry_of (ahead self.new) n ≡ entry_of (ahead self.old) n) }
        ensures past { IfOk result (λ _. (n : ℕ) → last ≤ n → is_past (ahead self.new) n ≡ is_past (ahead self.old) n) }
    {
        while is_up_to(&self.held, last) {
            self.held = None;
            self.pull()?;
        }
        Ok(())
    }

    /// The entry of this number, if there is one, where the entries before it were passed over.
    pub fn at(&self, number: u64) -> Option<&Entry>
        requires ready { IsReady self.now }
        requires passed { begin_from number (ahead self.now) ≡ true }
        requires last { number ≤ 65536 }
        ensures { MatchOption result (entry_of (ahead self.now) number ≡ None) (λ e. entry_of (ahead self.now) number ≡ Some (entry_seen e.now)) }
    {
        let Some(entry) = &self.held else {
            return None;
        };
        if entry.obligation == number {
            return Some(entry);
        }
        None
    }

    /// An entry is past this number. The entries up to it are passed over.
    pub fn has_past(&mut self, last: u64) -> Result<bool, AllocError>
        requires { IsReady self.old }
        ensures { IfOk result (λ b. b ≡ is_past (ahead self.old) last) }
    {
        self.pass(last)?;
        Ok(self.held.is_some())
    }
}
