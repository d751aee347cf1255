//! Notes of a certificate whose entries are taken one by one.

ghost use Rattle.std.specs.Prelude.{◌≡◌, true, false, [], ◌∷◌, ◌++◌, Bool, List, None, Some, cond, map, IfOk, IfSome, MatchOption, OnOk};
ghost use Rattle.std.specs.Option.{option_map};
ghost use Rattle.semantics.specs.Launch as launch;
ghost use Rattle.arrivals.specs.Places.{Place as PlaceMeant};
ghost use Rattle.kernel_names.specs.NameMap.{NameMap};
ghost use Rattle.certificate_text.specs.Certificate as certificates;
ghost use Rattle.certificate.specs.EntriesLeft.{with_entries};
ghost use Rattle.certificate.specs.View as view;
ghost use Rattle.places.specs.View.{place as place_seen};
ghost use Rattle.obligations.specs.Telling.{TellsOfItems};
ghost use Rattle.obligations.specs.View.{seen};
ghost use Rattle.certificate_notes.specs.Gathered.{and_entry, front as front_seen, gathered};
ghost use Rattle.certificate_notes.specs.Noted as noted;
ghost use Rattle.certificate_notes.specs.Noted.{Noted};
ghost use Rattle.certificate_notes.specs.Noting as noting;
ghost use Rattle.certificate_notes.specs.Noting.{Agrees};
ghost use Rattle.certificate_notes.specs.NamesView.{names as names_seen};
ghost use Rattle.certificate_notes.specs.NotesView.{notes as notes_seen};

use crate::error::NamesError;
use crate::front::{Front, noted_before};
use crate::lemmas::are_stated;
use crate::names::Names;
use crate::quotients::push_quotient;
use certificate::tree::Entry;
use obligations::Notes;
use places::Place;
use std::alloc::Global;

/// The notes that a certificate makes of a kernel, while its entries are taken one by one. Once one names what the kernel lacks, that
/// alone is kept.
#[derive(Drop)]
pub struct Gathering {
    notes: Option<Notes>,
}

/// Adds what an entry says to notes; false where it names what the kernel lacks.
fn note_entry(
    alloc: Global,
    names: &Names<'_>,
    entry: &Entry,
    notes: &mut Notes,
) -> Result<bool, NamesError>
    ensures { IfOk result (λ b. cond b (Some (notes_seen notes.new)) None ≡ and_entry (names_seen names.now) (view.entry entry.now) (Some (notes_seen notes.old))) }
{
    if !are_stated(alloc, names, entry.lemmas.as_slice())? {
        return Ok(false);
    }
    push_quotient(alloc, names, entry, &mut notes.quotients)
}

impl Gathering {
    /// Takes in the front of a certificate. No entry is taken.
    pub fn begin(
        alloc: Global,
        names: &Names<'_>,
        kernel_places: &[Place<'_>],
        front: &Front<'_>,
    ) -> Result<Gathering, NamesError>
        ensures { IfOk result (λ g. gathered g ≡ noted.noted_by (names_seen names.now) (map place_seen kernel_places.now) (front_seen front.now)) }
    {
        let notes = noted_before(alloc, names, kernel_places, front)?;
        Ok(Gathering { notes })
    }

    /// The notes, with what an entry says.
    fn take(&mut self, alloc: Global, names: &Names<'_>, entry: &Entry) -> Result<(), NamesError>
        ensures { OnOk result (gathered self.new ≡ and_entry (names_seen names.now) (view.entry entry.now) (gathered self.old)) }
    {
        let Some(notes) = &mut self.notes else {
            return Ok(());
        };
        if !note_entry(alloc, names, entry, notes)? {
            self.notes = None;
        }
        Ok(())
    }

    /// Takes the entry behind those so far. The names are the kernel's, as at the beginning. After an error nothing is known of the notes.
    pub fn add(&mut self, alloc: Global, names: &Names<'_>, entry: &Entry) -> Result<(), NamesError>
        ensures { OnOk result ((ps : List PlaceMeant) (cert : certificates.Certificate) (es : List certificates.Entry) → gathered self.old ≡ noted.noted_by (names_seen names.now) ps (with_entries es cert) → gathered self.new ≡ noted.noted_by (names_seen names.now) ps (with_entries (es ++ view.entry entry.now ∷ []) cert)) }
    {
        self.take(alloc, names, entry)?;
        Ok(())
    }

    /// The notes of all that was taken; none where the kernel lacks what is named there.
    pub fn notes(self) -> Option<Notes>
        ensures all { option_map notes_seen result ≡ gathered self }
        ensures lacks { (k : launch.Kernel) (names : NameMap) (ps : List PlaceMeant) (cert : certificates.Certificate) → gathered self ≡ noted.noted k names ps cert → MatchOption result (noting.lacks k names ps cert ≡ true) (λ _. noting.lacks k names ps cert ≡ false) }
        ensures notes { (k : launch.Kernel) (names : NameMap) (ps : List PlaceMeant) (cert : certificates.Certificate) → gathered self ≡ noted.noted k names ps cert → IfSome result (λ n. (entries : List Bool) (m : Noted) → noted.noted k names ps cert ≡ Some m → Agrees (seen n entries) (noting.notes_by m entries)) }
        ensures items { (k : launch.Kernel) (names : NameMap) (ps : List PlaceMeant) (cert : certificates.Certificate) → gathered self ≡ noted.noted k names ps cert → IfSome result (λ n. (entries : List Bool) → TellsOfItems (seen n entries)) }
    {
        self.notes
    }
}
