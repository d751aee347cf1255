//! What a certificate says of a kernel, as notes.

ghost use Rattle.std.specs.Prelude.{◌≡◌, Bool, true, false, List, [], Some, IfOk, IfSome, MatchOption, OnOk, map};
ghost use Rattle.std.specs.Option.{option_map};
ghost use Rattle.kernel_names.specs.View.{names_seen as map_seen};
ghost use Rattle.core_code.specs.View.{kernel as core_seen};
ghost use Rattle.arrivals.specs.Places.{Place as PlaceMeant};
ghost use Rattle.certificate_text.specs.Certificate as certificates;
ghost use Rattle.certificate.specs.Certificates.{certificate as certificate_seen};
ghost use Rattle.certificate.specs.EntriesLeft.{with_entries};
ghost use Rattle.certificate.specs.View as view;
ghost use Rattle.places.specs.View.{place as place_seen};
ghost use Rattle.obligations.specs.Telling.{TellsOfItems};
ghost use Rattle.obligations.specs.View.{seen};
ghost use Rattle.certificate_notes.specs.Gathered.{gathered};
ghost use Rattle.certificate_notes.specs.Noted as noted;
ghost use Rattle.certificate_notes.specs.Noted.{Noted};
ghost use Rattle.certificate_notes.specs.Noting as noting;
ghost use Rattle.certificate_notes.specs.Noting.{Agrees};
ghost use Rattle.certificate_notes.specs.NamesView.{names as names_seen};
ghost use Rattle.certificate_notes.specs.NotesView.{notes as notes_seen};

use crate::error::NamesError;
use crate::front::Front;
use crate::gathering::Gathering;
use crate::lemmas::names_of;
use crate::names::Names;
use certificate::Certificate;
use certificate::tree::Entry;
use obligations::Notes;
use places::Place;
use std::alloc::Global;
use typed_kernels::Typed;

/// Takes entries, one by one.
fn add_all(
    alloc: Global,
    names: &Names<'_>,
    entries: &[Entry],
    gathering: &mut Gathering,
) -> Result<(), NamesError>
    ensures { OnOk result ((ps : List PlaceMeant) (cert : certificates.Certificate) → gathered gathering.old ≡ noted.noted_by (names_seen names.now) ps (with_entries [] cert) → gathered gathering.new ≡ noted.noted_by (names_seen names.now) ps (with_entries (map view.entry entries.now) cert)) }
{
    for entry in entries {
        gathering.add(alloc, names, entry)?;
    }
    Ok(())
}

/// The notes that a certificate makes of a kernel; none where a loop lacks its line, or the kernel lacks what a line names.
fn noted_by(
    alloc: Global,
    names: &Names<'_>,
    kernel_places: &[Place<'_>],
    certificate: &Certificate,
) -> Result<Option<Notes>, NamesError>
    ensures { IfOk result (λ r. option_map notes_seen r ≡ noted.noted_by (names_seen names.now) (map place_seen kernel_places.now) (certificate_seen certificate.now)) }
{
    let front = Front {
        is_wide: certificate.is_wide(),
        joins: certificate.joins(),
        places: certificate.places(),
        bounds: certificate.bounds(),
    };
    let mut gathering = Gathering::begin(alloc, names, kernel_places, &front)?;
    add_all(alloc, names, certificate.entries(), &mut gathering)?;
    Ok(gathering.notes())
}

/// The notes that a certificate makes of a kernel's places and loops; none where it names what the kernel lacks. Which obligations have an
/// entry is the caller's.
pub fn notes_of(
    alloc: Global,
    kernel: &Typed,
    places: &[Place<'_>],
    certificate: &Certificate,
) -> Result<Option<Notes>, NamesError>
    ensures lacks { IfOk result (λ r. MatchOption r (noting.lacks (core_seen kernel.now.1) (map_seen kernel.now.0) (map place_seen places.now) (certificate_seen certificate.now) ≡ true) (λ _. noting.lacks (core_seen kernel.now.1) (map_seen kernel.now.0) (map place_seen places.now) (certificate_seen certificate.now) ≡ false)) }
    ensures notes { IfOk result (λ r. IfSome r (λ n. (entries : List Bool) (m : Noted) → noted.noted (core_seen kernel.now.1) (map_seen kernel.now.0) (map place_seen places.now) (certificate_seen certificate.now) ≡ Some m → Agrees (seen n entries) (noting.notes_by m entries))) }
    ensures items { IfOk result (λ r. IfSome r (λ n. (entries : List Bool) → TellsOfItems (seen n entries))) }
    ensures all { IfOk result (λ r. option_map notes_seen r ≡ noted.noted (core_seen kernel.now.1) (map_seen kernel.now.0) (map place_seen places.now) (certificate_seen certificate.now)) }
{
    let names = names_of(alloc, kernel)?;
    noted_by(alloc, &names, places, certificate)
}
