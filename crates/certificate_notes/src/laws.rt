//! Laws of the definitions, each the contract of a function that does nothing.

ghost use Rattle.std.specs.Prelude.{◌≡◌, Bool, List, Some};
ghost use Rattle.semantics.specs.Launch as launch;
ghost use Rattle.arrivals.specs.Places as places;
ghost use Rattle.obligations.specs.Telling.{TellsOfItems};
ghost use Rattle.kernel_names.specs.NameMap.{NameMap};
ghost use Rattle.certificate_text.specs.Certificate.{Certificate};
ghost use Rattle.certificate_notes.specs.Noted.{Noted, noted};
ghost use Rattle.certificate_notes.specs.Noting.{notes_by};

/// The notes of a kernel's places and loops speak of items alone, whichever obligations have an entry.
pub fn what_is_noted_tells_of_items()
    ensures { (k : launch.Kernel) (names : NameMap) (ps : List places.Place) (cert : Certificate) (m : Noted) (entries : List Bool) → noted k names ps cert ≡ Some m → TellsOfItems (notes_by m entries) }
{}
