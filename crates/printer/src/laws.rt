//! Laws of canonical texts.

ghost use Rattle.std.specs.Prelude.{◌≡◌, ◌≤◌, ℕ, List, length, Ok};
ghost use Rattle.printer.specs.Alike.{AreAlike, IsTextAtAnyLength};
ghost use Rattle.printer.specs.BareCore.{bare_core, bare_checked};
ghost use Rattle.printer.specs.Meaning.{MeansTheSame};
ghost use Rattle.reading.specs.Kernels.{Kernel, Source, text_for, read};
ghost use Rattle.semantics.specs.Setup.{at_launch};
ghost use Rattle.semantics.specs.Headline.{Headline};
ghost use Rattle.semantics.specs.Launch as launch;
ghost use Rattle.semantics.specs.Rounds.{result_by_rounds};
ghost use Rattle.texts.specs.Bare.{bare_kernel};
ghost use Rattle.texts.specs.Brackets.{AllOpenStatements};
ghost use Rattle.texts.specs.Canonical.{canonical};
ghost use Rattle.texts.specs.CanonicalTokens.{IsPrintableKernel};
ghost use Rattle.types.specs.Elaboration.{elaborate};
ghost use Rattle.types.specs.Scope.{Devices};
ghost use Rattle.texts.specs.Spelling.{AreNumbered};
ghost use Rattle.texts.specs.Surface as surface;

/// A kernel that is read can be printed: names are names, numbers are of their kinds, statements are numbered in the order of the source,
/// and their canonical text opens no more brackets at once than a text may.
pub fn what_is_read_can_be_printed()
    ensures { (s : Source) (k : Kernel) → read s ≡ Ok k → IsPrintableKernel k.tree × AreNumbered 1 k.tree.body × AllOpenStatements 63 k.tree.body }
{}

/// The canonical text of a kernel that is read says the same kernel for the same devices, positions aside, however long that text is.
pub fn a_canonical_text_says_what_was_read()
    ensures { (s : Source) (k : Kernel) → read s ≡ Ok k → (l : Kernel) × IsTextAtAnyLength (text_for s.devices (canonical k.tree)) l × AreAlike l k }
{}

/// Within the limit of bytes that kernel is read of it.
pub fn a_canonical_text_is_read_back()
    ensures { (s : Source) (k : Kernel) → read s ≡ Ok k → length (canonical k.tree) ≤ 65536 → (l : Kernel) × (read (text_for s.devices (canonical k.tree)) ≡ Ok l) × AreAlike l k }
{}

/// If a canonical text of a kernel that is read is read in turn, for the same devices, it is the same kernel, positions aside.
pub fn what_is_read_of_a_canonical_text_is_its_kernel()
    ensures { (s : Source) (k l : Kernel) → read s ≡ Ok k → read (text_for s.devices (canonical k.tree)) ≡ Ok l → AreAlike l k }
{}

/// If a canonical text is read and printed again, it gives the same bytes.
pub fn a_canonical_text_is_its_own()
    ensures { (s : Source) (k l : Kernel) → read s ≡ Ok k → read (text_for s.devices (canonical k.tree)) ≡ Ok l → canonical l.tree ≡ canonical k.tree }
{}

/// Trees that are the same but for positions have one canonical text.
pub fn trees_that_are_alike_have_one_text()
    ensures { (k l : surface.Kernel) → bare_kernel k ≡ bare_kernel l → canonical k ≡ canonical l }
{}

/// Kernels that are read for the same devices and have one canonical text are the same but for positions.
pub fn kernels_of_one_text_are_alike()
    ensures { (d : Devices) (a b : List ℕ) (k l : Kernel) → read (text_for d a) ≡ Ok k → read (text_for d b) ≡ Ok l → canonical k.tree ≡ canonical l.tree → AreAlike k l }
{}

/// Elaboration heeds no position: of a tree without positions it gives the core without positions, or the same fault.
pub fn elaboration_heeds_no_position()
    ensures { (d : Devices) (k : surface.Kernel) → elaborate d (bare_kernel k) ≡ bare_checked bare_core (elaborate d k) }
{}

/// Cores that are the same but for positions have the headline at the same launches, within the same bounds.
pub fn the_headline_heeds_no_position()
    ensures { (k l : launch.Kernel) (given : launch.Launch) (bound : ℕ) → bare_core k ≡ bare_core l → Headline (at_launch k given) bound → Headline (at_launch l given) bound }
{}

/// Kernels that are the same but for positions have the same result by rounds, at each launch and within each bound.
pub fn the_result_heeds_no_position()
    ensures { (k l : launch.Kernel) (given : launch.Launch) (bound : ℕ) → bare_core k ≡ bare_core l → result_by_rounds (at_launch k given) bound ≡ result_by_rounds (at_launch l given) bound }
{}

/// A kernel that is read of a canonical text means what the text's kernel means, at each launch of it.
pub fn a_canonical_text_means_what_its_kernel_means()
    ensures { (s : Source) (k l : Kernel) (given : launch.Launch) (bound : ℕ) → read s ≡ Ok k → read (text_for s.devices (canonical k.tree)) ≡ Ok l → MeansTheSame k.core l.core given bound }
{}
