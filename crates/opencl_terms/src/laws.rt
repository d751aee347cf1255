//! Laws of narrow scalars: the numbers that they have, and their elements in memory.

ghost use Rattle.std.specs.Prelude.{◌≡◌, ℕ, ℤ, pos, List, true};
ghost use Rattle.semantics.specs.Word.{Word, word, Int, Uint, Fault};
ghost use Rattle.semantics.specs.Core.{Array, Site, Term};
ghost use Rattle.semantics.specs.Setup.{Setup};
ghost use Rattle.semantics.specs.Evaluation.{evaluate, Gives, Needs, Faults};
ghost use Rattle.opencl_terms.specs.Types.{Scalar, is_narrow};
ghost use Rattle.opencl_terms.specs.Conversions.{loaded, stored};
ghost use Rattle.opencl_terms.specs.Ranges.{bits_kept, number_in, Has};

/// A load of such an element gives, in `int`, the number that its low bits are, whatever else the element holds; it fails and asks where
/// the load does. So does a conversion of a `uint`.
pub fn loads_are_widened()
    ensures gives { (s : Setup) (i : ℕ) (now : List ℕ) (of : Scalar) (site : Site) (e : Term) (variables answers rest : List Word) (v : Word) → is_narrow of ≡ true → evaluate s i now e variables answers ≡ Gives v rest → evaluate s i now (loaded of site e) variables answers ≡ Gives (word Int (number_in of v.value)) rest }
    ensures asks { (s : Setup) (i : ℕ) (now : List ℕ) (of : Scalar) (site : Site) (e : Term) (variables answers : List Word) (a : Array) (k : ℕ) (at : Site) → is_narrow of ≡ true → evaluate s i now e variables answers ≡ Needs a k at → evaluate s i now (loaded of site e) variables answers ≡ Needs a k at }
    ensures fails { (s : Setup) (i : ℕ) (now : List ℕ) (of : Scalar) (site : Site) (e : Term) (variables answers : List Word) (f : Fault) (at : Site) → is_narrow of ≡ true → evaluate s i now e variables answers ≡ Faults f at → evaluate s i now (loaded of site e) variables answers ≡ Faults f at }
{}

/// A store keeps the low bits, and never fails where the value does not.
pub fn stores_are_narrowed()
    ensures { (s : Setup) (i : ℕ) (now : List ℕ) (of : Scalar) (site : Site) (e : Term) (variables answers rest : List Word) (v : Word) → is_narrow of ≡ true → evaluate s i now e variables answers ≡ Gives v rest → evaluate s i now (stored of site e) variables answers ≡ Gives (word Uint (pos (bits_kept of v.value))) rest }
{}

/// What was stored is loaded again as the number modulo 2 to the number of bits; a number that the type has, as itself; and what is
/// loaded is a number that the type has.
pub fn elements_are_kept()
    ensures back { (of : Scalar) (z : ℤ) → is_narrow of ≡ true → number_in of (pos (bits_kept of z)) ≡ number_in of z }
    ensures same { (of : Scalar) (z : ℤ) → is_narrow of ≡ true → Has of z → number_in of z ≡ z }
    ensures inside { (of : Scalar) (z : ℤ) → is_narrow of ≡ true → Has of (number_in of z) }
{}
