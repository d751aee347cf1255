//! Laws of the two texts.

ghost use Rattle.std.specs.Prelude.{◌≡◌, ◌≤◌, ℕ, List, length, Bool, true, false, nat_eq, Ok, Some, codes};
ghost use Rattle.std.specs.List.{starts_with};
ghost use Rattle.texts.specs.Surface.{Parameter};
ghost use Rattle.texts.specs.Spelling.{SpellsParameters};
ghost use Rattle.launch_text.specs.ConditionsReading.{Lined, meant, conditions_of, head_of};
ghost use Rattle.launch_text.specs.ConditionsText.{IsConditionsText, head_in};
ghost use Rattle.launch_text.specs.LaunchReading as launches;
ghost use Rattle.launch_text.specs.LaunchReading.{TypedLaunch, launch_limit, launch_of};
ghost use Rattle.launch_text.specs.LaunchSpelling.{IsLaunchText};
ghost use Rattle.launch_text.specs.LaunchText.{launch_text};
ghost use Rattle.launch_text.specs.Parameters.{IsGiven};
ghost use Rattle.semantics.specs.Conditions as meaning;
ghost use Rattle.semantics.specs.Launch.{Kernel, Launch, Fits};
ghost use Rattle.launch.specs.Least.{probe};
ghost use Rattle.launch.specs.declared.conditions.Conditions.{Conditions};
ghost use Rattle.launch_text.specs.Fits.{IsOf};
ghost use Rattle.launch_text.specs.View.{lined};

/// The launch at the least values is one of the kernel whose conditions it meets.
pub fn a_least_launch_fits()
    ensures { (kernel : Kernel) (c : Conditions) (l : Launch) → IsOf kernel (lined c) → probe c ≡ Some l → Fits kernel l }
{}

/// A launch whose text is written is read of that text again.
pub fn a_launch_is_read_back()
    ensures { (ps : List Parameter) (l : TypedLaunch) → IsGiven ps l → length (launch_text ps l) ≤ launch_limit → launch_of ps (launch_text ps l) ≡ Ok l }
{}

/// If the reader reads conditions of a text, they are what the text says, case by case.
pub fn what_is_read_of_conditions_is_their_text()
    ensures { (may_be_two : Bool) (ps : List Parameter) (text : List ℕ) (l : Lined) → conditions_of may_be_two ps text ≡ Ok l → IsConditionsText may_be_two ps text (meant l) }
{}

/// If a text says conditions, case by case, the reader reads them of it, where the names are those of a kernel's text.
pub fn conditions_are_read_of_their_text()
    ensures { (may_be_two : Bool) (ps : List Parameter) (text : List ℕ) (c : meaning.Conditions) → SpellsParameters ps → IsConditionsText may_be_two ps text c → (l : Lined) × (conditions_of may_be_two ps text ≡ Ok l) × (meant l ≡ c) }
{}

/// A text says no two different conditions, where the names are those of a kernel's text.
pub fn a_conditions_text_says_one_thing()
    ensures { (may_be_two : Bool) (ps : List Parameter) (text : List ℕ) (c d : meaning.Conditions) → SpellsParameters ps → IsConditionsText may_be_two ps text c → IsConditionsText may_be_two ps text d → c ≡ d }
{}

/// Of a text that begins neither as one of version 2 nor as one of version 3 the same is read, whether it may be of these versions or not.
pub fn texts_of_version_1_are_read_alike()
    ensures { (ps : List Parameter) (text : List ℕ) → (starts_with nat_eq text (codes "conditions 2") ≡ false) × (starts_with nat_eq text (codes "conditions 3") ≡ false) → conditions_of true ps text ≡ conditions_of false ps text }
{}

/// A text that says conditions has the head with which it opens, and none in versions 1 and 2.
pub fn a_head_is_read_of_its_text()
    ensures { (may_be_two : Bool) (ps : List Parameter) (text : List ℕ) (c : meaning.Conditions) (t : IsConditionsText may_be_two ps text c) → head_of text ≡ Ok (head_in t.lines.opens) }
{}

/// If the reader reads a launch of a text, it is what the text says, case by case.
pub fn what_is_read_of_a_launch_is_its_text()
    ensures { (ps : List Parameter) (text : List ℕ) (l : TypedLaunch) → launch_of ps text ≡ Ok l → IsLaunchText ps text (launches.meant l) }
{}

/// If a text says a launch, case by case, the reader reads it of the text, where the names are those of a kernel's text.
pub fn a_launch_is_read_of_its_text()
    ensures { (ps : List Parameter) (text : List ℕ) (l : Launch) → SpellsParameters ps → IsLaunchText ps text l → (x : TypedLaunch) × (launch_of ps text ≡ Ok x) × (launches.meant x ≡ l) }
{}

/// A text says no two different launches, where the names are those of a kernel's text.
pub fn a_launch_text_says_one_launch()
    ensures { (ps : List Parameter) (text : List ℕ) (l m : Launch) → SpellsParameters ps → IsLaunchText ps text l → IsLaunchText ps text m → l ≡ m }
{}
