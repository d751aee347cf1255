//! Tokens: `tokens_of` is a function, so a text has one reading. These laws say what that reading is.

ghost use Rattle.std.specs.Prelude.{◌≡◌, ◌≤◌, ℕ, List, length, Ok};
ghost use Rattle.texts.specs.Declarations.{HasFewNames};
ghost use Rattle.texts.specs.Ended.{EndsOnce, IsShort};
ghost use Rattle.texts.specs.Lexemes.{lexemes};
ghost use Rattle.texts.specs.Limits.{Counts, within_limits};
ghost use Rattle.texts.specs.Spelling.{AreSpelt};
ghost use Rattle.texts.specs.Surface.{Kernel};
ghost use Rattle.texts.specs.Tokens.{Token, tokens_of};
ghost use Rattle.texts.specs.Reading.{Reads, IsInOrder, IsCounted};

/// The tokens of a text stand in it one after another, each as long as it can be, with nothing between them but
/// blanks and comments.
#[tactic(auto, using(crate::proofs::Reading::tokens_read))]
pub fn tokens_are_a_reading()
    ensures { (text : List ℕ) (tokens : List Token) → tokens_of text ≡ Ok tokens → (length text ≤ 65536) × Reads text 0 text tokens }
{}

/// The spans of a text's tokens are in order and within the text, and the last one, and no other, is `End`, empty, at the text's end.
#[tactic(auto, using(crate::proofs::Order::tokens_ordered))]
pub fn tokens_are_in_order()
    ensures { (text : List ℕ) (tokens : List Token) → tokens_of text ≡ Ok tokens → IsInOrder (length text) 0 tokens }
{}

/// The lexemes of a text's tokens end in their only end, and are no more than a text within its limit gives.
pub fn lexemes_end_once()
    ensures { (text : List ℕ) (tokens : List Token) → tokens_of text ≡ Ok tokens → EndsOnce (lexemes tokens) × IsShort (lexemes tokens) }
{}

/// The names among a text's lexemes are identifiers, and their numbers are of their kinds.
pub fn lexemes_are_spelt()
    ensures { (text : List ℕ) (tokens : List Token) → tokens_of text ≡ Ok tokens → AreSpelt (lexemes tokens) }
{}

/// A text has no other reading, and none where a fault is answered.
#[tactic(auto, using(crate::proofs::Unique::reading_is_tokens))]
pub fn a_text_has_one_reading()
    ensures { (text : List ℕ) (tokens : List Token) → length text ≤ 65536 → Reads text 0 text tokens → tokens_of text ≡ Ok tokens }
{}

/// Lines are counted by line feeds, columns by bytes.
#[tactic(auto, using(crate::proofs::Sites::counted))]
pub fn sites_are_counted()
    ensures { (text : List ℕ) (at : ℕ) → at ≤ length text → IsCounted text at }
{}

/// A kernel within the limits declares at most 96 names.
#[tactic(auto, using(crate::proofs::Declarations::few_names))]
pub fn a_kernel_within_the_limits_has_few_names()
    ensures { (k : Kernel) (c : Counts) → within_limits k ≡ Ok c → HasFewNames k }
{}
