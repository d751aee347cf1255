//! Canonical texts: what they say is the tree that they are of.

ghost use Rattle.std.specs.Prelude.{◌≡◌, ℕ, suc, ◌≤◌, List, length, map, true, Some, Ok};
ghost use Rattle.semantics.specs.Word.{Kind};
ghost use Rattle.texts.specs.Canonical.{canonical};
ghost use Rattle.texts.specs.Bare.{bare_expression, bare_kernel};
ghost use Rattle.texts.specs.Brackets.{AllOpenStatements, Opens};
ghost use Rattle.texts.specs.CanonicalTokens.{IsPrintableKernel, HasNamedCasts, expression_tokens, kernel_tokens};
ghost use Rattle.texts.specs.Grammar.{IsExpression};
ghost use Rattle.texts.specs.KernelGrammar.{IsKernel};
ghost use Rattle.texts.specs.Lexemes.{Lexeme, lexemes, kind_of, is_named};
ghost use Rattle.texts.specs.Reading.{Reads};
ghost use Rattle.texts.specs.Reserved.{Reserved};
ghost use Rattle.texts.specs.Spelling.{AreNumbered};
ghost use Rattle.texts.specs.Surface.{Expression, Kernel};
ghost use Rattle.texts.specs.Tokens.{Token, TokenKind, tokens_of};

/// The tokens of a canonical text are those of its tree, its length aside.
#[tactic(auto, using(crate::proofs::CanonicalText::text_read))]
pub fn canonical_text_has_the_tokens_of_its_tree()
    ensures { (k : Kernel) → IsPrintableKernel k → (ts : List Token) × Reads (canonical k) 0 (canonical k) ts × (map (λ t. t.kind) ts ≡ kernel_tokens k) }
{}

/// Within the length of texts they are what is read.
#[tactic(auto, using(crate::proofs::CanonicalText::tokens_read_of))]
pub fn tokens_of_a_canonical_text_are_those_of_its_tree()
    ensures { (k : Kernel) → IsPrintableKernel k → length (canonical k) ≤ 65536 → (ts : List Token) × (tokens_of (canonical k) ≡ Ok ts) × (map (λ t. t.kind) ts ≡ kernel_tokens k) }
{}

/// The grammar relates the tokens of an expression to that expression, positions aside, where there is room for its brackets and its casts
/// are to kinds that a text names.
#[tactic(auto, using(crate::proofs::CanonicalGrammar::expression_related))]
pub fn tokens_of_an_expression_stand_for_it()
    ensures { (e : Expression) (room : ℕ) (after : List TokenKind) (ts : List Lexeme) → HasNamedCasts e → Opens room e → map (λ t. t.kind) ts ≡ expression_tokens e after → (tree : Expression) × (rest : List Lexeme) × IsExpression room ts tree rest × (map (λ t. t.kind) rest ≡ after) × (bare_expression tree ≡ bare_expression e) }
{}

/// A kind that the grammar reads of a word is one that a text names.
#[tactic(auto, using(crate::proofs::NamedKinds::named))]
pub fn kinds_of_words_are_named()
    ensures { (w : Reserved) (kind : Kind) → kind_of w ≡ Some kind → is_named kind ≡ true }
{}

/// The grammar relates the tokens of a kernel to that kernel, positions aside, where there is room for its brackets.
#[tactic(auto, using(crate::proofs::CanonicalKernel::kernel_related))]
pub fn tokens_of_a_kernel_stand_for_it()
    ensures { (k : Kernel) (room : ℕ) (ts : List Lexeme) → IsPrintableKernel k → AreNumbered 1 k.body → AllOpenStatements (suc (suc room)) k.body → map (λ t. t.kind) ts ≡ kernel_tokens k → (tree : Kernel) × IsKernel (suc (suc (suc room))) ts tree × (bare_kernel tree ≡ bare_kernel k) }
{}

/// A canonical text says its kernel, positions aside.
#[tactic(auto, using(crate::proofs::CanonicalText::text_stands_for))]
pub fn a_canonical_text_says_its_kernel()
    ensures { (k : Kernel) (room : ℕ) → IsPrintableKernel k → AreNumbered 1 k.body → AllOpenStatements (suc (suc room)) k.body → (ts : List Token) × Reads (canonical k) 0 (canonical k) ts × ((tree : Kernel) × IsKernel (suc (suc (suc room))) (lexemes ts) tree × (bare_kernel tree ≡ bare_kernel k)) }
{}
