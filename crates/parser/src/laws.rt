//! Laws of the readers.

ghost use Rattle.std.specs.Prelude.{◌≡◌, ℕ, List, ◌∷◌, ◌++◌, Result, Ok, Err};
ghost use Rattle.semantics.specs.Core.{Site};
ghost use Rattle.texts.specs.Ended.{EndsOnce, IsShort};
ghost use Rattle.texts.specs.Grammar.{IsExpression};
ghost use Rattle.texts.specs.KernelGrammar.{IsKernel};
ghost use Rattle.texts.specs.KernelLimits.{IsKept, IsWithinLimits};
ghost use Rattle.texts.specs.Lexemes.{Lexeme};
ghost use Rattle.texts.specs.ParseFaults.{ParseFault};
ghost use Rattle.texts.specs.Spelling.{AreSpelt, IsTextTree};
ghost use Rattle.texts.specs.Surface.{Expression, Kernel};
ghost use Rattle.parser.specs.Expressions.{expression_reader};
ghost use Rattle.parser.specs.Fronts.{Before};
ghost use Rattle.parser.specs.Kernels.{kernel_reader};
ghost use Rattle.parser.specs.Parsed.{Gives, Says, parsed};
ghost use Rattle.parser.specs.declared.error.ParseError.{ParseError};
ghost use Rattle.syntax.specs.declared.tree.Kernel as code;
ghost use Rattle.parser.specs.Reader.{Took, Refused, run};

/// A refusal rests on the lexemes up to and with the one that it blames: whatever stands behind that, it is the same.
pub fn a_refusal_rests_on_what_was_read()
    ensures { (ts : List Lexeme) (fault : ParseFault) (t : Lexeme) (tail : List Lexeme) → run kernel_reader ts ≡ Refused fault (t ∷ tail) → Before ts (t ∷ tail) (λ front. (others : List Lexeme) → run kernel_reader (front ++ t ∷ others) ≡ Refused fault (t ∷ others)) }
{}

/// The grammar has each expression that is read.
pub fn an_expression_that_is_read_is_in_the_grammar()
    ensures { (room depth : ℕ) (ts rest : List Lexeme) (e : Expression) → run (expression_reader room depth) ts ≡ Took e rest → IsExpression room ts e rest }
{}

/// The grammar has each kernel that is parsed, of all lexemes up to the only end, and it is within the limits.
pub fn what_is_parsed_is_in_the_grammar()
    ensures { (ts : List Lexeme) (k : Kernel) → EndsOnce ts → parsed ts ≡ Ok k → IsKernel 64 ts k × IsWithinLimits k }
{}

/// Each kernel of the grammar within the limits is parsed.
pub fn a_kernel_within_the_limits_is_parsed()
    ensures { (ts : List Lexeme) (k : Kernel) → IsShort ts → IsKernel 64 ts k → IsWithinLimits k → parsed ts ≡ Ok k }
{}

/// Lexemes have one kernel at most, whatever limits it passes.
pub fn lexemes_have_one_kernel()
    ensures { (ts : List Lexeme) (k l : Kernel) (room other : ℕ) → IsKernel room ts k → IsKernel other ts l → k ≡ l }
{}

/// A refusal is true where it stands: no kernel that keeps the limit of which it speaks has lexemes that begin with those up to and with
/// the one that it blames; where another lexeme is due, no kernel at all.
pub fn a_refusal_is_true_where_it_stands()
    ensures { (ts : List Lexeme) (fault : ParseFault) (t : Lexeme) (tail : List Lexeme) → run kernel_reader ts ≡ Refused fault (t ∷ tail) → Before ts (t ∷ tail) (λ front. (others : List Lexeme) (room : ℕ) (k : Kernel) → IsKernel room (front ++ t ∷ others) k → IsKept fault room (front ++ t ∷ others) k → ⊥) }
{}

/// Tokens that are refused have no kernel that keeps the limit of which the fault speaks.
pub fn what_is_refused_has_no_kernel()
    ensures { (ts : List Lexeme) (e : ParseFault × Site) (room : ℕ) (k : Kernel) → parsed ts ≡ Err e → IsKernel room ts k → IsKept e.0 room ts k → ⊥ }
{}

/// Each answer of the parser, a kernel or a fault, is true of the grammar.
pub fn an_answer_is_true_of_the_grammar()
    ensures { (answer : Result code.Kernel ParseError) (ts : List Lexeme) → Gives answer (parsed ts) → Says answer ts }
{}

/// The tree of a text's lexemes has identifiers for names, numbers of their kinds, and statements numbered in the order of the source.
pub fn the_tree_of_a_text()
    ensures { (room : ℕ) (ts : List Lexeme) (k : Kernel) → AreSpelt ts → IsKernel room ts k → IsTextTree k }
{}
