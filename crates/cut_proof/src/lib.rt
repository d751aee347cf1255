//! Section: Facts and domains. Promises a yes exactly to derivations that refute, so to impossible facts alone; stands on `linear`.
//!
//! Proofs by cutting planes that no whole numbers meet a list of linear facts (Chvátal; Cook, Coullard and Turán 1987),
//! and with products of facts (Handelman 1988): a product of symbols is a symbol, whose value is the product of theirs.
//!
//! A derivation is a list of lines, each a fact, a sum of earlier lines with weights of at least 1, an earlier line whose
//! coefficients all divide, divided, its constant rounded down, or the product of two earlier lines. One that ends in a
//! negative constant refutes the facts. Lemmas stand before it: each is a form, with lines that refute its denial, and
//! is one more fact for all that follows.
#![tactic(auto)]

ghost use Rattle.std.specs.Prelude.{◌≡◌, ℕ, ℤ, pos, true, Some, None, Ok, Err, IfOk, OnOk, MatchOption, IsTrue, length, map, List, [], ◌∷◌, ◌++◌};
ghost use Rattle.linear.specs.Linear.{IsImpossible};
ghost use Rattle.linear.specs.Exact.{sum, multiple};
ghost use Rattle.linear.specs.Products.{IsImpossibleWithProducts, within_i64, denial};
ghost use Rattle.linear.specs.Forms.{form, forms};
ghost use Rattle.cut_proof.specs.View.{seen, line as line_seen, lemma as lemma_seen, made_form, made_seen};
ghost use Rattle.cut_proof.specs.Derivations.{entry, add_part, sum_line, divided_line, product_line, line_form, is_contradiction, refutes_of, refutes_with, are_without_products};

use linear::{Fact, Form, LinearError};
use std::alloc::{AllocError, Global};

/// One line of a derivation. Facts and lines are counted from 1.
#[derive(Debug, Drop)]
pub enum Line {
    /// The fact of a number.
    Given(u32),
    /// Weights, each with an earlier line, the lines rising.
    Sum(Vec<(i64, u32)>),
    /// A divisor and an earlier line.
    Div(i64, u32),
    /// Two earlier lines, multiplied.
    Product(u32, u32),
}

/// A form, with lines that refute its denial.
#[derive(Debug, Drop)]
pub struct Lemma {
    pub form: Form,
    pub lines: Vec<Line>,
}

/// Lemmas, and lines, each of which may name those before it. Facts of the lines of a lemma are also the lemmas before it
/// and then its own denial; facts of the last lines are also all lemmas.
#[derive(Debug, Drop)]
pub struct Derivation {
    pub lemmas: Vec<Lemma>,
    pub lines: Vec<Line>,
}

/// The form that a line of a derivation shows to be at least 0: a fact, by reference, or a form of its own.
#[derive(Drop)]
pub enum Made<'a> {
    Fact(&'a Form),
    Own(Box<Form>),
}

/// The lines of a derivation, checked one by one, against facts and those that are known beside them. Of a line that
/// names a fact only its place is kept.
#[derive(Drop)]
pub struct Checking<'a> {
    facts: &'a [Fact],
    known: &'a [Form],
    made: Vec<Made<'a>>,
    refuted: bool,
}

impl<'a> Checking<'a> {
    ghost use Rattle.std.specs.Prelude.{◌≡◌, ◌++◌, [], false, IfOk};
    ghost use Rattle.linear.specs.Forms.{forms};
    ghost use Rattle.cut_proof.specs.Derivations.{Line as LineMeant};
    ghost use Rattle.cut_proof.specs.Checked.{Adds, answer, facts_of, forms_made};
    ghost use Rattle.cut_proof.specs.View.{line as line_seen};

    /// Before the first line.
    pub fn of(alloc: Global, facts: &'a [Fact], known: &'a [Form]) -> Checking<'a>
        ensures facts { facts_of result ≡ forms facts.now ++ forms known.now }
        ensures made { forms_made result ≡ [] }
        ensures answer { answer result ≡ false }
    {
        Checking {
            facts,
            known,
            made: Vec::new(alloc),
            refuted: false,
        }
    }

    /// Adds a line; false where it may not stand there.
    pub fn add(&mut self, alloc: Global, line: &Line) -> Result<bool, AllocError>
        ensures { IfOk result (Adds self.old (line_seen line.now) self.new) }
    {
        let made = make_line(alloc, self.facts, self.known, self.made.as_slice(), line)?;
        let Some(made) = made else {
            return Ok(false);
        };
        self.refuted = contradicts(form_of(&made));
        self.made.push(made)?;
        Ok(true)
    }

    /// The last line is a negative constant.
    pub fn is_refuted(&self) -> bool
        ensures { result ≡ answer self.now }
    {
        self.refuted
    }
}

/// The form that a line has made.
fn form_of<'m>(made: &'m Made<'_>) -> &'m Form
    ensures { form result.now ≡ made_form made.now }
{
    match made {
        Made::Fact(form) => form,
        Made::Own(form) => form,
    }
}

/// Whether the derivation refutes the facts: each lemma is shown, each line is as it says, no number of it leaves `i64`,
/// and there is a last line, a negative constant. No whole numbers meet facts that are refuted, products being products;
/// where no line is a product, none at all.
pub fn refutes(alloc: Global, facts: &[Fact], derivation: &Derivation) -> Result<bool, AllocError>
    ensures exact { IfOk result (λ b. b ≡ refutes_with (forms facts.now) (map lemma_seen derivation.now.lemmas.items) (map line_seen derivation.now.lines.items)) }
    ensures impossible { IfOk result (λ b. IsTrue b → are_without_products (map lemma_seen derivation.now.lemmas.items) (map line_seen derivation.now.lines.items) ≡ true → IsImpossible (forms facts.now)) }
    ensures impossible_with_products { IfOk result (λ b. IsTrue b → IsImpossibleWithProducts (forms facts.now)) }
{
    let lemmas = derivation.lemmas.as_slice();
    let lines = derivation.lines.as_slice();
    let mut known: Vec<Form> = Vec::new(alloc);
    for lemma in lemmas {
        let Some(denial) = denied(alloc, &lemma.form)? else {
            return Ok(false);
        };
        known.push(denial)?;
        if !are_refuted(alloc, facts, known.as_slice(), lemma.lines.as_slice())? {
            return Ok(false);
        }
        let form = lemma.form.copy(alloc)?;
        replace_last(&mut known, form)?;
    }
    are_refuted(alloc, facts, known.as_slice(), lines)
}

/// The form `-1 - shown`, which is at least 0 exactly where `shown` is not. It is none where a number of it is too
/// large for `i64`.
fn denied(alloc: Global, shown: &Form) -> Result<Option<Form>, AllocError>
    ensures { IfOk result (λ r. seen r ≡ within_i64 (denial (form shown.now))) }
{
    let least = Form::constant(alloc, -1);
    match least.sub(alloc, shown) {
        Ok(form) => Ok(Some(form)),
        Err(LinearError::TooLarge) => Ok(None),
        Err(LinearError::Memory) => Err(AllocError),
    }
}

/// Puts a form in the place of the last one.
fn replace_last(known: &mut Vec<Form>, last: Form) -> Result<(), AllocError>
    ensures { OnOk result ((before : List Form) (f : Form) → known.old.items ≡ before ++ f ∷ [] → known.new.items ≡ before ++ last ∷ []) }
{
    known.pop();
    known.push(last)?;
    Ok(())
}

/// Whether lines refute facts, and those that are known beside them.
fn are_refuted(
    alloc: Global,
    facts: &[Fact],
    known: &[Form],
    lines: &[Line],
) -> Result<bool, AllocError>
    ensures { IfOk result (λ b. b ≡ refutes_of (forms facts.now ++ forms known.now) (map line_seen lines.now)) }
{
    let mut checking = Checking::of(alloc, facts, known);
    for line in lines {
        if !checking.add(alloc, line)? {
            return Ok(false);
        }
    }
    Ok(checking.is_refuted())
}

/// Computes the form that a line of a derivation shows to be at least 0, from facts and lines before it. It is none
/// where the line may not stand there.
fn make_line<'a>(
    alloc: Global,
    facts: &'a [Fact],
    known: &'a [Form],
    made: &[Made<'a>],
    line: &Line,
) -> Result<Option<Made<'a>>, AllocError>
    ensures { IfOk result (λ r. made_seen r ≡ line_form (forms facts.now ++ forms known.now) (map made_form made.now) (line_seen line.now)) }
{
    match line {
        Line::Given(number) => Ok(make_given(facts, known, *number)),
        Line::Sum(parts) => own(alloc, make_sum(alloc, made, parts.as_slice())?),
        Line::Div(divisor, number) => own(alloc, make_quotient(alloc, made, *divisor, *number)?),
        Line::Product(first, second) => own(alloc, make_product(alloc, made, *first, *second)?),
    }
}

fn make_given<'a>(facts: &'a [Fact], known: &'a [Form], number: u32) -> Option<Made<'a>>
    ensures { made_seen result ≡ entry (forms facts.now ++ forms known.now) number }
{
    let Some(fact) = given(facts, known, number) else {
        return None;
    };
    Some(Made::Fact(fact))
}

/// A form of a line's own, where there is one.
fn own<'a>(alloc: Global, form: Option<Form>) -> Result<Option<Made<'a>>, AllocError>
    ensures { IfOk result (λ r. made_seen r ≡ seen form) }
{
    let Some(form) = form else {
        return Ok(None);
    };
    let form = Box::new(alloc, form)?;
    Ok(Some(Made::Own(form)))
}

/// The fact of a number, counted from 1; those that are known come behind the facts.
fn given<'a>(facts: &'a [Fact], known: &'a [Form], number: u32) -> Option<&'a Form>
    ensures { MatchOption result (entry (forms facts.now ++ forms known.now) number ≡ None) (λ f. entry (forms facts.now ++ forms known.now) number ≡ Some (form f.now)) }
{
    let count = facts.len();
    if number as usize <= count {
        return named(facts, number);
    }
    named(known, number - count as u32)
}

fn make_sum(
    alloc: Global,
    made: &[Made<'_>],
    parts: &[(i64, u32)],
) -> Result<Option<Form>, AllocError>
    ensures { IfOk result (λ r. seen r ≡ sum_line (map made_form made.now) parts.now) }
{
    if parts.is_empty() {
        return Ok(None);
    }
    let mut total = Form::constant(alloc, 0);
    let mut before = 0;
    for part in parts {
        if part.1 <= before {
            return Ok(None);
        }
        before = part.1;
        let Some(next) = make_part(alloc, made, &total, *part)? else {
            return Ok(None);
        };
        total = next;
    }
    Ok(Some(total))
}

/// The sum with so many times an earlier line; none where the weight is below 1, the line is missing, or a number is too large.
fn make_part(
    alloc: Global,
    made: &[Made<'_>],
    total: &Form,
    part: (i64, u32),
) -> Result<Option<Form>, AllocError>
    ensures { IfOk result (λ r. seen r ≡ add_part (map made_form made.now) (form total.now) part) }
{
    if part.0 < 1 {
        return Ok(None);
    }
    let Some(line) = line_named(made, part.1) else {
        return Ok(None);
    };
    let Some(scaled) = settled_multiple(alloc, line, part.0)? else {
        return Ok(None);
    };
    settled_sum(alloc, total, &scaled)
}

fn make_quotient(
    alloc: Global,
    made: &[Made<'_>],
    divisor: i64,
    number: u32,
) -> Result<Option<Form>, AllocError>
    ensures { IfOk result (λ r. seen r ≡ divided_line (map made_form made.now) divisor number) }
{
    if divisor < 1 {
        return Ok(None);
    }
    let Some(line) = line_named(made, number) else {
        return Ok(None);
    };
    line.divided(alloc, divisor)
}

fn make_product(
    alloc: Global,
    made: &[Made<'_>],
    first: u32,
    second: u32,
) -> Result<Option<Form>, AllocError>
    ensures { IfOk result (λ r. seen r ≡ product_line (map made_form made.now) first second) }
{
    let Some(left) = line_named(made, first) else {
        return Ok(None);
    };
    let Some(right) = line_named(made, second) else {
        return Ok(None);
    };
    left.product(alloc, right)
}

/// The form of a line so many times; none where a number is too large for `i64`.
fn settled_multiple(alloc: Global, line: &Form, weight: i64) -> Result<Option<Form>, AllocError>
    ensures { IfOk result (λ r. seen r ≡ within_i64 (multiple weight (form line.now))) }
{
    match line.times(alloc, weight) {
        Ok(form) => Ok(Some(form)),
        Err(LinearError::TooLarge) => Ok(None),
        Err(LinearError::Memory) => Err(AllocError),
    }
}

/// The sum of two forms; none where a number is too large for `i64`.
fn settled_sum(alloc: Global, total: &Form, part: &Form) -> Result<Option<Form>, AllocError>
    ensures { IfOk result (λ r. seen r ≡ within_i64 (sum (form total.now) (form part.now))) }
{
    match total.add(alloc, part) {
        Ok(form) => Ok(Some(form)),
        Err(LinearError::TooLarge) => Ok(None),
        Err(LinearError::Memory) => Err(AllocError),
    }
}

/// The form of a number, counted from 1.
fn named(made: &[Form], number: u32) -> Option<&Form>
    ensures { MatchOption result (entry (forms made.now) number ≡ None) (λ f. entry (forms made.now) number ≡ Some (form f.now)) }
{
    if number == 0 || made.len() < number as usize {
        return None;
    }
    Some(&made[number as usize - 1])
}

/// The form of the line of a number, counted from 1.
fn line_named<'m>(made: &'m [Made<'_>], number: u32) -> Option<&'m Form>
    ensures { MatchOption result (entry (map made_form made.now) number ≡ None) (λ f. entry (map made_form made.now) number ≡ Some (form f.now)) }
{
    if number == 0 || made.len() < number as usize {
        return None;
    }
    Some(form_of(&made[number as usize - 1]))
}

/// Whether a form is a negative constant.
fn contradicts(line: &Form) -> bool
    ensures { result ≡ is_contradiction (form line.now) }
{
    line.terms().is_empty() && line.constant_part() < 0
}
