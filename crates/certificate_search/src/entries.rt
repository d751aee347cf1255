//! What shows each obligation.

ghost use Rattle.std.specs.Prelude.{◌≤◌, ◌<◌, length};
ghost use Rattle.two_thread.specs.Listed.{listed};
ghost use Rattle.plain_kernels.specs.Domains.{domain};

use crate::demands::target_of;
use crate::missing::{Missing, missing_of};
use crate::used::{Origins, used_guesses};
use certificate::tree::{Entry, EntrySort};
use cut_proof::Derivation;
use cut_search::{Answer, Questions};
use guess_walk::{
    Division, FormDivision, Names, Shown, both_sides, both_sides_by, facts_of, lemmas_of, reached,
    steps_of,
};
use guesses::{Line, copied};
use linear::Form;
use path_steps::{Goal, Sort};
use std::alloc::{AllocError, Global};
use two_thread::{Manner, OnPath, Part};
use walk::FindError;

/// The way in which an obligation is shown: as it is, by the sign of a divisor, or by a quotient.
#[derive(Drop)]
pub enum Way {
    Plainly,
    Positive,
    Negative,
    ByQuotient(Form),
}

/// A proof of an obligation, in symbols of the walk: the obligation's number and its subject, the way in which it is
/// shown, the derivation, the guess that it is of, if it is of one, and the guesses that the derivation uses.
#[derive(Drop)]
pub struct Proof {
    number: u64,
    pub about: Missing,
    way: Way,
    derivation: Derivation,
    pub of: Option<u32>,
    pub used: Vec<u32>,
}

impl Proof {
    /// The way in which the obligation is shown, as an entry has it; none where the quotient has no text.
    fn sort(&self, alloc: Global, names: &Names<'_>) -> Result<Option<EntrySort>, AllocError> {
        match &self.way {
            Way::Plainly => Ok(Some(EntrySort::Show)),
            Way::Positive => Ok(Some(EntrySort::Positive)),
            Way::Negative => Ok(Some(EntrySort::Negative)),
            Way::ByQuotient(quotient) => match names.quotient(alloc, quotient)? {
                Some(quotient) => Ok(Some(EntrySort::Quotient(quotient))),
                None => Ok(None),
            },
        }
    }

    /// The entry of a certificate; none where the quotient or a symbol of a lemma has no name.
    pub fn entry(&self, alloc: Global, names: &Names<'_>) -> Result<Option<Entry>, AllocError> {
        let Some(sort) = self.sort(alloc, names)? else {
            return Ok(None);
        };
        let Some(lemmas) = lemmas_of(alloc, names, &self.derivation)? else {
            return Ok(None);
        };
        let steps = steps_of(alloc, &self.derivation)?;
        Ok(Some(Entry {
            obligation: self.number,
            sort,
            lemmas,
            steps,
        }))
    }
}

/// The outcome of the search for an obligation: nothing is needed, one proof, the two of a congruence, or none though
/// one is needed.
#[derive(Drop)]
pub enum Outcome {
    Nothing,
    One(Proof),
    Two(Proof, Proof),
    Unshown,
}

/// A proof but for its derivation: the number of an obligation, with what it is about and of, and how it is shown.
#[derive(Drop)]
struct Heading {
    number: u64,
    about: Missing,
    part: Part,
    way: Way,
}

/// The proof of an obligation with this derivation; none where the part is not of the walk.
fn proof_with(
    alloc: Global,
    origins: &Origins<'_>,
    heading: Heading,
    facts: &[Form],
    derivation: Derivation,
) -> Result<Option<Proof>, AllocError> {
    let Heading {
        number,
        about,
        part,
        way,
    } = heading;
    let Some(origin) = origins.origin(part) else {
        return Ok(None);
    };
    let used = used_guesses(alloc, &origin, facts, &derivation)?;
    Ok(Some(Proof {
        number,
        about,
        way,
        derivation,
        of: target_of(origins, part),
        used,
    }))
}

/// A proof by facts, if the search refutes them.
fn proof_by(
    alloc: Global,
    origins: &Origins<'_>,
    heading: Heading,
    facts: &[Form],
    questions: &mut Questions<'_>,
) -> Result<Option<Proof>, AllocError> {
    match questions.ask(alloc, facts)? {
        Answer::Proof(derivation) => proof_with(alloc, origins, heading, facts, derivation),
        Answer::Model(_) | Answer::Undecided => Ok(None),
    }
}

/// The proof of an obligation that is shown in a manner; none where no derivation is found, or the manner does not fit.
fn proof_in(
    alloc: Global,
    origins: &Origins<'_>,
    number: usize,
    manner: Manner,
    questions: &mut Questions<'_>,
) -> Result<Option<Proof>, FindError>
    requires first { 0 < number }
    requires last { number ≤ length (listed domain origins.now.found.now) }
{
    let Some(facts) = facts_of(alloc, origins.found, number, manner)? else {
        return Ok(None);
    };
    let way = match manner {
        Manner::ByPositive => Way::Positive,
        Manner::ByNegative => Way::Negative,
        Manner::Plainly | Manner::ByQuotient => Way::Plainly,
    };
    let heading = Heading {
        number: number as u64,
        about: missing_of(origins, number),
        part: origins.found.part(number),
        way,
    };
    Ok(proof_by(alloc, origins, heading, facts.as_slice(), questions)?)
}

fn outcome_of(found: Option<Proof>) -> Outcome {
    match found {
        Some(proof) => Outcome::One(proof),
        None => Outcome::Unshown,
    }
}

/// A divisor that is positive, or one that is negative.
fn divisor(
    alloc: Global,
    origins: &Origins<'_>,
    number: usize,
    questions: &mut Questions<'_>,
) -> Result<Outcome, FindError>
    requires first { 0 < number }
    requires last { number ≤ length (listed domain origins.now.found.now) }
{
    let positive = proof_in(alloc, origins, number, Manner::ByPositive, questions)?;
    if positive.is_some() {
        return Ok(outcome_of(positive));
    }
    let negative = proof_in(alloc, origins, number, Manner::ByNegative, questions)?;
    if negative.is_some() {
        return Ok(outcome_of(negative));
    }
    let plain = proof_in(alloc, origins, number, Manner::Plainly, questions)?;
    Ok(outcome_of(plain))
}

/// The line of the congruence whose first claim stands there; none where the claim is of no guess.
fn multiple_at<'a>(origins: &Origins<'a>, at: OnPath) -> Option<&'a Line> {
    let tagged = origins.found.paths().get(at.path)?;
    let end = tagged.path.ends.first()?;
    let to = reached(end.stop, tagged.anchor, origins.sights)?;
    let lines = origins.table.places.get(to)?;
    let before = tagged.path.claims.len().checked_sub(lines.len())?;
    let guess = lines.at(at.item.checked_sub(before)?)?;
    Some(&origins.candidates.get(guess as usize)?.line)
}

/// A claim on a path, by its obligation's number, and what it is of.
#[derive(Clone, Copy)]
struct Numbered {
    number: usize,
    at: OnPath,
    about: Missing,
}

impl Numbered {
    /// The heading of a proof by this quotient, so many obligations behind the claim.
    fn heading(&self, behind: u64, quotient: Form) -> Heading {
        Heading {
            number: (self.number as u64).saturating_add(behind),
            about: self.about,
            part: Part::Claim(self.at),
            way: Way::ByQuotient(quotient),
        }
    }
}

/// The two proofs of a congruence, which name one quotient.
fn both_proofs(
    alloc: Global,
    origins: &Origins<'_>,
    claim: Numbered,
    facts: &[Form],
    shown: Shown,
) -> Result<Outcome, AllocError> {
    let Shown {
        quotient,
        least,
        most,
    } = shown;
    let heading = claim.heading(0, copied(alloc, &quotient)?);
    let least = proof_with(alloc, origins, heading, facts, least)?;
    let heading = claim.heading(1, quotient);
    let most = proof_with(alloc, origins, heading, facts, most)?;
    match (least, most) {
        (Some(least), Some(most)) => Ok(Outcome::Two(least, most)),
        _ => Ok(Outcome::Unshown),
    }
}

/// Derivations that a form is what a line of the place reached says of it: a number divides it, or it is a multiple of a form.
fn both_shown(
    alloc: Global,
    origins: &Origins<'_>,
    at: OnPath,
    facts: &[Form],
    questions: &mut Questions<'_>,
) -> Result<Option<Shown>, AllocError> {
    let (Some(line), Some(form)) = (multiple_at(origins, at), divided_form(alloc, origins, at)?)
    else {
        return Ok(None);
    };
    let mut points = Vec::new(alloc);
    match line {
        Line::Multiple { modulus, .. } => {
            let known = origins.known_multiples(alloc, at.path)?;
            let division = Division {
                facts,
                form: &form,
                modulus: *modulus,
                known: known.as_slice(),
            };
            both_sides(alloc, division, questions, &mut points)
        }
        Line::MultipleOf { of, .. } => {
            let known = origins.known_by_form(alloc, at.path, of)?;
            let division = FormDivision {
                facts,
                form: &form,
                of,
                known: known.as_slice(),
            };
            both_sides_by(alloc, division, questions, &mut points)
        }
        Line::Same(_) | Line::Fact(_) => Ok(None),
    }
}

/// The two proofs of a congruence, or of a multiple of a form, found at its first claim.
fn congruence(
    alloc: Global,
    origins: &Origins<'_>,
    claim: Numbered,
    questions: &mut Questions<'_>,
) -> Result<Outcome, FindError>
    requires first { 0 < claim.number }
    requires last { claim.number ≤ length (listed domain origins.now.found.now) }
{
    let Some(mut facts) = facts_of(alloc, origins.found, claim.number, Manner::ByQuotient)? else {
        return Ok(Outcome::Unshown);
    };
    drop(facts.pop());
    match both_shown(alloc, origins, claim.at, facts.as_slice(), questions)? {
        Some(shown) => Ok(both_proofs(alloc, origins, claim, facts.as_slice(), shown)?),
        None => Ok(Outcome::Unshown),
    }
}

/// The form that is to be a multiple, of the first claim of a congruence; none of another claim.
fn divided_form(
    alloc: Global,
    origins: &Origins<'_>,
    at: OnPath,
) -> Result<Option<Form>, AllocError> {
    let Some(tagged) = origins.found.paths().get(at.path) else {
        return Ok(None);
    };
    let Some(claim) = tagged.path.claims.get(at.item) else {
        return Ok(None);
    };
    match &claim.goal {
        Goal::Divided { form, .. } => Ok(Some(copied(alloc, form)?)),
        _ => Ok(None),
    }
}

/// The proofs of an obligation which the domain does not settle.
fn shown(
    alloc: Global,
    origins: &Origins<'_>,
    number: usize,
    questions: &mut Questions<'_>,
) -> Result<Outcome, FindError>
    requires first { 0 < number }
    requires last { number ≤ length (listed domain origins.now.found.now) }
{
    let part = origins.found.part(number);
    match (origins.found.sort(number), part) {
        (Sort::OfDivisor, _) => divisor(alloc, origins, number, questions),
        (Sort::OfCongruence, Part::Claim(at)) => {
            if origins.found.is_second_claim(number) {
                return Ok(Outcome::Nothing);
            }
            let about = missing_of(origins, number);
            congruence(alloc, origins, Numbered { number, at, about }, questions)
        }
        _ => {
            let found = proof_in(alloc, origins, number, Manner::Plainly, questions)?;
            Ok(outcome_of(found))
        }
    }
}

/// The proofs of an obligation, given by its number; none needed where the domain settles it or it may be left out.
pub fn proofs_of(
    alloc: Global,
    origins: &Origins<'_>,
    number: usize,
    questions: &mut Questions<'_>,
) -> Result<Outcome, FindError>
    requires first { 0 < number }
    requires last { number ≤ length (listed domain origins.now.found.now) }
{
    if origins.found.is_settled(alloc, number)? {
        return Ok(Outcome::Nothing);
    }
    if !origins.found.is_needed(number) {
        return Ok(Outcome::Nothing);
    }
    shown(alloc, origins, number, questions)
}
