//! Texts of what both versions have alike: forms, spots, names, steps.

ghost use Rattle.std.specs.Prelude.{◌≡◌, ◌++◌, [], ◌∷◌, map, OnOk};
ghost use Rattle.std.specs.List.{flat_map};
ghost use Rattle.std.specs.String.{string_bytes};
ghost use Rattle.lines.specs.Lines.{text_of_lines};
ghost use Rattle.certificate_text.specs.Text as text;
ghost use Rattle.certificate.specs.View as view;

use crate::spelling::push_name;
use crate::tree::{Anchor, Descent, Form, Lemma, Scaled, Spot, Step, Term};
use std::alloc::AllocError;

fn push_term(out: &mut String, term: &Term) -> Result<(), AllocError>
    ensures { OnOk result (string_bytes out.new ≡ string_bytes out.old ++ text.term_text (view.term term.now)) }
{
    let coefficient = term.coefficient;
    write!(out, "{coefficient}*")?;
    push_name(out, &term.name)?;
    out.push_str(" + ")
}

#[tactic(auto, using(crate::proofs::Texts::one_more, crate::proofs::Texts::no_more))]
fn push_terms(out: &mut String, terms: &[Term]) -> Result<(), AllocError>
    ensures { OnOk result (string_bytes out.new ≡ string_bytes out.old ++ flat_map text.term_text (map view.term terms.now)) }
{
    for term in terms {
        push_term(out, term)?;
    }
    Ok(())
}

pub fn push_form(out: &mut String, form: &Form) -> Result<(), AllocError>
    ensures { OnOk result (string_bytes out.new ≡ string_bytes out.old ++ text.form_text (view.form form.now)) }
{
    push_terms(out, form.terms.as_slice())?;
    let constant = form.constant;
    write!(out, "{constant}")
}

fn push_anchor(out: &mut String, anchor: Anchor) -> Result<(), AllocError>
    ensures { OnOk result (string_bytes out.new ≡ string_bytes out.old ++ text.anchor_text (view.anchor anchor)) }
{
    match anchor {
        Anchor::KernelEntry => out.push_str("entry"),
        Anchor::Barrier(number) => write!(out, "b{number}"),
    }
}

fn push_head(out: &mut String, head: Option<u64>) -> Result<(), AllocError>
    ensures { OnOk result (string_bytes out.new ≡ string_bytes out.old ++ text.head_text head) }
{
    match head {
        None => Ok(()),
        Some(number) => write!(out, "/h{number}"),
    }
}

pub fn push_spot(out: &mut String, spot: Spot) -> Result<(), AllocError>
    ensures { OnOk result (string_bytes out.new ≡ string_bytes out.old ++ (text.place_line (view.spot spot) ++ 10 ∷ [])) }
{
    out.push_str("place ")?;
    push_anchor(out, spot.anchor)?;
    push_head(out, spot.head)?;
    out.push_str("\n")
}

#[tactic(auto, using(crate::proofs::Texts::one_line, crate::proofs::Texts::no_line))]
pub fn push_same(out: &mut String, names: &[String]) -> Result<(), AllocError>
    ensures { OnOk result (string_bytes out.new ≡ string_bytes out.old ++ text_of_lines (map text.same_line (map string_bytes names.now))) }
{
    for name in names {
        writeln!(out, "same {name}")?;
    }
    Ok(())
}

pub fn push_descent(out: &mut String, descent: Descent) -> Result<(), AllocError>
    ensures { OnOk result (string_bytes out.new ≡ string_bytes out.old ++ text.descent_text (view.descent descent)) }
{
    match descent {
        Descent::Down(step) => write!(out, "down {step}"),
        Descent::Halve => out.push_str("halve"),
        Descent::Double(least) => write!(out, "double {least}"),
    }
}

pub fn push_scaled(out: &mut String, scaled: &Scaled) -> Result<(), AllocError>
    ensures { OnOk result (string_bytes out.new ≡ string_bytes out.old ++ text.scaled_text (view.scaled scaled.now)) }
{
    let Scaled { factor, line } = *scaled;
    write!(out, " {factor} {line}")
}

#[tactic(auto, using(crate::proofs::Texts::one_more, crate::proofs::Texts::no_more))]
fn push_parts(out: &mut String, parts: &[Scaled]) -> Result<(), AllocError>
    ensures { OnOk result (string_bytes out.new ≡ string_bytes out.old ++ flat_map text.scaled_text (map view.scaled parts.now)) }
{
    for part in parts {
        push_scaled(out, part)?;
    }
    Ok(())
}

fn push_step(out: &mut String, step: &Step) -> Result<(), AllocError>
    ensures { OnOk result (string_bytes out.new ≡ string_bytes out.old ++ (text.step_line (view.step step.now) ++ 10 ∷ [])) }
{
    match step {
        Step::Given(fact) => write!(out, "g {fact}")?,
        Step::Sum(parts) => {
            out.push_str("s")?;
            push_parts(out, parts.as_slice())?
        }
        Step::Divide(quotient) => {
            out.push_str("d")?;
            push_scaled(out, quotient)?
        }
        Step::Product(first, second) => write!(out, "p {first} {second}")?,
    }
    out.push_str("\n")
}

#[tactic(auto, using(crate::proofs::Texts::one_line, crate::proofs::Texts::no_line))]
pub fn push_steps(out: &mut String, steps: &[Step]) -> Result<(), AllocError>
    ensures { OnOk result (string_bytes out.new ≡ string_bytes out.old ++ text_of_lines (map text.step_line (map view.step steps.now))) }
{
    for step in steps {
        push_step(out, step)?;
    }
    Ok(())
}

/// The line between the lemmas and what shows the obligation, where there are lemmas.
pub fn push_main(out: &mut String, lemmas: &[Lemma]) -> Result<(), AllocError>
    ensures { OnOk result (string_bytes out.new ≡ string_bytes out.old ++ text_of_lines (text.main_lines (map view.lemma lemmas.now))) }
{
    match lemmas {
        [] => Ok(()),
        [_, ..] => out.push_str("m\n"),
    }
}
