//! The text of statements.

ghost use Rattle.std.specs.Prelude.{◌≡◌, ◌++◌, OnOk, codes};
ghost use Rattle.std.specs.String.{string_bytes};
ghost use Rattle.texts.specs.Canonical as text;
ghost use Rattle.words.specs.View.{kind as kind_seen};
ghost use Rattle.syntax.specs.View.{expression, assignment as assignment_seen, declaration as declaration_seen, first as first_seen, index_of, statement as statement_seen, statements};

use crate::expression::push_expression;
use crate::sign::{push_assign, push_jump, push_kind};
use std::alloc::{AllocError, Global};
use syntax::tree::{Assignment, Declaration, Expr, First, Stmt};
use words::Kind;

fn push_declaration(out: &mut String, declaration: &Declaration) -> Result<(), AllocError>
    ensures { OnOk result (string_bytes out.new ≡ string_bytes out.old ++ text.declaration_text (declaration_seen declaration.now)) }
{
    push_kind(out, declaration.kind)?;
    let name = declaration.name.as_str();
    write!(out, " {name} = ")?;
    push_expression(out, &declaration.value)
}

fn push_index(out: &mut String, index: &Option<Expr>) -> Result<(), AllocError>
    ensures { OnOk result (string_bytes out.new ≡ string_bytes out.old ++ text.index_text (index_of index.now)) }
{
    match index {
        None => Ok(()),
        Some(index) => {
            out.push_str("[")?;
            push_expression(out, index)?;
            out.push_str("]")
        }
    }
}

fn push_assignment(out: &mut String, assignment: &Assignment) -> Result<(), AllocError>
    ensures { OnOk result (string_bytes out.new ≡ string_bytes out.old ++ text.assignment_text (assignment_seen assignment.now)) }
{
    out.push_str(assignment.name.as_str())?;
    push_index(out, &assignment.index)?;
    out.push_str(" ")?;
    push_assign(out, assignment.sign)?;
    out.push_str(" ")?;
    push_expression(out, &assignment.value)
}

fn push_first(out: &mut String, first: &First) -> Result<(), AllocError>
    ensures { OnOk result (string_bytes out.new ≡ string_bytes out.old ++ text.first_text (first_seen first.now)) }
{
    match first {
        First::Declares(declaration) => push_declaration(out, declaration),
        First::Assigns(assignment) => push_assignment(out, assignment),
    }
}

fn push_array(out: &mut String, kind: Kind, name: &str, length: u32) -> Result<(), AllocError>
    ensures { OnOk result (string_bytes out.new ≡ string_bytes out.old ++ text.array_text (kind_seen kind) name.now length) }
{
    out.push_str("__local ")?;
    push_kind(out, kind)?;
    write!(out, " {name}[{length}]")
}

fn push_for_head(
    out: &mut String,
    first: &First,
    test: &Expr,
    update: &Assignment,
) -> Result<(), AllocError>
    ensures { OnOk result (string_bytes out.new ≡ string_bytes out.old ++ text.for_text (first_seen first.now) (expression test.now) (assignment_seen update.now)) }
{
    out.push_str("for (")?;
    push_first(out, first)?;
    out.push_str("; ")?;
    push_expression(out, test)?;
    out.push_str("; ")?;
    push_assignment(out, update)?;
    out.push_str(")")
}

fn push_for(
    out: &mut String,
    pad: &str,
    first: &First,
    test: &Expr,
    update: &Assignment,
) -> Result<(), AllocError>
    ensures { OnOk result (string_bytes out.new ≡ string_bytes out.old ++ text.line pad.now (text.for_text (first_seen first.now) (expression test.now) (assignment_seen update.now) ++ codes " {")) }
{
    out.push_str(pad)?;
    push_for_head(out, first, test, update)?;
    out.push_str(" {\n")
}

fn push_if(out: &mut String, pad: &str, test: &Expr) -> Result<(), AllocError>
    ensures { OnOk result (string_bytes out.new ≡ string_bytes out.old ++ text.line pad.now (codes "if (" ++ (text.expression_text (expression test.now) ++ codes ") {"))) }
{
    write!(out, "{pad}if (")?;
    push_expression(out, test)?;
    out.push_str(") {\n")
}

fn push_while(out: &mut String, pad: &str, test: &Expr) -> Result<(), AllocError>
    ensures { OnOk result (string_bytes out.new ≡ string_bytes out.old ++ text.line pad.now (codes "while (" ++ (text.expression_text (expression test.now) ++ codes ") {"))) }
{
    write!(out, "{pad}while (")?;
    push_expression(out, test)?;
    out.push_str(") {\n")
}

#[cycle(statement)]
fn push_else(alloc: Global, out: &mut String, pad: &str, skipped: &[Stmt]) -> Result<(), AllocError>
    ensures { OnOk result (string_bytes out.new ≡ string_bytes out.old ++ text.else_text pad.now (statements skipped.now)) }
{
    if skipped.is_empty() {
        return Ok(());
    }
    writeln!(out, "{pad}}} else {{")?;
    push_body(alloc, out, pad, skipped)
}

/// Writes statements one level deeper than `pad`.
#[cycle(statement)]
fn push_body(alloc: Global, out: &mut String, pad: &str, body: &[Stmt]) -> Result<(), AllocError>
    ensures { OnOk result (string_bytes out.new ≡ string_bytes out.old ++ text.statements_text (text.deeper pad.now) (statements body.now)) }
{
    let inner = format!(in alloc; "{pad}  ")?;
    push_statements(alloc, out, inner.as_str(), body)
}

/// Statements in order, each line behind `pad`.
#[cycle(statement)]
#[tactic(auto, using(crate::proofs::Texts::one_statement, crate::proofs::Texts::no_statement))]
pub fn push_statements(
    alloc: Global,
    out: &mut String,
    pad: &str,
    body: &[Stmt],
) -> Result<(), AllocError>
    ensures { OnOk result (string_bytes out.new ≡ string_bytes out.old ++ text.statements_text pad.now (statements body.now)) }
{
    for statement in body {
        push_statement(alloc, out, pad, statement)?;
    }
    Ok(())
}

/// Writes statements one level deeper than `pad`.
#[cycle(statement)]
fn push_block(alloc: Global, out: &mut String, pad: &str, body: &[Stmt]) -> Result<(), AllocError>
    ensures { OnOk result (string_bytes out.new ≡ string_bytes out.old ++ (text.statements_text (text.deeper pad.now) (statements body.now) ++ text.line pad.now (codes "}"))) }
{
    push_body(alloc, out, pad, body)?;
    writeln!(out, "{pad}}}")
}

/// Writes the part of an `if` behind its taken statements: its `else`, if it has one, and the closing brace.
#[cycle(statement)]
fn push_rest(alloc: Global, out: &mut String, pad: &str, skipped: &[Stmt]) -> Result<(), AllocError>
    ensures { OnOk result (string_bytes out.new ≡ string_bytes out.old ++ (text.else_text pad.now (statements skipped.now) ++ text.line pad.now (codes "}"))) }
{
    push_else(alloc, out, pad, skipped)?;
    writeln!(out, "{pad}}}")
}

#[cycle(statement)]
fn push_statement(
    alloc: Global,
    out: &mut String,
    pad: &str,
    statement: &Stmt,
) -> Result<(), AllocError>
    ensures { OnOk result (string_bytes out.new ≡ string_bytes out.old ++ text.statement_text pad.now (statement_seen statement.now)) }
{
    match statement {
        Stmt::Declare(declaration) => {
            out.push_str(pad)?;
            push_declaration(out, declaration)?;
            out.push_str(";\n")
        }
        Stmt::DeclareArray {
            kind,
            name,
            length,
            ..
        } => {
            out.push_str(pad)?;
            push_array(out, *kind, name.as_str(), *length)?;
            out.push_str(";\n")
        }
        Stmt::Assign(assignment) => {
            out.push_str(pad)?;
            push_assignment(out, assignment)?;
            out.push_str(";\n")
        }
        Stmt::If {
            test,
            taken,
            skipped,
            ..
        } => {
            push_if(out, pad, test)?;
            push_body(alloc, out, pad, taken.as_slice())?;
            push_rest(alloc, out, pad, skipped.as_slice())
        }
        Stmt::While { test, body, .. } => {
            push_while(out, pad, test)?;
            push_block(alloc, out, pad, body.as_slice())
        }
        Stmt::For {
            first,
            test,
            update,
            body,
            ..
        } => {
            push_for(out, pad, first, test, update)?;
            push_block(alloc, out, pad, body.as_slice())
        }
        Stmt::Barrier { flags, .. } => {
            write!(out, "{pad}barrier(")?;
            push_expression(out, flags)?;
            out.push_str(");\n")
        }
        Stmt::Jump { jump, .. } => {
            out.push_str(pad)?;
            push_jump(out, *jump)?;
            out.push_str(";\n")
        }
        Stmt::Block { body, .. } => {
            writeln!(out, "{pad}{{")?;
            push_block(alloc, out, pad, body.as_slice())
        }
    }
}
