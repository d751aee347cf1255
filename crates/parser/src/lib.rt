//! Section: Kernel text. Promises exactly the kernel that the readers have of tokens, within the limits, or its first fault, and that what
//! is read is what the grammar says, both ways; stands on `lexer` and `syntax`.
//!
//! Tokens to trees. `specs/` has the readers of kernels, small programs of one meaning: what stands at the front of tokens, expressions,
//! statements, whole kernels. `parse` reads the whole language, without recursion deeper than the limits of brackets and levels allow; its
//! answer is the tree that the readers have, or the fault that they name at its place. `laws`: what the readers take is in the grammar and
//! within the limits, each kernel within the limits is taken, lexemes have one kernel at most, and a refusal is true where it stands.
#![tactic(auto)]

ghost use Rattle.std.specs.Prelude.{IfOk};
ghost use Rattle.syntax.specs.View.{kernel as kernel_seen};
ghost use Rattle.parser.specs.View.{lexemes};
ghost use Rattle.parser.specs.Parsed.{parsed, Gives, Measures};
ghost use Rattle.texts.specs.Declarations.{HasFewNames};
ghost use Rattle.texts.specs.Limits.{within_limits};

pub mod counts;
pub mod depth;
pub mod error;
pub(crate) mod expressions;
pub mod front;
pub(crate) mod kernels;
pub mod laws;
pub(crate) mod parts;
pub mod statements;
pub mod stops;

use crate::counts::{Counts, count_parameters, count_statements};
use crate::depth::deep_statements;
use crate::front::site_at;
use crate::stops::{ParseFault, Stop};
use core_code::tree::Site;
use error::ParseError;
use kernels::whole_kernel;
use lexer::Token;
use std::alloc::Global;
use syntax::tree::Kernel;

#[tactic(auto, unfolding(texts::specs::Limits::within_limits))]
fn measure(kernel: &Kernel) -> Result<Counts, (ParseFault, Site)>
    ensures { Measures result (within_limits (kernel_seen kernel.now)) }
{
    if let Some(site) = deep_statements(1, kernel.body.as_slice()) {
        return Err((ParseFault::TooDeep, site));
    }
    let none = Counts {
        buffers: 0,
        variables: 0,
        arrays: 0,
    };
    let parameters = match count_parameters(none, kernel.parameters.as_slice()) {
        Ok(counted) => counted,
        Err(site) => return Err((ParseFault::TooMany, site)),
    };
    match count_statements(parameters, kernel.body.as_slice()) {
        Ok(counted) => Ok(counted),
        Err(site) => Err((ParseFault::TooMany, site)),
    }
}

/// The kernel that the tokens are, the last of them `End`; else a fault and its place: that of the token where another is due, of a
/// bracket, node or name past a limit.
#[tactic(auto, using(texts::proofs::Declarations::few_names), unfolding(crate::specs::Parsed::parsed))]
pub fn parse(alloc: Global, tokens: &[Token]) -> Result<Kernel, ParseError>
    ensures value { Gives result (parsed (lexemes tokens.now)) }
    ensures few { IfOk result (λ k. HasFewNames (kernel_seen k)) }
{
    let kernel = match whole_kernel(alloc, tokens) {
        Ok((kernel, _)) => kernel,
        Err(Stop::Memory) => return Err(ParseError::Memory),
        Err(Stop::Refused(fault, rest)) => return Err(ParseError::At {
            fault,
            site: site_at(rest),
        }),
    };
    match measure(&kernel) {
        Ok(_) => Ok(kernel),
        Err((fault, site)) => Err(ParseError::At { fault, site }),
    }
}
