//! Jump statements, and where statements stand.

ghost use Rattle.std.specs.Prelude.{◌≡◌};
ghost use Rattle.types.specs.Elaboration as elaboration;
ghost use Rattle.syntax.specs.View.{jump_word};
ghost use Rattle.core_code.specs.View.{site as site_of, statement};
ghost use Rattle.types.specs.Answers.{Gives};
ghost use Rattle.types.specs.Arounds.{around as around_of};

use crate::error::{TypeError, TypeFault};
use core_code::tree::{Site, Statement};
use syntax::tree::JumpWord;

/// The surroundings of a statement: directly in the kernel's body, in a block outside all loops, or in loops, the innermost of which has
/// the number.
#[derive(Clone, Copy)]
pub enum Around {
    InKernel,
    InBlock,
    InLoop(u32),
}

impl Around {
    pub fn is_in_kernel(self) -> bool
        ensures { result ≡ elaboration.is_in_kernel (around_of self) }
    {
        matches!(self, Around::InKernel)
    }

    /// The surroundings of the statements in a block that itself has these.
    pub fn inside(self) -> Around
        ensures { around_of result ≡ elaboration.inside (around_of self) }
    {
        match self {
            Around::InKernel | Around::InBlock => Around::InBlock,
            Around::InLoop(number) => Around::InLoop(number),
        }
    }

    fn innermost_loop(self) -> Option<u32>
        ensures { result ≡ elaboration.innermost_loop (around_of self) }
    {
        match self {
            Around::InKernel | Around::InBlock => None,
            Around::InLoop(number) => Some(number),
        }
    }
}

/// The core statement of a jump statement that stands here.
pub fn jump_to(
    number: u32,
    site: Site,
    around: Around,
    jump: JumpWord,
) -> Result<Statement, TypeError>
    ensures { Gives statement result (elaboration.jump_to number (site_of site) (around_of around) (jump_word jump)) }
{
    if let JumpWord::Return = jump {
        return Ok(Statement::Return { number });
    }
    let Some(of) = around.innermost_loop() else {
        return Err(TypeError::At {
            fault: TypeFault::JumpOutsideLoop,
            site,
        });
    };
    match jump {
        JumpWord::Continue => Ok(Statement::Continue { number, of }),
        _ => Ok(Statement::Break { number, of }),
    }
}
