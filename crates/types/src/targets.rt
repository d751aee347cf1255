//! What an assignment may have on its left.

ghost use Rattle.std.specs.Option.{option_map};
ghost use Rattle.types.specs.Elaboration as elaboration;
ghost use Rattle.types.specs.TypeFaults as rules;
ghost use Rattle.words.specs.View.{kind as kind_of};
ghost use Rattle.core_code.specs.View.{site};
ghost use Rattle.types.specs.Names.{meaning_seen};
ghost use Rattle.types.specs.Answers.{Gives, IsArrayOf};

use crate::error::{TypeError, TypeFault};
use crate::scope::Meaning;
use core_code::tree::{Array, Site};
use words::Kind;

/// The array that an assignment writes.
pub fn target_array(at: Site, meaning: Option<Meaning>) -> Result<(Array, Kind), TypeError>
    ensures { IsArrayOf result (rules.then (rules.found (option_map meaning_seen meaning) rules.UnknownName (site at)) (elaboration.target_array (site at))) }
{
    let fault = match meaning {
        Some(
            Meaning::Array {
                array,
                kind,
                writable: true,
            },
        ) => return Ok((array, kind)),
        Some(Meaning::Array { .. }) => TypeFault::WriteToConst,
        Some(Meaning::Variable { .. }) => TypeFault::WrongType,
        None => TypeFault::UnknownName,
    };
    Err(TypeError::At { fault, site: at })
}

/// The variable that an assignment sets.
pub fn target_slot(at: Site, meaning: Option<Meaning>) -> Result<(u32, Kind), TypeError>
    ensures { Gives (λ x. (x.0, kind_of x.1)) result (rules.then (rules.found (option_map meaning_seen meaning) rules.UnknownName (site at)) (elaboration.target_slot (site at))) }
{
    match meaning {
        Some(Meaning::Variable { slot, kind }) => Ok((slot, kind)),
        Some(Meaning::Array { .. }) => Err(TypeError::At {
            fault: TypeFault::WrongType,
            site: at,
        }),
        None => Err(TypeError::At {
            fault: TypeFault::UnknownName,
            site: at,
        }),
    }
}
