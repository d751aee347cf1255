//! Why a path goes no further.

ghost use Rattle.std.specs.Prelude.{◌≡◌};

use facts::WalkError;

/// Nobody goes on along the path, or it was not walked.
#[derive(Drop)]
pub enum Halt {
    Dead,
    Refused(WalkError),
}

impl From<WalkError> for Halt {
    ghost use Rattle.path_steps.specs.declared.halt.Halt.TheVariants.{Refused};

    ghost from_gives = { λ e h. h ≡ Refused e };

    fn from(e: WalkError) -> Halt {
        Halt::Refused(e)
    }
}
