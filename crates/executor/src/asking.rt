//! Whether a kernel is run.

ghost use Rattle.std.specs.Prelude.{◌≡◌, true, false, IfErr, OnOk};
ghost use Rattle.core_code.specs.View.{kernel as core_seen};
ghost use Rattle.cert_check.specs.View.{typed_of};
ghost use Rattle.semantics.specs.Machines.{is_reckoned};
ghost use Rattle.executor.specs.declared.error.RunError.TheVariants.{Unreckoned};

use crate::error::RunError;
use cert_check::Accepted;
use core_code::tree::Core;
use work_item::reckoned::is_reckoned;

/// Whether a kernel is run: none in which an operation stands that is not reckoned.
pub fn can_run(core: &Core) -> Result<(), RunError>
    ensures ok { OnOk result (is_reckoned (core_seen core.now) ≡ true) }
    ensures err { IfErr result (λ e. (is_reckoned (core_seen core.now) ≡ false) × (e ≡ Unreckoned)) }
{
    if is_reckoned(core) {
        Ok(())
    } else {
        Err(RunError::Unreckoned)
    }
}

/// Whether an accepted kernel is run.
pub fn can_run_accepted(accepted: &Accepted) -> Result<(), RunError>
    ensures ok { OnOk result (is_reckoned (core_seen (typed_of accepted.now).1) ≡ true) }
    ensures err { IfErr result (λ e. (is_reckoned (core_seen (typed_of accepted.now).1) ≡ false) × (e ≡ Unreckoned)) }
{
    can_run(accepted.typed().core())
}
