//! Kernels that are accepted.

ghost use Rattle.std.specs.Prelude.{◌≡◌, true};
ghost use Rattle.std.proofs.Props.{props};
ghost use Rattle.core_code.specs.View.{kernel as core_seen};
ghost use Rattle.launch.specs.View.{conditions as conditions_seen};
ghost use Rattle.work_item.specs.Proper.{is_proper};
ghost use Rattle.lanes.specs.Lowering.{IsOrderly};
ghost use Rattle.cert_check.specs.Accepting.{IsAcceptedWithin, HasParameters};
ghost use Rattle.cert_check.specs.Properties.{stores_kept-prop};

use launch::conditions::Conditions;
use typed_kernels::Typed;

/// A kernel with conditions under which it was accepted: at each launch that meets them it is pair-safe within the budget, in the solo runs
/// whose loads are answered by what their lines let buffers hold. As all that is read it is proper and orderly.
#[derive(Drop)]
pub struct Accepted {
    pub(crate) typed: Typed,
    pub(crate) conditions: Conditions,
    pub(crate) ghost promise: { IsAcceptedWithin (core_seen typed.1) (conditions_seen conditions) } by { Prim.hlevel (stores_kept-prop, props) },
    pub(crate) ghost parameters: { HasParameters (core_seen typed.1) (conditions_seen conditions) },
    pub(crate) ghost proper: { is_proper (core_seen typed.1) ≡ true },
    pub(crate) ghost orderly: { ∥ IsOrderly (core_seen typed.1) ∥₁ },
}
