//! What an accepted kernel keeps.

ghost use Rattle.std.specs.Prelude.{◌≡◌, true};
ghost use Rattle.core_code.specs.View.{kernel as core_seen};
ghost use Rattle.launch.specs.View.{conditions as conditions_seen};
ghost use Rattle.work_item.specs.Proper.{is_proper};
ghost use Rattle.lanes.specs.Lowering.{IsOrderly};
ghost use Rattle.cert_check.specs.Accepting.{IsAcceptedWithin, HasParameters};
ghost use Rattle.cert_check.specs.View.{typed_of, kept};

use crate::accepted::Accepted;
use launch::conditions::Conditions;
use typed_kernels::Typed;

impl Accepted {
    /// A kernel with conditions under which it is accepted, as the caller has shown.
    pub(crate) fn of(typed: Typed, conditions: Conditions) -> Accepted
        requires promise { IsAcceptedWithin (core_seen typed.1) (conditions_seen conditions) }
        requires parameters { HasParameters (core_seen typed.1) (conditions_seen conditions) }
        requires proper { is_proper (core_seen typed.1) ≡ true }
        requires orderly { ∥ IsOrderly (core_seen typed.1) ∥₁ }
        ensures typed { typed_of result ≡ typed }
        ensures conditions { kept result ≡ conditions }
    {
        Accepted { typed, conditions }
    }

    /// The kernel that was accepted, well-typed.
    pub fn typed(&self) -> &Typed
        ensures value { result.now ≡ typed_of self.now }
        ensures accepted { IsAcceptedWithin (core_seen (typed_of self.now).1) (conditions_seen (kept self.now)) }
        ensures parameters { HasParameters (core_seen (typed_of self.now).1) (conditions_seen (kept self.now)) }
        ensures proper { is_proper (core_seen (typed_of self.now).1) ≡ true }
        ensures orderly { ∥ IsOrderly (core_seen (typed_of self.now).1) ∥₁ }
    {
        &self.typed
    }

    /// The conditions under which the kernel was accepted.
    pub fn conditions(&self) -> &Conditions
        ensures value { result.now ≡ kept self.now }
        ensures accepted { IsAcceptedWithin (core_seen (typed_of self.now).1) (conditions_seen (kept self.now)) }
        ensures parameters { HasParameters (core_seen (typed_of self.now).1) (conditions_seen (kept self.now)) }
    {
        &self.conditions
    }
}
