//! The devices that a kernel is read for.

ghost use Rattle.std.specs.Prelude.{◌≡◌};
ghost use Rattle.types.specs.Scope as scope;
ghost use Rattle.types.specs.Names.{devices as devices_seen};
ghost use Rattle.words.specs.View.{kind};

use words::Kind;

/// Those with 32 address bits, where `size_t` is `uint`; or any, where it is a kind of its own, with 32 bits or more (OpenCL 1.2, 6.1.1).
#[derive(Clone, Copy)]
pub enum Devices {
    Bits32,
    Any,
}

impl Devices {
    ghost use Rattle.std.specs.Prelude.{◌≡◌};
    ghost use Rattle.types.specs.Scope as scope;
    ghost use Rattle.types.specs.Names.{devices as devices_seen};
    ghost use Rattle.words.specs.View.{kind};

    /// The kind of `size_t`, which ids and sizes have (6.12.1).
    pub fn size_kind(self) -> Kind
        ensures { kind result ≡ scope.size_kind (devices_seen self) }
    {
        match self {
            Devices::Bits32 => Kind::Uint,
            Devices::Any => Kind::Size,
        }
    }
}
