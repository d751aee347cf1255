//! A history of accesses.

ghost use Rattle.std.specs.Prelude.{◌≡◌, ◌<◌, [], Some, OnOk, MatchOption};
ghost use Rattle.std.specs.Option.{option_map};
ghost use Rattle.semantics.specs.Setup.{Setup, group_size};
ghost use Rattle.semantics.specs.World.{noted};
ghost use Rattle.clashes.specs.View.{access as access_seen};
ghost use Rattle.clashes.specs.Histories.{HasNoClash, IsFirstClash};
ghost use Rattle.clashes.specs.Watched.{accesses, IsWatched, HasRoomFor, AreNext};

use crate::access::Access;
use crate::watch::Watch;
use std::alloc::{AllocError, Global};

/// The accesses so far, the oldest first, and what finds the first two that clash.
#[derive(Drop)]
pub struct History {
    pub accesses: Vec<Access>,
    pub watch: Watch,
}

impl History {
    /// A history without accesses.
    pub fn new(alloc: Global) -> History
        ensures empty { accesses result ≡ [] }
        ensures watched { (s : Setup) → IsWatched s result }
    {
        History {
            accesses: Vec::new(alloc),
            watch: Watch::new(alloc),
        }
    }

    // Room for an access.
    fn reserve_one(&mut self, access: Access) -> Result<(), AllocError>
        ensures same { accesses self.new ≡ accesses self.old }
        ensures watched { (s : Setup) → IsWatched s self.old → IsWatched s self.new }
        ensures room { OnOk result (HasRoomFor self.new (Some access)) }
    {
        self.accesses.reserve(1)?;
        self.watch.reserve(access.at)
    }

    /// Makes room for an access, if there is one; what was noted stays.
    pub fn reserve(&mut self, access: Option<Access>) -> Result<(), AllocError>
        ensures same { accesses self.new ≡ accesses self.old }
        ensures watched { (s : Setup) → IsWatched s self.old → IsWatched s self.new }
        ensures room { OnOk result (HasRoomFor self.new access) }
    {
        match access {
            Some(access) => self.reserve_one(access),
            None => Ok(()),
        }
    }

    /// Notes an access, if there is one; a group has so many items.
    pub fn note(&mut self, access: Option<Access>, size: u64)
        requires room { HasRoomFor self.old access }
        requires some { 0 < size }
        ensures noted { accesses self.new ≡ noted (option_map access_seen access) (accesses self.old) }
        ensures watched { (s : Setup) → group_size s ≡ size → IsWatched s self.old → AreNext s (accesses self.old) access → IsWatched s self.new }
    {
        if let Some(access) = access {
            self.watch.note(access, self.accesses.len(), size);
            self.accesses.push_reserved(access);
        }
    }

    /// The first clash, the earlier access first: of all pairs that clash one whose later access comes first, and of those the one whose
    /// earlier access does. It takes time linear in the length of the history.
    pub fn clash(&self, size: u64) -> Option<(Access, Access)>
        requires { 0 < size }
        ensures { (s : Setup) → group_size s ≡ size → IsWatched s self.now → MatchOption result (HasNoClash s (accesses self.now)) (λ p. IsFirstClash s (accesses self.now) (access_seen p.0) (access_seen p.1)) }
    {
        self.watch.clash(self.accesses.as_slice(), size)
    }
}
