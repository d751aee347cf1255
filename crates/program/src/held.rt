//! Files in memory.

ghost use Rattle.std.specs.Prelude.{◌≡◌, ◌≢◌, ◌≤◌, ◌+◌, ℕ, List, Option, Some, None, IfOk, IfSome, OnOk, OnErr, take};
ghost use Rattle.std.specs.Option.{option_map};
ghost use Rattle.std.specs.BTreeMap.{get_by_text};

use crate::files::{FileFault, Files};
use std::alloc::{AllocError, Global};
use std::collections::BTreeMap;

/// Files in memory, by their names.
#[derive(Drop)]
pub struct Held {
    alloc: Global,
    files: BTreeMap<String, Vec<u8>>,
}

impl Held {
    /// Files in memory, none of which is there yet.
    pub fn new(alloc: Global) -> Held
        ensures { (name : List ℕ) → option_map (λ v. v.items) (get_by_text result.files name) ≡ None }
    {
        Held {
            alloc,
            files: BTreeMap::new(alloc),
        }
    }

    /// Puts bytes into a file, or leaves all files as they are.
    fn put(&mut self, name: &str, bytes: &[u8]) -> Result<(), AllocError>
        ensures written { OnOk result (option_map (λ v. v.items) (get_by_text self.new.files name.now) ≡ Some bytes.now) }
        ensures others { (n : List ℕ) → n ≢ name.now → get_by_text self.new.files n ≡ get_by_text self.old.files n }
        ensures kept { OnErr result ((n : List ℕ) → get_by_text self.new.files n ≡ get_by_text self.old.files n) }
    {
        let name = String::from_str(self.alloc, name)?;
        let bytes = Vec::from_slice(self.alloc, bytes)?;
        self.files.insert(name, bytes)?;
        Ok(())
    }
}

impl Files for Held {
    ghost contents = { λ h name. option_map (λ v. v.items) (get_by_text h.files name) };

    ghost gives = { λ before name limit bytes after. after ≡ before };

    fn read(&mut self, name: &str, limit: u64) -> Result<Vec<u8>, FileFault> {
        let Some(bytes) = self.files.get(name) else {
            return Err(FileFault::Failed);
        };
        let most = (bytes.len() as u64).min(limit.saturating_add(1)) as usize;
        match Vec::from_slice(self.alloc, &bytes[..most]) {
            Ok(bytes) => Ok(bytes),
            Err(_) => Err(FileFault::Memory),
        }
    }

    fn write(&mut self, name: &str, bytes: &[u8]) -> Result<(), FileFault>
        ensures written { OnOk result (option_map (λ v. v.items) (get_by_text self.new.files name.now) ≡ Some bytes.now) }
        ensures others { (n : List ℕ) → n ≢ name.now → option_map (λ v. v.items) (get_by_text self.new.files n) ≡ option_map (λ v. v.items) (get_by_text self.old.files n) }
        ensures kept { OnErr result ((n : List ℕ) → option_map (λ v. v.items) (get_by_text self.new.files n) ≡ option_map (λ v. v.items) (get_by_text self.old.files n)) }
    {
        match self.put(name, bytes) {
            Ok(()) => Ok(()),
            Err(_) => Err(FileFault::Memory),
        }
    }
}
