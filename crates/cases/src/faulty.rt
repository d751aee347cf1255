// Files of which some fail, or whose bytes are counted.

ghost use Rattle.std.specs.Prelude.{◌≡◌, refl, None};

use program::files::{FileFault, Files};
use program::held::Held;
use std::alloc::AllocError;

/// Files of which one takes too much memory.
#[derive(Drop)]
pub struct Torn<'a> {
    pub held: &'a mut Held,
    pub fails: Option<&'a String>,
}

impl Files for Torn<'_> {
    ghost contents = { λ _ _. None };

    ghost gives = { λ before name limit bytes after. Unit {0} };

    fn read(&mut self, name: &str, limit: u64) -> Result<Vec<u8>, FileFault> {
        match self.fails {
            Some(fails) if name == fails.as_str() => Err(FileFault::Memory),
            _ => self.held.read(name, limit),
        }
    }

    fn write(&mut self, name: &str, bytes: &[u8]) -> Result<(), FileFault> {
        self.held.write(name, bytes)
    }
}

/// Files that cannot be written.
#[derive(Drop)]
pub struct Sealed<'a> {
    pub held: &'a mut Held,
}

impl Files for Sealed<'_> {
    ghost contents = { λ _ _. None };

    ghost gives = { λ before name limit bytes after. Unit {0} };

    fn read(&mut self, name: &str, limit: u64) -> Result<Vec<u8>, FileFault> {
        self.held.read(name, limit)
    }

    fn write(&mut self, _: &str, _: &[u8]) -> Result<(), FileFault> {
        Err(FileFault::Failed)
    }
}

/// Files that tell how many bytes each read has given.
#[derive(Drop)]
pub struct Counted<'a> {
    pub held: &'a mut Held,
    pub told: String,
}

impl Files for Counted<'_> {
    ghost contents = { λ _ _. None };

    ghost gives = { λ before name limit bytes after. Unit {0} };

    fn read(&mut self, name: &str, limit: u64) -> Result<Vec<u8>, FileFault> {
        let bytes = self.held.read(name, limit)?;
        match writeln!(self.told, "{name}: {}", bytes.len()) {
            Ok(()) => Ok(bytes),
            Err(AllocError) => Err(FileFault::Memory),
        }
    }

    fn write(&mut self, name: &str, bytes: &[u8]) -> Result<(), FileFault> {
        self.held.write(name, bytes)
    }
}
