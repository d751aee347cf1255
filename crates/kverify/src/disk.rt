//! The files of the system. No clause can say what they have: of what is read of them it is known that it was read of them, in order.

ghost use Rattle.std.specs.Prelude.{◌≡◌, None};

use program::files::{FileFault, Files};
use std::fs::OpenOptions;
use std::io::{ErrorKind, Read, Write};
use std::{fs, io};

/// The most names that are tried for a file beside another one.
const MOST_NAMES: u32 = 100;

/// The files of the system; what they have is not known.
#[derive(Drop)]
pub struct Disk<'a> {
    rt: &'a HostRuntime,
}

impl<'a> Disk<'a> {
    pub fn new(rt: &'a HostRuntime) -> Disk<'a> {
        Disk { rt }
    }

    /// The bytes of a file, up to a number of them.
    fn bytes_of(&self, name: &str, most: u64) -> io::Result<Vec<u8>> {
        let file = fs::open(self.rt, name)?;
        let mut bytes = Vec::new(self.rt.alloc());
        file.take(most).read_to_end(&mut bytes)?;
        Ok(bytes)
    }

    /// Whether there is no such file, or a regular one: no link, device or folder.
    fn is_plain(&self, name: &str) -> io::Result<bool> {
        match fs::symlink_metadata(self.rt, name) {
            Ok(found) => Ok(found.is_file()),
            Err(error) if error.kind() == ErrorKind::NotFound => Ok(true),
            Err(error) => Err(error),
        }
    }

    /// Makes a file that is not there yet, whole, and gives it the other name; where that fails it is gone.
    fn put_by(&self, made: &str, name: &str, bytes: &[u8]) -> io::Result<()> {
        let mut options = OpenOptions::new();
        options.write(true).create_new(true);
        let mut file = options.open(self.rt, made)?;
        let done = match file.write_all(bytes) {
            Ok(()) => fs::rename(self.rt, made, name),
            Err(error) => Err(error),
        };
        if done.is_err() {
            let _removed = fs::remove_file(self.rt, made);
        }
        done
    }

    /// Writes a file beside the one of that name and puts it in its place, so that nobody finds a part of it there.
    fn put(&self, name: &str, bytes: &[u8]) -> io::Result<()> {
        for number in 0..MOST_NAMES {
            let made = format!(in self.rt.alloc(); "{name}.part{number}")?;
            match self.put_by(&made, name, bytes) {
                Err(error) if error.kind() == ErrorKind::AlreadyExists => {}
                done => return done,
            }
        }
        Err(io::Error::from(ErrorKind::AlreadyExists))
    }

    /// Writes a file whole or not at all, where it is a regular one or is not there yet; else what stands there is written to.
    fn save(&self, name: &str, bytes: &[u8]) -> io::Result<()> {
        if self.is_plain(name)? {
            self.put(name, bytes)
        } else {
            fs::write(self.rt, name, bytes)
        }
    }
}

/// Want of memory is told apart from other failures.
fn told<T>(answer: io::Result<T>) -> Result<T, FileFault> {
    match answer {
        Ok(value) => Ok(value),
        Err(error) if error.kind() == ErrorKind::OutOfMemory => Err(FileFault::Memory),
        Err(_) => Err(FileFault::Failed),
    }
}

impl Files for Disk<'_> {
    ghost contents = { λ _ _. None };

    ghost gives = { λ before name limit bytes after. after ≡ before };

    fn read(&mut self, name: &str, limit: u64) -> Result<Vec<u8>, FileFault> {
        told(self.bytes_of(name, limit.saturating_add(1)))
    }

    fn write(&mut self, name: &str, bytes: &[u8]) -> Result<(), FileFault> {
        told(self.save(name, bytes))
    }
}
