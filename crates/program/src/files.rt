//! Files by their names.

ghost use Rattle.std.specs.Prelude.{◌≡◌, ◌≢◌, ◌≤◌, ◌+◌, ℕ, List, Option, IfOk, IfSome, OnOk, length, take};

/// The reasons for which a read or a write of a file fails.
#[derive(Clone, Copy, Debug, PartialEq, Eq)]
pub enum FileFault {
    /// The file is not there, or it cannot be read or written.
    Failed,
    Memory,
}

/// Files by their names.
pub trait Files {
    /// The bytes of a file, by its name, where they are known.
    ghost contents: { Self → List ℕ → Option (List ℕ) };

    /// The outcomes of a read: the files before it, the name, the limit, the bytes, and the files behind it.
    ghost gives: { Self → List ℕ → ℕ → List ℕ → Self → Type 0 };

    /// The bytes of a file, at most one more than `limit`.
    fn read(&mut self, name: &str, limit: u64) -> Result<Vec<u8>, FileFault>
        ensures bytes { IfOk result (λ v. IfSome (contents self.old name.now) (λ b. v.items ≡ take (limit + 1) b)) }
        ensures given { IfOk result (λ v. gives self.old name.now limit v.items self.new) }
        ensures same { (n : List ℕ) → contents self.new n ≡ contents self.old n };

    /// Puts bytes into a file, in the place of what it has. Where that fails, the file may have any part of them.
    fn write(&mut self, name: &str, bytes: &[u8]) -> Result<(), FileFault>
        ensures written { OnOk result (IfSome (contents self.new name.now) (λ b. b ≡ bytes.now)) }
        ensures others { (n : List ℕ) → n ≢ name.now → contents self.new n ≡ contents self.old n };
}
