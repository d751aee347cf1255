//! Sets of candidates.

ghost use Rattle.std.specs.Prelude.{◌≡◌, ℕ, ◌<◌, ◌≤◌, ◌==◌, ◌||◌, false, length, nat_lt};
ghost use Rattle.supports.specs.Sets.{members};

/// A set of candidates below 512, a bit each.
#[derive(Debug, Clone, Copy, PartialEq, Eq)]
pub struct Set {
    pub words: [u64; 8],
    pub ghost eight: { length words ≡ 8 },
}

impl Set {
    /// The set without members.
    pub fn empty() -> Set
        ensures { (c : ℕ) → members result.words c ≡ false }
    {
        Set { words: [0; 8] }
    }

    /// Whether the candidate is a member.
    pub fn contains(&self, candidate: u32) -> bool
        ensures { result ≡ members self.now.words candidate }
    {
        if candidate >= 512 {
            return false;
        }
        (self.words[(candidate / 64) as usize] >> (candidate % 64)) & 1 == 1
    }

    /// Takes a candidate into the set.
    pub fn insert(&mut self, candidate: u32)
        requires { candidate < 512 }
        ensures { (c : ℕ) → members self.new.words c ≡ (c == candidate || members self.old.words c) }
    {
        self.words[(candidate / 64) as usize] |= 1u64 << (candidate % 64);
    }

    /// The set of all candidates below a number.
    pub fn below(count: u32) -> Set
        requires { count ≤ 512 }
        ensures { (c : ℕ) → members result.words c ≡ nat_lt c count }
    {
        let mut set = Set::empty();
        for candidate in 0..count {
            set.insert(candidate);
        }
        set
    }
}
