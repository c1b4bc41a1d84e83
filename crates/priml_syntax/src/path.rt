ghost use Rattle.std.specs.Prelude.{◌≡◌, ◌↔◌, ◌<◌, [], ◌∷◌, ◌++◌, length, IsTrue, IfOk, Err};
ghost use Rattle.std.specs.Ordering.{nat_cmp};
ghost use Rattle.std.specs.Cmp.Lexicographic.{slice_cmp};
ghost use Rattle.priml_syntax.specs.Limits.{most_parts};
ghost use Rattle.priml_syntax.specs.Paths.{IsPath, Precedes, child_path};

use crate::limits::MOST_PARTS;
use std::alloc::{AllocError, Global};
use std::cmp::Ordering;
use std::marker::Model;

/// The name of a thread: the number of its root, and then for each spawn that leads to it the number of the
/// child among those of its parent, from 0. It has 1 to 32 parts.
#[derive(Debug, Drop)]
pub struct Path {
    parts: Vec<u32>,
}

impl Model for Path {
    ghost use Rattle.std.specs.Prelude.{List, ℕ};
    ghost use Rattle.std.specs.Coded.{coded_list, coded_ℕ};
    ghost use Rattle.priml_syntax.specs.Paths.{IsPath};

    ghost Value = { List ℕ };

    ghost coded = { coded_list coded_ℕ };

    ghost view = { λ p. p.parts.items };

    ghost invariant = { λ p. IsPath p.parts.items };
}

/// Why a path was not made.
#[derive(Debug, Drop)]
pub enum PathStop {
    /// It would have more than 32 parts.
    TooDeep,
    /// Want of memory.
    OutOfMemory,
}

impl Path {
    /// The path of the first root, `0`.
    pub fn root(alloc: Global) -> Result<Path, AllocError>
        ensures { IfOk result (λ p. p ≡ 0 ∷ []) }
    {
        Path::root_at(alloc, 0)
    }

    /// The path of the k-th root, from 0.
    pub fn root_at(alloc: Global, k: u32) -> Result<Path, AllocError>
        ensures { IfOk result (λ p. p ≡ k ∷ []) }
    {
        let mut parts = Vec::new(alloc);
        parts.push(k)?;
        Ok(Path { parts })
    }

    /// The path of these 1 to 32 parts.
    pub fn of_parts(parts: Vec<u32>) -> Path
        requires { IsPath parts.items }
        ensures { result ≡ parts.items }
    {
        Path { parts }
    }

    /// The path of the k-th thread, from 0, that this one spawns. TooDeep comes exactly where this path has
    /// 32 parts.
    pub fn child(&self, alloc: Global, k: u32) -> Result<Path, PathStop>
        ensures ok { IfOk result (λ p. p ≡ child_path self.now k) }
        ensures deep { result ≡ Err PathStop.TooDeep → length self.now ≡ most_parts }
        ensures exact { length self.now ≡ most_parts → result ≡ Err PathStop.TooDeep }
    {
        if self.parts.len() >= MOST_PARTS {
            return Err(PathStop::TooDeep);
        }
        Ok(self.longer(alloc, k)?)
    }

    // The path with one part more.
    fn longer(&self, alloc: Global, k: u32) -> Result<Path, AllocError>
        requires { length self.now < most_parts }
        ensures { IfOk result (λ p. p ≡ self.now ++ k ∷ []) }
    {
        let mut parts = Vec::with_capacity(alloc, self.parts.len() + 1)?;
        parts.extend_from_slice(&self.parts)?;
        parts.push(k)?;
        Ok(Path { parts })
    }

    /// The order of paths: as lists of numbers, a prefix first.
    pub fn compare(&self, other: &Path) -> Ordering
        ensures value { result ≡ slice_cmp nat_cmp self.now other.now }
        ensures less { (result ≡ Ordering.Less) ↔ Precedes self.now other.now }
        ensures equal { (result ≡ Ordering.Equal) ↔ (self.now ≡ other.now) }
        ensures greater { (result ≡ Ordering.Greater) ↔ Precedes other.now self.now }
    {
        self.parts.as_slice().cmp(other.parts.as_slice())
    }

    /// Whether the two are the same path.
    pub fn equals(&self, other: &Path) -> bool
        ensures { IsTrue result ↔ (self.now ≡ other.now) }
    {
        self.parts.as_slice() == other.parts.as_slice()
    }

    /// The numbers of the path, the root's first; 1 to 32 of them.
    pub fn parts(&self) -> &[u32]
        ensures value { result.now ≡ self.now }
        ensures is_path { IsPath result.now }
    {
        &self.parts
    }

    /// An equal path.
    pub fn copy(&self, alloc: Global) -> Result<Path, AllocError>
        ensures { IfOk result (λ p. p ≡ self.now) }
    {
        let parts = Vec::from_slice(alloc, &self.parts)?;
        Ok(Path { parts })
    }
}

impl From<AllocError> for PathStop {
    ghost use Rattle.priml_syntax.specs.declared.path.PathStop.TheVariants.{OutOfMemory};

    ghost from_gives = { λ _ stop. stop ≡ OutOfMemory };

    fn from(_: AllocError) -> PathStop {
        PathStop::OutOfMemory
    }
}
