ghost use Rattle.std.specs.Prelude.{◌≡◌, ◌<◌, [], length, List, ℕ, ℤ, IfOk, IfErr};
ghost use Rattle.std.specs.List.{HoldsAt};
ghost use Rattle.std.specs.Ordering.{nat_cmp};
ghost use Rattle.std.specs.Cmp.Lexicographic.{slice_cmp};
ghost use Rattle.std.specs.declared.vec.Vec.{Vec as TheVec};
ghost use Rattle.std.specs.declared.alloc.Global.{Global as TheGlobal};
ghost use Rattle.priml_syntax.specs.Inputs.{inputs_of, NoPathTwice, RiseByPath, read_lists};

use crate::path::Path;
use std::alloc::{AllocError, Global};
use std::cmp::Ordering;
use std::marker::Model;

/// What threads read: a list of numbers for some paths, no path twice. Every other path has the empty list.
#[derive(Drop)]
pub struct Inputs {
    lists: Vec<(Path, Vec<i64>)>,
}

impl Model for Inputs {
    ghost use Rattle.std.specs.Prelude.{List, ℕ, ℤ};
    ghost use Rattle.std.specs.Coded.{coded_list, coded×, coded_ℕ, coded_ℤ};
    ghost use Rattle.priml_syntax.specs.Inputs.{RiseByPath, read_lists};

    ghost Value = { List (List ℕ × List ℤ) };

    ghost coded = { coded_list (coded× (coded_list coded_ℕ) (coded_list coded_ℤ)) };

    ghost view = { λ s. read_lists s.lists.items };

    ghost invariant = { λ s. RiseByPath (read_lists s.lists.items) };
}

impl Inputs {
    /// No lists: every path has the empty one.
    pub fn none(alloc: Global) -> Inputs
        ensures { result ≡ [] }
    {
        Inputs {
            lists: Vec::new(alloc),
        }
    }

    /// These lists, in any order; no path stands twice. They are sorted in place, so it takes no memory.
    pub fn of_lists(lists: Vec<(Path, Vec<i64>)>) -> Inputs
        requires { NoPathTwice (read_lists lists.items) }
        ensures { (p : List ℕ) → inputs_of result p ≡ inputs_of (read_lists lists.items) p }
    {
        let mut lists = lists;
        lists.sort_unstable_by(
            |a: &(Path, Vec<i64>), b: &(Path, Vec<i64>)| -> Ordering
                ensures { result ≡ slice_cmp nat_cmp a.now.0 b.now.0 }
            { a.0.compare(&b.0) },
        );
        Inputs { lists }
    }

    /// The path's list, found by halves; empty where there is none.
    pub fn of(&self, path: &Path) -> &[i64]
        ensures { result.now ≡ inputs_of self.now path.now }
    {
        let lists = self.lists.as_slice();
        match search(lists, path) {
            Ok(at) => &lists[at].1,
            Err(_) => &[],
        }
    }

    /// Equal inputs.
    pub fn copy(&self, alloc: Global) -> Result<Inputs, AllocError>
        ensures { IfOk result (λ s. s ≡ self.now) }
    {
        let lists = copies(alloc, &self.lists)?;
        Ok(Inputs { lists })
    }
}

// Where the list of the path stands, or where it would.
fn search(lists: &[(Path, Vec<i64>)], path: &Path) -> Result<usize, usize>
    requires { RiseByPath (read_lists lists.now) }
    ensures found { IfOk result (λ i. (i < length lists.now)
        × HoldsAt (λ (e : List ℕ × TheVec ℤ TheGlobal). e.1.items ≡ inputs_of (read_lists lists.now) path.now) lists.now i) }
    ensures absent { IfErr result (λ _. inputs_of (read_lists lists.now) path.now ≡ []) }
{
    lists.binary_search_by(
        |e: &(Path, Vec<i64>)| -> Ordering
            ensures { result ≡ slice_cmp nat_cmp e.now.0 path.entry.now }
        { e.0.compare(path) },
    )
}

// Equal lists, in order.
fn copies(alloc: Global, lists: &[(Path, Vec<i64>)]) -> Result<Vec<(Path, Vec<i64>)>, AllocError>
    ensures { IfOk result (λ v. read_lists v.items ≡ read_lists lists.now) }
{
    let mut all = Vec::new(alloc);
    for (path, numbers) in lists {
        let path = path.copy(alloc)?;
        all.push((path, Vec::from_slice(alloc, numbers)?))?;
    }
    Ok(all)
}
