//! What names stand for: by a table for declared ones, and by the scope for variables.

ghost use Rattle.std.specs.Prelude.{◌≡◌, ◌<◌, ◌≤◌, ◌++◌, ◌∷◌, [], ℕ, None, get_or, length, IfOk, OnOk};
ghost use Rattle.priml_syntax.specs.Limits.{most_priority_variables};
ghost use Rattle.source_reader.specs.Names.{lookup};
ghost use Rattle.source_reader.specs.Inside.Narrow.{narrow};

use std::alloc::{AllocError, Global};

/// Declared names of one kind, in order, and a table that has at each name the place of its last declaration. A name is
/// its number among the distinct names of the text.
#[derive(Drop)]
pub struct Index {
    pub ids: Vec<usize>,
    pub places: Vec<Option<u32>>,
    ghost indexed: { (id : ℕ) → get_or places.items id None ≡ narrow (lookup id ids.items) },
}

/// The names of priorities and procedures where a block stands: what the program declares, and the priority variables of the
/// procedure, at most 8.
#[derive(Drop)]
pub struct Names {
    pub priorities: Index,
    pub vars: Vec<usize>,
    pub procedures: Index,
    ghost few: { length vars.items ≤ most_priority_variables },
}

impl Index {
    /// No declared names, of a text with so many distinct ones.
    pub fn new(alloc: Global, names: usize) -> Result<Index, AllocError>
        ensures ids { IfOk result (λ t. t.ids.items ≡ []) }
        ensures wide { IfOk result (λ t. length t.places.items ≡ names) }
    {
        let places = vec![in alloc; None; names]?;
        Ok(Index {
            ids: Vec::new(alloc),
            places,
        })
    }

    /// Puts one more name behind the declared ones. A place past the last value of u32 is kept as that value: so many names pass the limits
    /// of a program, and only whether they are known counts.
    pub fn push(&mut self, id: usize) -> Result<(), AllocError>
        requires { id < length self.old.places.items }
        ensures ids { OnOk result (self.new.ids.items ≡ self.old.ids.items ++ id ∷ []) }
        ensures wide { length self.new.places.items ≡ length self.old.places.items }
    {
        let place = self.ids.len().min(u32::MAX as usize) as u32;
        self.ids.push(id)?;
        self.places[id] = Some(place);
        Ok(())
    }

    /// The place of the last declaration of this name, 0 for the first of all.
    pub fn get(&self, id: usize) -> Option<u32>
        ensures { result ≡ narrow (lookup id self.now.ids.items) }
    {
        if id < self.places.len() {
            self.places[id]
        } else {
            None
        }
    }
}

/// The place in scope of the innermost variable of this name, 0 for the outermost variable.
#[tactic(auto, using(crate::proofs::Lookup::lookup_take))]
pub fn find(scope: &[usize], id: usize) -> Option<usize>
    ensures { result ≡ lookup id scope.now }
{
    let mut found = None;
    for (place, bound) in scope.iter().enumerate() {
        if *bound == id {
            found = Some(place);
        }
    }
    found
}

/// Puts the name behind those in scope.
pub fn bring(scope: &mut Vec<usize>, id: usize) -> Result<(), AllocError>
    ensures { OnOk result (scope.new.items ≡ scope.old.items ++ id ∷ []) }
{
    scope.push(id)?;
    Ok(())
}
