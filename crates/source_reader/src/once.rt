//! Names that may be declared once, and so many of them.

ghost use Rattle.std.specs.Prelude.{◌≡◌, ◌≤◌, ◌++◌, ◌∷◌, [], length, OnOk};
ghost use Rattle.source_reader.specs.Faults.{again_faults};
ghost use Rattle.source_reader.specs.Inside.Gives.{Finds};

use crate::faults::{Fault, ResolveStop, What};
use crate::names::{bring, find};
use source_grammar::raw::Name;

/// Puts one name more behind those of its kind, of which there are at most so many.
pub fn once(known: &mut Vec<usize>, name: &Name, most: usize, what: What) -> Result<(), ResolveStop>
    ensures faults { Finds (again_faults name.now known.old.items most what) result }
    ensures names { OnOk result (known.new.items ≡ known.old.items ++ name.now.id ∷ []) }
    ensures few { OnOk result (length known.new.items ≤ most) }
{
    let Name { at, id } = *name;
    if find(known, id).is_some() {
        return Err(ResolveStop::Fault(Fault::TwiceNamed(at)));
    }
    if known.len() >= most {
        return Err(ResolveStop::Fault(Fault::TooMany(at, what)));
    }
    bring(known, id)?;
    Ok(())
}
