//! A tree to a program.

ghost use Rattle.std.specs.Prelude.{◌≡◌, ◌<◌, [], map, get_or, string_bytes, IsAscii, IfOk};
ghost use Rattle.std.specs.List.{All};
ghost use Rattle.indexmap.specs.IndexSet.{index_set_len};
ghost use Rattle.priml_syntax.specs.Read.{read_program};
ghost use Rattle.source_grammar.specs.RawRead.{read_raw};
ghost use Rattle.source_tokens.specs.Names.{name_bytes};
ghost use Rattle.source_reader.specs.Faults.{faults};
ghost use Rattle.source_reader.specs.Resolved.{resolved};
ghost use Rattle.source_reader.specs.Inside.Fits.{Fits};
ghost use Rattle.source_reader.specs.Inside.Gives.{IsMade};

use crate::declared::{declare_all, names_of};
use crate::faults::ResolveStop;
use crate::procedure::main_of;
use indexmap::IndexSet;
use priml_syntax::Program;
use source_grammar::raw::RawProgram;
use std::alloc::{AllocError, Global};

/// The program that a tree stands for, by the distinct names of its text.
pub fn resolve(
    alloc: Global,
    names: &IndexSet<Vec<u8>>,
    raw: &RawProgram,
) -> Result<Program, ResolveStop>
    requires fits { Fits (index_set_len names.now) (read_raw raw.now) }
    requires ascii { All IsAscii (name_bytes names.now) }
    ensures { IsMade (faults (read_raw raw.now)) (resolved (name_bytes names.now) (read_raw raw.now)) read_program result }
{
    let mut known = names_of(alloc, names.len(), &raw.decls)?;
    let declared = declare_all(alloc, &mut known, &raw.decls)?;
    let main = main_of(alloc, &known, &raw.main)?;
    let names = spelled(alloc, names, &declared.priorities)?;
    Ok(Program {
        names,
        pairs: declared.pairs,
        procs: declared.procs,
        main,
    })
}

// The spellings of these names.
fn spelled(
    alloc: Global,
    names: &IndexSet<Vec<u8>>,
    ids: &[usize],
) -> Result<Vec<String>, AllocError>
    requires known { All (λ id. id < index_set_len names.now) ids.now }
    requires ascii { All IsAscii (name_bytes names.now) }
    ensures { IfOk result (λ v. map string_bytes v.items ≡ map (λ id. get_or (name_bytes names.now) id []) ids.now) }
{
    let mut all = Vec::new(alloc);
    for id in ids {
        all.push(spelling(alloc, names, *id)?)?;
    }
    Ok(all)
}

fn spelling(alloc: Global, names: &IndexSet<Vec<u8>>, id: usize) -> Result<String, AllocError>
    requires known { id < index_set_len names.now }
    requires ascii { All IsAscii (name_bytes names.now) }
    ensures { IfOk result (λ s. string_bytes s ≡ get_or (name_bytes names.now) id []) }
{
    match str::from_utf8(&names[id]) {
        Ok(text) => Ok(String::from_str(alloc, text)?),
        Err(_) => unreachable!(),
    }
}
