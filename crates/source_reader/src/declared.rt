//! The declarations of a program.

ghost use Rattle.std.specs.Prelude.{◌≡◌, ◌++◌, ◌∷◌, [], length, map, IfOk, OnOk};
ghost use Rattle.priml_syntax.specs.Read.{read_pair, read_proc};
ghost use Rattle.priml_syntax.specs.Limits.{most_pairs};
ghost use Rattle.source_grammar.specs.RawRead.{read_decl};
ghost use Rattle.source_reader.specs.declared.faults.What.TheVariants as what;
ghost use Rattle.source_reader.specs.Names.{number_of, priorities, procedures, env_of};
ghost use Rattle.source_reader.specs.Faults.{room_faults, prio_faults, decls_faults, declared_faults};
ghost use Rattle.source_reader.specs.Resolved.{pairs_meant, procs_meant};
ghost use Rattle.source_reader.specs.Inside.Fits.{DeclsFit, BodiesFit};
ghost use Rattle.source_reader.specs.Inside.Gives.{IsMade, Finds, plain};
ghost use Rattle.source_reader.specs.Inside.Known.{env_in};
ghost use Rattle.source_reader.specs.Inside.Narrow.{narrowed};

use crate::faults::{Fault, ResolveStop, What};
use crate::names::{Index, Names};
use crate::once::once;
use crate::procedure::procedure_of;
use priml_syntax::{MOST_PAIRS, MOST_PRIORITIES, MOST_PROCEDURES, Proc, push};
use source_grammar::raw::{Name, RawDecl};
use std::alloc::{AllocError, Global};

/// What a program declares so far: the names of its priorities and of its procedures, its pairs, each with the offset of its
/// word `order`, and its procedures.
#[derive(Drop)]
pub struct Declared {
    pub priorities: Vec<usize>,
    pub called: Vec<usize>,
    pub pairs: Vec<(u64, u32, u32)>,
    pub procs: Vec<Proc>,
}

/// The names that are declared anywhere in the text, outside procedures, of so many distinct names.
pub fn names_of(alloc: Global, names: usize, decls: &[RawDecl]) -> Result<Names, AllocError>
    requires { DeclsFit names (map read_decl decls.now) }
    ensures { IfOk result (λ n. env_in n ≡ narrowed (env_of (map read_decl decls.now))) }
{
    let mut priorities = Index::new(alloc, names)?;
    let mut procedures = Index::new(alloc, names)?;
    for decl in decls {
        know(&mut priorities, &mut procedures, decl)?;
    }
    Ok(Names {
        priorities,
        vars: Vec::new(alloc),
        procedures,
    })
}

// Knows the name of one declaration more.
fn know(known: &mut Index, called: &mut Index, decl: &RawDecl) -> Result<(), AllocError>
    requires fits { DeclsFit (length known.old.places.items) (read_decl decl.now ∷ []) }
    requires wide { length called.old.places.items ≡ length known.old.places.items }
    ensures priorities { OnOk result (known.new.ids.items ≡ known.old.ids.items ++ priorities (read_decl decl.now ∷ [])) }
    ensures procedures { OnOk result (called.new.ids.items ≡ called.old.ids.items ++ procedures (read_decl decl.now ∷ [])) }
    ensures wide_known { length known.new.places.items ≡ length known.old.places.items }
    ensures wide_called { length called.new.places.items ≡ length called.old.places.items }
{
    match decl {
        RawDecl::Priority(name) => known.push(name.id),
        RawDecl::Order(..) => Ok(()),
        RawDecl::Proc(f) => called.push(f.name.id),
    }
}

/// The declarations, where the names outside procedures are known.
pub fn declare_all(
    alloc: Global,
    names: &mut Names,
    decls: &[RawDecl],
) -> Result<Declared, ResolveStop>
    requires none { names.old.vars.items ≡ [] }
    requires fits { BodiesFit (map read_decl decls.now) }
    ensures faults { Finds (decls_faults (env_in names.old) (map read_decl decls.now) []) result }
    ensures names { OnOk result (env_in names.new ≡ env_in names.old) }
    ensures priorities { IfOk result (λ d. d.priorities.items ≡ priorities (map read_decl decls.now)) }
    ensures pairs { IfOk result (λ d. map read_pair d.pairs.items ≡ pairs_meant (env_in names.old).prios (map read_decl decls.now)) }
    ensures procs { IfOk result (λ d. map read_proc d.procs.items ≡ procs_meant (env_in names.old) (map read_decl decls.now)) }
{
    let mut all = Declared {
        priorities: Vec::new(alloc),
        called: Vec::new(alloc),
        pairs: Vec::new(alloc),
        procs: Vec::new(alloc),
    };
    for decl in decls {
        declare(alloc, names, &mut all, decl)?;
    }
    Ok(all)
}

// One more declaration.
fn declare(
    alloc: Global,
    names: &mut Names,
    all: &mut Declared,
    decl: &RawDecl,
) -> Result<(), ResolveStop>
    requires none { names.old.vars.items ≡ [] }
    requires fits { BodiesFit (read_decl decl.now ∷ []) }
    ensures faults { Finds (declared_faults (env_in names.old) (read_decl decl.now) all.old.priorities.items
        (length all.old.pairs.items) all.old.called.items) result }
    ensures names { OnOk result (env_in names.new ≡ env_in names.old) }
    ensures priorities { OnOk result (all.new.priorities.items ≡ all.old.priorities.items ++ priorities (read_decl decl.now ∷ [])) }
    ensures called { OnOk result (all.new.called.items ≡ all.old.called.items ++ procedures (read_decl decl.now ∷ [])) }
    ensures pairs { OnOk result (map read_pair all.new.pairs.items ≡ map read_pair all.old.pairs.items
        ++ pairs_meant (env_in names.old).prios (read_decl decl.now ∷ [])) }
    ensures procs { OnOk result (map read_proc all.new.procs.items ≡ map read_proc all.old.procs.items
        ++ procs_meant (env_in names.old) (read_decl decl.now ∷ [])) }
{
    match decl {
        RawDecl::Priority(name) => once(
            &mut all.priorities,
            name,
            MOST_PRIORITIES,
            What::Priorities,
        ),
        RawDecl::Order(at, low, high) => pair(names, &mut all.pairs, *at, low, high),
        RawDecl::Proc(f) => {
            once(&mut all.called, &f.name, MOST_PROCEDURES, What::Procedures)?;
            let proc = procedure_of(alloc, names, f)?;
            Ok(push(&mut all.procs, proc)?)
        }
    }
}

// One pair more.
fn pair(
    names: &Names,
    pairs: &mut Vec<(u64, u32, u32)>,
    at: u64,
    low: &Name,
    high: &Name,
) -> Result<(), ResolveStop>
    requires none { names.now.vars.items ≡ [] }
    ensures faults { Finds (room_faults at (length pairs.old.items) most_pairs what.Pairs
        ++ (prio_faults (env_in names.now) low.now ++ prio_faults (env_in names.now) high.now)) result }
    ensures pairs { OnOk result (pairs.new.items ≡ pairs.old.items
        ++ (at, number_of ((env_in names.now).prios low.now.id), number_of ((env_in names.now).prios high.now.id)) ∷ []) }
{
    if pairs.len() >= MOST_PAIRS {
        return Err(ResolveStop::Fault(Fault::TooMany(at, What::Pairs)));
    }
    let low = known(names, low)?;
    let high = known(names, high)?;
    push(pairs, (at, low, high))?;
    Ok(())
}

// The number of a declared priority, outside procedures.
fn known(names: &Names, name: &Name) -> Result<u32, ResolveStop>
    requires none { names.now.vars.items ≡ [] }
    ensures { IsMade (prio_faults (env_in names.now) name.now) (number_of ((env_in names.now).prios name.now.id)) plain result }
{
    match names.priorities.get(name.id) {
        Some(number) => Ok(number),
        None => Err(ResolveStop::Fault(Fault::UnknownName(name.at))),
    }
}
