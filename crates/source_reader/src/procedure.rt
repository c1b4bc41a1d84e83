//! Procedures and the main procedure with their names resolved.

ghost use Rattle.std.specs.Prelude.{◌≡◌, ◌≤◌, ◌++◌, ◌∷◌, [], length, map, OnOk, IfOk};
ghost use Rattle.priml_syntax.specs.Read.{read_type, read_proc};
ghost use Rattle.priml_syntax.specs.Limits.{most_priority_variables, most_parameters};
ghost use Rattle.source_grammar.specs.RawRead.{read_param, read_main};
ghost use Rattle.source_grammar.specs.RawRead.{read_proc as read_raw_proc};
ghost use Rattle.source_reader.specs.Names.{ids, param_ids};
ghost use Rattle.source_reader.specs.Faults.{vars_faults, givens_faults, params_faults, procedure_faults, main_faults, given_faults, inside_faults};
ghost use Rattle.source_reader.specs.Resolved.{given_meant, param_meant, proc_meant, main_meant, inside_meant};
ghost use Rattle.source_reader.specs.Inside.Fits.{CodeFits};
ghost use Rattle.source_reader.specs.Inside.Gives.{IsMade, Finds};
ghost use Rattle.source_reader.specs.Inside.Known.{env_in};

use crate::block::block_of;
use crate::faults::{Fault, ResolveStop, What};
use crate::names::Names;
use crate::once::once;
use crate::term::{priority, written};
use priml_syntax::{
    MOST_CONSTRAINTS, MOST_PARAMETERS, MOST_PRIORITY_VARIABLES, Prio, Proc, Ty, push,
};
use source_grammar::raw::{Name, RawMain, RawParam, RawProc};
use std::alloc::Global;

/// The main procedure, its names resolved.
pub fn main_of(alloc: Global, names: &Names, raw: &RawMain) -> Result<Proc, ResolveStop>
    requires none { names.now.vars.items ≡ [] }
    requires fits { CodeFits (read_main raw.now).body }
    ensures { IsMade (main_faults (env_in names.now) (read_main raw.now)) (main_meant (env_in names.now) (read_main raw.now)) read_proc result }
{
    let own = priority(names, &raw.own)?;
    let result = written(alloc, names, &raw.result)?;
    let mut scope = Vec::new(alloc);
    let body = block_of(alloc, names, &mut scope, &raw.body)?;
    Ok(Proc {
        at: raw.at,
        vars: 0,
        given: Vec::new(alloc),
        params: Vec::new(alloc),
        own,
        result,
        body,
    })
}

/// The procedure, its names resolved. Its priority variables hide declared priorities in it, and are gone behind it.
pub fn procedure_of(alloc: Global, names: &mut Names, raw: &RawProc) -> Result<Proc, ResolveStop>
    requires none { names.old.vars.items ≡ [] }
    requires fits { CodeFits (read_raw_proc raw.now).routine.body }
    ensures gives { IsMade (procedure_faults (env_in names.old) (read_raw_proc raw.now))
        (proc_meant (env_in names.old) (read_raw_proc raw.now)) read_proc result }
    ensures names { OnOk result (env_in names.new ≡ env_in names.old) }
{
    names.vars = variables(alloc, &raw.vars)?;
    let proc = inside(alloc, names, raw)?;
    names.vars = Vec::new(alloc);
    Ok(proc)
}

// The procedure where its priority variables are known.
fn inside(alloc: Global, names: &Names, raw: &RawProc) -> Result<Proc, ResolveStop>
    requires vars { names.now.vars.items ≡ ids raw.now.vars.items }
    requires fits { CodeFits (read_raw_proc raw.now).routine.body }
    ensures { IsMade (inside_faults (env_in names.now) (read_raw_proc raw.now)) (inside_meant (env_in names.now) (read_raw_proc raw.now)) read_proc result }
{
    let given = constraints(alloc, names, &raw.given)?;
    let params = parameters(alloc, names, &raw.params)?;
    let own = priority(names, &raw.own)?;
    let result = written(alloc, names, &raw.result)?;
    let mut scope = params.0;
    let body = block_of(alloc, names, &mut scope, &raw.body)?;
    Ok(Proc {
        at: raw.at,
        vars: raw.vars.len() as u32,
        given,
        params: params.1,
        own,
        result,
        body,
    })
}

// The names of priority variables, each of which is declared once.
fn variables(alloc: Global, list: &[Name]) -> Result<Vec<usize>, ResolveStop>
    ensures gives { IsMade (vars_faults list.now []) (ids list.now) (λ v. v.items) result }
    ensures few { IfOk result (λ v. length v.items ≤ most_priority_variables) }
{
    let mut vars = Vec::new(alloc);
    for name in list {
        once(&mut vars, name, MOST_PRIORITY_VARIABLES, What::PrioVars)?;
    }
    Ok(vars)
}

// The constraints, at most 16.
fn constraints(
    alloc: Global,
    names: &Names,
    list: &[(Name, Name)],
) -> Result<Vec<(Prio, Prio)>, ResolveStop>
    ensures { IsMade (givens_faults (env_in names.now) list.now 0) (map (given_meant (env_in names.now)) list.now) (λ v. v.items) result }
{
    let mut all = Vec::new(alloc);
    for (low, high) in list {
        constrain(names, &mut all, low, high)?;
    }
    Ok(all)
}

// One constraint more.
fn constrain(
    names: &Names,
    all: &mut Vec<(Prio, Prio)>,
    low: &Name,
    high: &Name,
) -> Result<(), ResolveStop>
    ensures faults { Finds (given_faults (env_in names.now) (low.now, high.now) (length all.old.items)) result }
    ensures made { OnOk result (all.new.items ≡ all.old.items ++ given_meant (env_in names.now) (low.now, high.now) ∷ []) }
{
    let first = priority(names, low)?;
    if all.len() >= MOST_CONSTRAINTS {
        return Err(ResolveStop::Fault(Fault::TooMany(low.at, What::Constraints)));
    }
    let second = priority(names, high)?;
    push(all, (first, second))?;
    Ok(())
}

// The names of the parameters, which are the outermost variables in scope, and their types.
fn parameters(
    alloc: Global,
    names: &Names,
    list: &[RawParam],
) -> Result<(Vec<usize>, Vec<Ty>), ResolveStop>
    ensures faults { Finds (params_faults (env_in names.now) (map read_param list.now) []) result }
    ensures scope { IfOk result (λ p. p.0.items ≡ param_ids (map read_param list.now)) }
    ensures types { IfOk result (λ p. map read_type p.1.items ≡ map (param_meant (env_in names.now)) (map read_param list.now)) }
    ensures few { IfOk result (λ p. length p.0.items ≤ most_parameters) }
{
    let mut scope = Vec::new(alloc);
    let mut types = Vec::new(alloc);
    for param in list {
        once(&mut scope, &param.name, MOST_PARAMETERS, What::Parameters)?;
        let ty = written(alloc, names, &param.ty)?;
        push(&mut types, ty)?;
    }
    Ok((scope, types))
}
