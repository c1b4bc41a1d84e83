//! The priorities and the arguments of a call.

ghost use Rattle.std.specs.Prelude.{◌≤◌, length, map};
ghost use Rattle.priml_syntax.specs.Read.{read_term};
ghost use Rattle.priml_syntax.specs.Limits.{most_in_scope};
ghost use Rattle.source_grammar.specs.RawRead.{read_expr};
ghost use Rattle.source_reader.specs.Faults.{prios_faults, terms_faults};
ghost use Rattle.source_reader.specs.Resolved.{prios_meant, terms_meant};
ghost use Rattle.source_reader.specs.Inside.Fits.{TermsFit};
ghost use Rattle.source_reader.specs.Inside.Gives.{IsMade};
ghost use Rattle.source_reader.specs.Inside.Known.{env_in};

use crate::faults::ResolveStop;
use crate::names::Names;
use crate::term::{expression, priority};
use priml_syntax::{Expr, Prio, push};
use source_grammar::raw::{Name, RawExpr};
use std::alloc::Global;

/// The priorities of these names, in order.
pub fn priorities(alloc: Global, names: &Names, list: &[Name]) -> Result<Vec<Prio>, ResolveStop>
    ensures { IsMade (prios_faults (env_in names.now) list.now) (prios_meant (env_in names.now) list.now) (λ v. v.items) result }
{
    let mut all = Vec::with_capacity(alloc, list.len())?;
    for name in list {
        let found = priority(names, name)?;
        push(&mut all, found)?;
    }
    Ok(all)
}

/// The expressions in order, their names resolved in this scope.
pub fn expressions(
    alloc: Global,
    names: &Names,
    scope: &[usize],
    list: &[RawExpr],
) -> Result<Vec<Expr>, ResolveStop>
    requires room { length scope.now ≤ most_in_scope }
    requires fits { TermsFit (map read_expr list.now) }
    ensures { IsMade (terms_faults (env_in names.now) (map read_expr list.now) scope.now)
        (terms_meant (env_in names.now) (map read_expr list.now) scope.now) (λ v. map read_term v.items) result }
{
    let mut all = Vec::with_capacity(alloc, list.len())?;
    for raw in list {
        let e = expression(alloc, names, scope, raw)?;
        push(&mut all, e)?;
    }
    Ok(all)
}
