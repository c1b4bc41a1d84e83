//! Types and expressions with their names resolved.

ghost use Rattle.std.specs.Prelude.{◌≡◌, ◌≤◌, ◌-◌, ◌^◌, length, min};
ghost use Rattle.priml_syntax.specs.Read.{read_type, read_term, read_form};
ghost use Rattle.priml_syntax.specs.Limits.{most_in_scope};
ghost use Rattle.source_grammar.specs.RawRead.{read_ty, read_written, read_expr};
ghost use Rattle.source_grammar.specs.RawRead.{read_form as read_raw_form};
ghost use Rattle.source_reader.specs.Names.{number_of, place_of, prio_of};
ghost use Rattle.source_reader.specs.Faults.{raw_nodes, prio_faults, proc_faults, var_faults, type_faults, written_faults, term_faults};
ghost use Rattle.source_reader.specs.Resolved.{type_meant, term_meant};
ghost use Rattle.source_reader.specs.Inside.Fits.{TermFits};
ghost use Rattle.source_reader.specs.Inside.Gives.{IsMade, plain};
ghost use Rattle.source_reader.specs.Inside.Known.{env_in};

use crate::faults::{Fault, Made, ResolveStop, What};
use crate::names::{Names, find};
use priml_syntax::{Expr, ExprForm, MOST_NODES, Prio, Ty, boxed};
use source_grammar::raw::{Name, RawExpr, RawForm, RawTy, Written};
use std::alloc::Global;

/// The variable of the name at this offset.
#[tactic(auto, using(crate::proofs::Lookup::lookup_within))]
pub fn variable(scope: &[usize], at: u64, id: usize) -> Made<u32>
    requires { length scope.now ≤ most_in_scope }
    ensures { IsMade (var_faults at id scope.now) (place_of id scope.now) plain result }
{
    match find(scope, id) {
        Some(place) => Ok(place as u32),
        None => Err(ResolveStop::Fault(Fault::UnknownName(at))),
    }
}

/// The priority of this name: a variable of the procedure, or a declared one.
#[tactic(auto, using(crate::proofs::Lookup::lookup_within))]
pub fn priority(names: &Names, name: &Name) -> Made<Prio>
    ensures { IsMade (prio_faults (env_in names.now) name.now) (prio_of (env_in names.now) name.now.id) plain result }
{
    match find(&names.vars, name.id) {
        Some(variable) => Ok(Prio::Var(variable as u32)),
        None => match names.priorities.get(name.id) {
            Some(declared) => Ok(Prio::Const(declared)),
            None => Err(ResolveStop::Fault(Fault::UnknownName(name.at))),
        },
    }
}

/// The number of the procedure of this name.
pub fn procedure(names: &Names, name: &Name) -> Made<u32>
    ensures { IsMade (proc_faults (env_in names.now) name.now) (number_of ((env_in names.now).procs name.now.id)) plain result }
{
    match names.procedures.get(name.id) {
        Some(number) => Ok(number),
        None => Err(ResolveStop::Fault(Fault::UnknownName(name.at))),
    }
}

/// The type as it is written, of at most 16 nodes.
pub fn written(alloc: Global, names: &Names, raw: &Written) -> Made<Ty>
    ensures { IsMade (written_faults (env_in names.now) (read_written raw.now)) (type_meant (env_in names.now) (read_ty raw.now.ty)) read_type result }
{
    if nodes(&raw.ty) > MOST_NODES {
        return Err(ResolveStop::Fault(Fault::TooMany(raw.at, What::TypeNodes)));
    }
    type_of(alloc, names, &raw.ty)
}

// The number of nodes; the last value of u64 where there are more.
fn nodes(raw: &RawTy) -> u64
    ensures { result ≡ min (raw_nodes (read_ty raw.now)) (2 ^ 64 - 1) }
{
    match raw {
        RawTy::Unit | RawTy::Bool | RawTy::Int => 1,
        RawTy::Pair(a, b) | RawTy::Sum(a, b) => nodes(a).saturating_add(nodes(b)).saturating_add(1),
        RawTy::Thread(_, a) => nodes(a).saturating_add(1),
    }
}

// The type, its priorities resolved.
#[cycle(types)]
fn type_of(alloc: Global, names: &Names, raw: &RawTy) -> Made<Ty>
    ensures { IsMade (type_faults (env_in names.now) (read_ty raw.now)) (type_meant (env_in names.now) (read_ty raw.now)) read_type result }
{
    match raw {
        RawTy::Unit => Ok(Ty::Unit),
        RawTy::Bool => Ok(Ty::Bool),
        RawTy::Int => Ok(Ty::Int),
        RawTy::Pair(a, b) => {
            let a = boxed_type(alloc, names, a)?;
            let b = boxed_type(alloc, names, b)?;
            Ok(Ty::Pair(a, b))
        }
        RawTy::Sum(a, b) => {
            let a = boxed_type(alloc, names, a)?;
            let b = boxed_type(alloc, names, b)?;
            Ok(Ty::Sum(a, b))
        }
        RawTy::Thread(own, a) => {
            let own = priority(names, own)?;
            let a = boxed_type(alloc, names, a)?;
            Ok(Ty::Thread(own, a))
        }
    }
}

#[cycle(types)]
fn boxed_type(alloc: Global, names: &Names, raw: &RawTy) -> Made<Box<Ty>>
    ensures { IsMade (type_faults (env_in names.now) (read_ty raw.now)) (type_meant (env_in names.now) (read_ty raw.now)) (λ t. read_type t.value) result }
{
    let ty = type_of(alloc, names, raw)?;
    Ok(boxed(alloc, ty)?)
}

/// The expression, its names resolved in this scope.
#[cycle(terms)]
pub fn expression(alloc: Global, names: &Names, scope: &[usize], raw: &RawExpr) -> Made<Expr>
    requires room { length scope.now ≤ most_in_scope }
    requires fits { TermFits (read_expr raw.now) }
    ensures { IsMade (term_faults (env_in names.now) (read_expr raw.now) scope.now)
        (term_meant (env_in names.now) (read_expr raw.now) scope.now) read_term result }
{
    let form = form_of(alloc, names, scope, raw.at, &raw.form)?;
    Ok(Expr { at: raw.at, form })
}

#[cycle(terms)]
fn boxed_term(alloc: Global, names: &Names, scope: &[usize], raw: &RawExpr) -> Made<Box<Expr>>
    requires room { length scope.now ≤ most_in_scope }
    requires fits { TermFits (read_expr raw.now) }
    ensures { IsMade (term_faults (env_in names.now) (read_expr raw.now) scope.now)
        (term_meant (env_in names.now) (read_expr raw.now) scope.now) (λ e. read_term e.value) result }
{
    let e = expression(alloc, names, scope, raw)?;
    Ok(boxed(alloc, e)?)
}

// The form of an expression at this offset.
#[cycle(terms)]
fn form_of(alloc: Global, names: &Names, scope: &[usize], at: u64, raw: &RawForm) -> Made<ExprForm>
    requires room { length scope.now ≤ most_in_scope }
    requires fits { TermFits (read_raw_form raw.now at) }
    ensures { IsMade (term_faults (env_in names.now) (read_raw_form raw.now at) scope.now)
        (term_meant (env_in names.now) (read_raw_form raw.now at) scope.now) (λ f. read_form f at) result }
{
    match raw {
        RawForm::Var(id) => Ok(ExprForm::Var(variable(scope, at, *id)?)),
        RawForm::Int(n) => Ok(ExprForm::Int(*n as i64)),
        RawForm::Bool(b) => Ok(ExprForm::Bool(*b)),
        RawForm::Unit => Ok(ExprForm::Unit),
        RawForm::Pair(both) => {
            let a = boxed_term(alloc, names, scope, &both.first)?;
            let b = boxed_term(alloc, names, scope, &both.second)?;
            Ok(ExprForm::Pair(a, b))
        }
        RawForm::Fst(a) => Ok(ExprForm::Fst(boxed_term(alloc, names, scope, a)?)),
        RawForm::Snd(a) => Ok(ExprForm::Snd(boxed_term(alloc, names, scope, a)?)),
        RawForm::Inl(injection) => {
            let ty = written(alloc, names, &injection.sum)?;
            let a = boxed_term(alloc, names, scope, &injection.value)?;
            Ok(ExprForm::Inl(ty, a))
        }
        RawForm::Inr(injection) => {
            let ty = written(alloc, names, &injection.sum)?;
            let a = boxed_term(alloc, names, scope, &injection.value)?;
            Ok(ExprForm::Inr(ty, a))
        }
        RawForm::Op(op, both) => {
            let a = boxed_term(alloc, names, scope, &both.first)?;
            let b = boxed_term(alloc, names, scope, &both.second)?;
            Ok(ExprForm::Op(*op, a, b))
        }
        RawForm::Not(a) => Ok(ExprForm::Not(boxed_term(alloc, names, scope, a)?)),
    }
}
