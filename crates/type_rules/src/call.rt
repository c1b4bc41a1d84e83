ghost use Rattle.std.specs.Prelude.{◌≡◌, ◌<◌, map, length, MatchResult, IsTrue, ◌↔◌};
ghost use Rattle.priml_syntax.specs.Tree.{call};
ghost use Rattle.priml_syntax.specs.Read.{read_type, read_term};
ghost use Rattle.type_rules.specs.Typing.{HaveTypes, AllInScope, subst_type};
ghost use Rattle.type_rules.specs.Shared.{read_shared};
ghost use Rattle.type_rules.specs.Inside.Answers.{setting, scope_of, ActAnswer, TermsStop};
ghost use Rattle.type_rules.specs.Inside.Calls.{GivenAnswer};

use crate::shared::{Shared, subst_prio};
use crate::term::{fault, type_of};
use crate::{TypeKind, TypeStop};
use constraint_proof::Known;
use priml_syntax::{Expr, Prio, Proc, Ty, push};
use std::alloc::Global;

pub fn type_of_call<'p>(
    alloc: Global,
    known: &Known,
    procs: &'p [Proc],
    scope: &[Shared<'p>],
    r: Prio,
    at: u64,
    f: u32,
    ps: &'p [Prio],
    es: &'p [Expr],
) -> Result<Shared<'p>, TypeStop>
    requires known_call { f < length procs.now }
    requires in_scope { AllInScope (length scope.now) (map read_term es.now) }
    ensures { ActAnswer (setting known.now procs.now) (scope_of scope.now) r at (call f ps.now (map read_term es.now)) result }
{
    let types = types_of(alloc, scope, es)?;
    let sig = &procs[f as usize];
    if ps.len() != sig.vars as usize {
        return Err(fault(TypeKind::Arity, at));
    }
    let params = sig.params.as_slice();
    if es.len() != params.len() {
        return Err(fault(TypeKind::Arity, at));
    }
    if !are_instances(types.as_slice(), ps, params) {
        return Err(fault(TypeKind::Mismatch, at));
    }
    if !same_prio(subst_prio(ps, sig.own), r) {
        return Err(fault(TypeKind::WrongPriority, at));
    }
    if !all_hold(known, ps, sig.given.as_slice()) {
        return Err(fault(TypeKind::Constraint, at));
    }
    Ok(Shared::Written(ps, &sig.result))
}

fn types_of<'p>(
    alloc: Global,
    scope: &[Shared<'p>],
    es: &'p [Expr],
) -> Result<Vec<Shared<'p>>, TypeStop>
    requires { AllInScope (length scope.now) (map read_term es.now) }
    ensures { MatchResult result (λ ts. HaveTypes (scope_of scope.now) (map read_term es.now) (map read_shared ts.items))
        (TermsStop (scope_of scope.now) (map read_term es.now)) }
{
    let mut types = Vec::with_capacity(alloc, es.len())?;
    for e in es {
        let t = type_of(alloc, scope, e)?;
        push(&mut types, t)?;
    }
    Ok(types)
}

// Whether the types are those of the parameters under the priorities.
fn are_instances(types: &[Shared<'_>], ps: &[Prio], params: &[Ty]) -> bool
    ensures { IsTrue result ↔ (map read_shared types.now ≡ map (subst_type ps.now) (map read_type params.now)) }
{
    if types.len() != params.len() {
        return false;
    }
    for i in 0..types.len() {
        if !types[i].is(ps, &params[i]) {
            return false;
        }
    }
    true
}

fn same_prio(p: Prio, q: Prio) -> bool
    ensures { IsTrue result ↔ (p ≡ q) }
{
    p == q
}

// Whether each constraint holds under the priorities.
fn all_hold(known: &Known, ps: &[Prio], given: &[(Prio, Prio)]) -> bool
    ensures { GivenAnswer known.now.pairs known.now.given ps.now given.now result }
{
    for constraint in given {
        let (p, q) = *constraint;
        if !known.entails(subst_prio(ps, p), subst_prio(ps, q)) {
            return false;
        }
    }
    true
}
