ghost use Rattle.std.specs.Prelude.{◌≡◌, ◌<◌, length, MatchResult, IsTrue, ◌↔◌};
ghost use Rattle.priml_syntax.specs.Size.{type_nodes};
ghost use Rattle.priml_syntax.specs.Limits.{most_nodes};
ghost use Rattle.priml_syntax.specs.Tree.{pair};
ghost use Rattle.priml_syntax.specs.Read.{read_type, read_term};
ghost use Rattle.type_rules.specs.Typing.{HasType, InScope, operand, gives};
ghost use Rattle.type_rules.specs.Shared.{read_shared};
ghost use Rattle.type_rules.specs.Inside.Answers.{scope_of, TermStops};
ghost use Rattle.type_rules.specs.Inside.Helpers.{PairAnswer, FirstAnswer, SecondAnswer, LeftAnswer, RightAnswer, OperatorAnswer, TruthAnswer};

use crate::shared::{Shape, Shared};
use crate::{TypeFault, TypeKind, TypeStop};
use priml_syntax::{Expr, ExprForm, MOST_NODES, Op, Ty};
use std::alloc::Global;

pub fn type_of<'p>(
    alloc: Global,
    scope: &[Shared<'p>],
    expr: &'p Expr,
) -> Result<Shared<'p>, TypeStop>
    requires { InScope (length scope.now) (read_term expr.now) }
    ensures { MatchResult result (λ t. HasType (scope_of scope.now) (read_term expr.now) (read_shared t))
        (λ stop. TermStops (scope_of scope.now) (read_term expr.now) stop) }
{
    let at = expr.at;
    match &expr.form {
        ExprForm::Var(x) => Ok(scope[*x as usize].copy()?),
        ExprForm::Int(_) => Ok(Shared::Int),
        ExprForm::Bool(_) => Ok(Shared::Bool),
        ExprForm::Unit => Ok(Shared::Unit),
        ExprForm::Pair(a, b) => {
            let left = type_of(alloc, scope, a)?;
            let right = type_of(alloc, scope, b)?;
            paired(alloc, left, right, at)
        }
        ExprForm::Fst(a) => {
            let given = type_of(alloc, scope, a)?;
            first_of(given, at)
        }
        ExprForm::Snd(a) => {
            let given = type_of(alloc, scope, a)?;
            second_of(given, at)
        }
        ExprForm::Inl(sum, a) => {
            let given = type_of(alloc, scope, a)?;
            left_of(sum, given, at)
        }
        ExprForm::Inr(sum, a) => {
            let given = type_of(alloc, scope, a)?;
            right_of(sum, given, at)
        }
        ExprForm::Op(op, a, b) => {
            let one = type_of(alloc, scope, a)?;
            let other = type_of(alloc, scope, b)?;
            applied(*op, one, other, at)
        }
        ExprForm::Not(a) => {
            let given = type_of(alloc, scope, a)?;
            negated(given, at)
        }
    }
}

// The type of a pair, which has one node more than its parts.
fn paired<'p>(
    alloc: Global,
    left: Shared<'p>,
    right: Shared<'p>,
    at: u64,
) -> Result<Shared<'p>, TypeStop>
    ensures { PairAnswer (read_shared left.entry) (read_shared right.entry) at result }
{
    if is_wide(&left, &right) {
        Err(fault(TypeKind::Wide, at))
    } else {
        Ok(Shared::pair(alloc, left, right)?)
    }
}

// The first part of a pair's type.
fn first_of<'p>(t: Shared<'p>, at: u64) -> Result<Shared<'p>, TypeStop>
    ensures { FirstAnswer (read_shared t.entry) at result }
{
    match t.shape()? {
        Shape::Pair(left, _) => Ok(left),
        _ => Err(fault(TypeKind::Mismatch, at)),
    }
}

// The second part of a pair's type.
fn second_of<'p>(t: Shared<'p>, at: u64) -> Result<Shared<'p>, TypeStop>
    ensures { SecondAnswer (read_shared t.entry) at result }
{
    match t.shape()? {
        Shape::Pair(_, right) => Ok(right),
        _ => Err(fault(TypeKind::Mismatch, at)),
    }
}

// The written type, where it is a sum whose left part is the given type.
fn left_of<'p>(sum: &'p Ty, given: Shared<'p>, at: u64) -> Result<Shared<'p>, TypeStop>
    ensures { LeftAnswer (read_type sum.now) (read_shared given.entry) at result }
{
    match sum {
        Ty::Sum(left, _) if given.is_written(left) => Ok(Shared::written(sum)),
        _ => Err(fault(TypeKind::Mismatch, at)),
    }
}

// The written type, where it is a sum whose right part is the given type.
fn right_of<'p>(sum: &'p Ty, given: Shared<'p>, at: u64) -> Result<Shared<'p>, TypeStop>
    ensures { RightAnswer (read_type sum.now) (read_shared given.entry) at result }
{
    match sum {
        Ty::Sum(_, right) if given.is_written(right) => Ok(Shared::written(sum)),
        _ => Err(fault(TypeKind::Mismatch, at)),
    }
}

// What an operator gives, where both sides are what it takes.
fn applied<'p>(op: Op, one: Shared<'p>, other: Shared<'p>, at: u64) -> Result<Shared<'p>, TypeStop>
    ensures { OperatorAnswer op (read_shared one.entry) (read_shared other.entry) at result }
{
    let takes = operand_of(op);
    if !one.equals(&takes) {
        Err(fault(TypeKind::Mismatch, at))
    } else if !other.equals(&takes) {
        Err(fault(TypeKind::Mismatch, at))
    } else {
        Ok(result_of(op))
    }
}

fn negated<'p>(given: Shared<'p>, at: u64) -> Result<Shared<'p>, TypeStop>
    ensures { TruthAnswer (read_shared given.entry) at result }
{
    if !given.equals(&Shared::Bool) {
        return Err(fault(TypeKind::Mismatch, at));
    }
    Ok(Shared::Bool)
}

// Whether the pair of the two would be too large.
fn is_wide(left: &Shared<'_>, right: &Shared<'_>) -> bool
    ensures { IsTrue result ↔ (most_nodes < type_nodes (pair (read_shared left.now) (read_shared right.now))) }
{
    left.nodes().saturating_add(right.nodes()) >= MOST_NODES
}

fn operand_of<'p>(op: Op) -> Shared<'p>
    ensures { read_shared result ≡ operand op }
{
    match op {
        Op::And | Op::Or => Shared::Bool,
        _ => Shared::Int,
    }
}

fn result_of<'p>(op: Op) -> Shared<'p>
    ensures { read_shared result ≡ gives op }
{
    match op {
        Op::Add | Op::Sub | Op::Mul | Op::Div | Op::Rem => Shared::Int,
        Op::Less | Op::AtMost | Op::Equal | Op::And | Op::Or => Shared::Bool,
    }
}

pub fn fault(kind: TypeKind, at: u64) -> TypeStop
    ensures { result ≡ TypeStop.Fault (record { kind = kind; at = at }) }
{
    TypeStop::Fault(TypeFault { kind, at })
}
