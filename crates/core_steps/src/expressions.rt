//! What an expression gives in a scope.

ghost use Rattle.std.specs.Prelude.{◌≡◌, Option, Some, map, slice_get, IfOk, IfSome, OnOk};
ghost use Rattle.std.specs.Option.{unwrap_or};
ghost use Rattle.priml_syntax.specs.Read.{read_value, read_term, read_outcome};
ghost use Rattle.priml_syntax.specs.Values.{Value', Outcome', returned, int_value, pair_value, left_value, right_value};
ghost use Rattle.core_steps.specs.Expressions.{result_of, results_of, gave, with_one, with_two, fst_value, snd_value, not_value, op_value};
ghost use Rattle.core_steps.specs.Results.{read_result};
ghost use Rattle.core_steps.specs.Inside.Results.{GiveNumbers, read_results, collected, with_last, one_with, two_with};

use crate::kinds::number;
use crate::numbers::{bool_outcome, on_bools, on_numbers};
use priml_syntax::{Expr, ExprForm, FaultKind, Op, Outcome, Value};
use std::alloc::{AllocError, Global};

/// What an expression gives: a value or a fault. Both sides of a pair and of an operator are evaluated, the left one first, and
/// the first fault decides. None comes where a value of a wrong kind is met; in a typable program none is.
#[cycle(evaluate)]
pub fn evaluate(alloc: Global, scope: &[Value], expr: &Expr) -> Result<Option<Outcome>, AllocError>
    ensures { IfOk result (λ r. read_result r ≡ result_of (map read_value scope.now) (read_term expr.now)) }
{
    match &expr.form {
        ExprForm::Var(x) => variable(alloc, scope, *x),
        ExprForm::Int(n) => Ok(Some(Outcome::Value(Value::Int(*n)))),
        ExprForm::Bool(b) => Ok(Some(Outcome::Value(Value::Bool(*b)))),
        ExprForm::Unit => Ok(Some(Outcome::Value(Value::Unit))),
        ExprForm::Pair(a, b) => {
            let left = evaluate(alloc, scope, a)?;
            let right = evaluate(alloc, scope, b)?;
            paired(alloc, left, right)
        }
        ExprForm::Fst(a) => Ok(first(evaluate(alloc, scope, a)?)),
        ExprForm::Snd(a) => Ok(second(evaluate(alloc, scope, a)?)),
        ExprForm::Inl(_, a) => {
            let inner = evaluate(alloc, scope, a)?;
            left(alloc, inner)
        }
        ExprForm::Inr(_, a) => {
            let inner = evaluate(alloc, scope, a)?;
            right(alloc, inner)
        }
        ExprForm::Op(op, a, b) => {
            if let Some((m, n)) = numbers_at(scope, a, b) {
                return Ok(on_numbers(*op, m, n));
            }
            let left = evaluate(alloc, scope, a)?;
            let right = evaluate(alloc, scope, b)?;
            Ok(operated(*op, left, right))
        }
        ExprForm::Not(a) => Ok(negated(evaluate(alloc, scope, a)?)),
    }
}

/// What several expressions give, each of which is evaluated: all values, or the first fault. None comes where a value of a
/// wrong kind is met.
pub(crate) fn evaluate_all(
    alloc: Global,
    scope: &[Value],
    exprs: &[Expr],
) -> Result<Option<Result<Vec<Value>, FaultKind>>, AllocError>
    ensures { IfOk result (λ r. read_results r ≡ results_of (map read_value scope.now) (map read_term exprs.now)) }
{
    let mut values = Vec::with_capacity(alloc, exprs.len() + 1)?;
    let mut fault = None;
    for expr in exprs {
        match evaluate(alloc, scope, expr)? {
            Some(outcome) => collect(&mut values, &mut fault, outcome)?,
            None => return Ok(None),
        }
    }
    match fault {
        Some(kind) => Ok(Some(Err(kind))),
        None => Ok(Some(Ok(values))),
    }
}

// Adds what one more expression gave.
fn collect(
    values: &mut Vec<Value>,
    fault: &mut Option<FaultKind>,
    outcome: Outcome,
) -> Result<(), AllocError>
    ensures { OnOk result (collected fault.new (map read_value values.new.items)
        ≡ with_last (collected fault.old (map read_value values.old.items)) (read_outcome outcome)) }
{
    match outcome {
        Outcome::Value(value) => values.push(value)?,
        Outcome::Fault(kind) => note(fault, kind),
    }
    Ok(())
}

// The first fault decides.
fn note(fault: &mut Option<FaultKind>, kind: FaultKind)
    ensures { fault.new ≡ Some (unwrap_or fault.old kind) }
{
    if fault.is_none() {
        *fault = Some(kind);
    }
}

// The numbers that two expressions are without being evaluated, where both are.
fn numbers_at(scope: &[Value], a: &Expr, b: &Expr) -> Option<(i64, i64)>
    ensures { IfSome result (λ x. GiveNumbers (map read_value scope.now) (read_term a.now) (read_term b.now) x.0 x.1) }
{
    match (number_at(scope, a), number_at(scope, b)) {
        (Some(m), Some(n)) => Some((m, n)),
        (Some(_), None) => None,
        (None, _) => None,
    }
}

// The number that an expression is, or that its variable holds; None where it must be evaluated.
fn number_at(scope: &[Value], expr: &Expr) -> Option<i64>
    ensures { IfSome result (λ n. result_of (map read_value scope.now) (read_term expr.now) ≡ Some (returned (int_value n))) }
{
    match &expr.form {
        ExprForm::Int(n) => Some(*n),
        ExprForm::Var(x) => held_number(scope, *x),
        _ => None,
    }
}

// The number that a variable holds.
fn held_number(scope: &[Value], x: u32) -> Option<i64>
    ensures { IfSome result (λ n. gave (slice_get (map read_value scope.now) x) ≡ Some (returned (int_value n))) }
{
    let place = x as usize;
    if place >= scope.len() {
        return None;
    }
    number(&scope[place])
}

// The value of a variable.
fn variable(alloc: Global, scope: &[Value], x: u32) -> Result<Option<Outcome>, AllocError>
    ensures { IfOk result (λ r. read_result r ≡ gave (slice_get (map read_value scope.now) x)) }
{
    let place = x as usize;
    if place >= scope.len() {
        return Ok(None);
    }
    let value = scope[place].copy(alloc)?;
    Ok(Some(Outcome::Value(value)))
}

// The value, or what came in its place.
fn one(a: Option<Outcome>) -> Result<Value, Option<Outcome>>
    ensures { (f : Value' → Option Outcome') → with_one (read_result a) f ≡ one_with f result }
{
    match a {
        Some(Outcome::Value(v)) => Ok(v),
        Some(Outcome::Fault(kind)) => Err(Some(Outcome::Fault(kind))),
        None => Err(None),
    }
}

// Both values, or what comes in their place.
fn two(a: Option<Outcome>, b: Option<Outcome>) -> Result<(Value, Value), Option<Outcome>>
    ensures { (f : Value' → Value' → Option Outcome') → with_two (read_result a) (read_result b) f ≡ two_with f result }
{
    match (a, b) {
        (Some(Outcome::Value(v)), Some(Outcome::Value(w))) => Ok((v, w)),
        (Some(Outcome::Value(_)), Some(Outcome::Fault(kind))) => Err(Some(Outcome::Fault(kind))),
        (Some(Outcome::Fault(kind)), Some(_)) => Err(Some(Outcome::Fault(kind))),
        (Some(_), None) => Err(None),
        (None, _) => Err(None),
    }
}

fn paired(
    alloc: Global,
    a: Option<Outcome>,
    b: Option<Outcome>,
) -> Result<Option<Outcome>, AllocError>
    ensures { IfOk result (λ r. read_result r ≡ with_two (read_result a) (read_result b) (λ v w. Some (returned (pair_value v w)))) }
{
    match two(a, b) {
        Ok((v, w)) => {
            let v = Box::new(alloc, v)?;
            let w = Box::new(alloc, w)?;
            Ok(Some(Outcome::Value(Value::Pair(v, w))))
        }
        Err(other) => Ok(other),
    }
}

fn left(alloc: Global, a: Option<Outcome>) -> Result<Option<Outcome>, AllocError>
    ensures { IfOk result (λ r. read_result r ≡ with_one (read_result a) (λ v. Some (returned (left_value v)))) }
{
    match one(a) {
        Ok(v) => Ok(Some(Outcome::Value(Value::Inl(Box::new(alloc, v)?)))),
        Err(other) => Ok(other),
    }
}

fn right(alloc: Global, a: Option<Outcome>) -> Result<Option<Outcome>, AllocError>
    ensures { IfOk result (λ r. read_result r ≡ with_one (read_result a) (λ v. Some (returned (right_value v)))) }
{
    match one(a) {
        Ok(v) => Ok(Some(Outcome::Value(Value::Inr(Box::new(alloc, v)?)))),
        Err(other) => Ok(other),
    }
}

fn first(a: Option<Outcome>) -> Option<Outcome>
    ensures { read_result result ≡ with_one (read_result a) fst_value }
{
    match one(a) {
        Ok(Value::Pair(v, _)) => Some(Outcome::Value(Box::into_inner(v))),
        Ok(_) => None,
        Err(other) => other,
    }
}

fn second(a: Option<Outcome>) -> Option<Outcome>
    ensures { read_result result ≡ with_one (read_result a) snd_value }
{
    match one(a) {
        Ok(Value::Pair(_, w)) => Some(Outcome::Value(Box::into_inner(w))),
        Ok(_) => None,
        Err(other) => other,
    }
}

fn negated(a: Option<Outcome>) -> Option<Outcome>
    ensures { read_result result ≡ with_one (read_result a) not_value }
{
    match one(a) {
        Ok(Value::Bool(b)) => Some(bool_outcome(!b)),
        Ok(_) => None,
        Err(other) => other,
    }
}

fn operated(op: Op, a: Option<Outcome>, b: Option<Outcome>) -> Option<Outcome>
    ensures { read_result result ≡ with_two (read_result a) (read_result b) (op_value op) }
{
    match two(a, b) {
        Ok((v, w)) => operate(op, &v, &w),
        Err(other) => other,
    }
}

// What an operator gives at two values; None where one is of a wrong kind.
fn operate(op: Op, v: &Value, w: &Value) -> Option<Outcome>
    ensures { read_result result ≡ op_value op (read_value v.now) (read_value w.now) }
{
    match (v, w) {
        (Value::Int(m), Value::Int(n)) => on_numbers(op, *m, *n),
        (Value::Bool(b), Value::Bool(c)) => on_bools(op, *b, *c),
        _ => None,
    }
}
