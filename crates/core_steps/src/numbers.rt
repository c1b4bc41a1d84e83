//! Operators on numbers and truth values.

ghost use Rattle.std.specs.Prelude.{◌≡◌, ℤ, SomeIff, FitsSigned};
ghost use Rattle.std.specs.Int.{w64};
ghost use Rattle.priml_syntax.specs.Read.{read_outcome};
ghost use Rattle.priml_syntax.specs.Values.{returned, bool_value};
ghost use Rattle.core_steps.specs.Expressions.{checked, divided, remainder, number_op, bool_op};
ghost use Rattle.core_steps.specs.Results.{read_result};

use priml_syntax::{FaultKind, Op, Outcome, Value};

/// What an operator gives at two numbers; None where it wants truth values.
pub(crate) fn on_numbers(op: Op, a: i64, b: i64) -> Option<Outcome>
    ensures { read_result result ≡ number_op op a b }
{
    match op {
        Op::Add => Some(within_range(a.checked_add(b))),
        Op::Sub => Some(within_range(a.checked_sub(b))),
        Op::Mul => Some(within_range(a.checked_mul(b))),
        Op::Div => Some(quotient(a, b)),
        Op::Rem => Some(rest(a, b)),
        Op::Less => Some(bool_outcome(a < b)),
        Op::AtMost => Some(bool_outcome(a <= b)),
        Op::Equal => Some(bool_outcome(a == b)),
        Op::And | Op::Or => None,
    }
}

/// What an operator gives at two truth values; None where it wants numbers.
pub(crate) fn on_bools(op: Op, a: bool, b: bool) -> Option<Outcome>
    ensures { read_result result ≡ bool_op op a b }
{
    match op {
        Op::And => Some(bool_outcome(a && b)),
        Op::Or => Some(bool_outcome(a || b)),
        _ => None,
    }
}

/// The outcome that is a truth value.
pub(crate) fn bool_outcome(b: bool) -> Outcome
    ensures { read_outcome result ≡ returned (bool_value b) }
{
    Outcome::Value(Value::Bool(b))
}

// The number, or Overflow where it was outside of the range.
fn within_range(number: Option<i64>) -> Outcome
    ensures { (z : ℤ) → SomeIff number (FitsSigned w64 z) z → read_outcome result ≡ checked z }
{
    match number {
        Some(n) => Outcome::Value(Value::Int(n)),
        None => Outcome::Fault(FaultKind::Overflow),
    }
}

fn quotient(a: i64, b: i64) -> Outcome
    ensures { read_outcome result ≡ divided a b }
{
    if b == 0 {
        return Outcome::Fault(FaultKind::Zero);
    }
    match a.checked_div(b) {
        Some(n) => Outcome::Value(Value::Int(n)),
        None => Outcome::Fault(FaultKind::Overflow),
    }
}

fn rest(a: i64, b: i64) -> Outcome
    ensures { read_outcome result ≡ remainder a b }
{
    if b == 0 {
        return Outcome::Fault(FaultKind::Zero);
    }
    match a.checked_rem(b) {
        Some(n) => Outcome::Value(Value::Int(n)),
        None => Outcome::Fault(FaultKind::Overflow),
    }
}
