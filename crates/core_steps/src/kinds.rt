//! What a value is: a number, a truth value, or a value of a sum.

ghost use Rattle.std.specs.Prelude.{◌≡◌};
ghost use Rattle.priml_syntax.specs.Read.{read_value};
ghost use Rattle.core_steps.specs.Inside.Locals.{number_in, bool_in, side_in, IsSide};

use priml_syntax::Value;

pub(crate) fn number(value: &Value) -> Option<i64>
    ensures { result ≡ number_in (read_value value.now) }
{
    match value {
        Value::Int(n) => Some(*n),
        _ => None,
    }
}

pub(crate) fn boolean(value: &Value) -> Option<bool>
    ensures { result ≡ bool_in (read_value value.now) }
{
    match value {
        Value::Bool(b) => Some(*b),
        _ => None,
    }
}

// A value of a sum, by its side.
pub(crate) enum Sided {
    Left(Value),
    Right(Value),
    Wrong,
}

pub(crate) fn side(value: Value) -> Sided
    ensures { IsSide (side_in (read_value value)) result }
{
    match value {
        Value::Inl(inner) => Sided::Left(Box::into_inner(inner)),
        Value::Inr(inner) => Sided::Right(Box::into_inner(inner)),
        _ => Sided::Wrong,
    }
}
