ghost use Rattle.std.specs.Prelude.{◌≡◌, ◌++◌, codes, OnOk};
ghost use Rattle.std.specs.String.{string_bytes};
ghost use Rattle.std.specs.Fmt.{signed_decimal};
ghost use Rattle.priml_syntax.specs.Read.{read_value, read_outcome};
ghost use Rattle.priml_syntax.specs.Text.{path_text};
ghost use Rattle.serial_meaning.specs.RunText.{value_text, fault_text, outcome_text};

use itoa::Buffer;
use priml_syntax::{FaultKind, Outcome, Path, Value, push_path};
use std::alloc::AllocError;

// Appends how a thread ended.
pub(crate) fn push_outcome(text: &mut String, outcome: &Outcome) -> Result<(), AllocError>
    ensures { OnOk result (string_bytes text.new ≡ string_bytes text.old ++ outcome_text (read_outcome outcome.now)) }
{
    match outcome {
        Outcome::Value(value) => {
            text.push_str("value ")?;
            push_value(text, value)
        }
        Outcome::Fault(fault) => {
            text.push_str("fault ")?;
            push_fault(text, *fault)
        }
    }
}

// Appends why a thread ended without a value.
fn push_fault(text: &mut String, fault: FaultKind) -> Result<(), AllocError>
    ensures { OnOk result (string_bytes text.new ≡ string_bytes text.old ++ fault_text fault) }
{
    match fault {
        FaultKind::Overflow => text.push_str("overflow"),
        FaultKind::Zero => text.push_str("zero"),
        FaultKind::Depth => text.push_str("depth"),
    }
}

/// Appends the text of a value. The only error is want of memory.
#[cycle(push)]
pub fn push_value(text: &mut String, value: &Value) -> Result<(), AllocError>
    ensures { OnOk result (string_bytes text.new ≡ string_bytes text.old ++ value_text (read_value value.now)) }
{
    match value {
        Value::Unit => text.push_str("()"),
        Value::Bool(true) => text.push_str("true"),
        Value::Bool(false) => text.push_str("false"),
        Value::Int(n) => push_number(text, *n),
        Value::Pair(a, b) => {
            push_behind(text, "(", a)?;
            push_behind(text, ", ", b)?;
            text.push_str(")")
        }
        Value::Inl(a) => {
            push_behind(text, "inl(", a)?;
            text.push_str(")")
        }
        Value::Inr(a) => {
            push_behind(text, "inr(", a)?;
            text.push_str(")")
        }
        Value::Thread(path, _prio) => push_name(text, path),
    }
}

// Appends a number.
pub(crate) fn push_number(text: &mut String, number: i64) -> Result<(), AllocError>
    ensures { OnOk result (string_bytes text.new ≡ string_bytes text.old ++ signed_decimal number) }
{
    let mut buffer = Buffer::new();
    text.push_str(buffer.format(number))
}

// Appends a value behind what opens it.
#[cycle(push)]
fn push_behind(text: &mut String, opening: &str, value: &Value) -> Result<(), AllocError>
    ensures { OnOk result (string_bytes text.new ≡ string_bytes text.old ++ (opening.now ++ value_text (read_value value.now))) }
{
    text.push_str(opening)?;
    push_value(text, value)
}

// Appends the value that names a thread.
fn push_name(text: &mut String, path: &Path) -> Result<(), AllocError>
    ensures { OnOk result (string_bytes text.new ≡ string_bytes text.old ++ (codes "thread(" ++ path_text path.now ++ codes ")")) }
{
    text.push_str("thread(")?;
    push_path(text, path)?;
    text.push_str(")")
}
