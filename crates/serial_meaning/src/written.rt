ghost use Rattle.std.specs.Prelude.{◌≡◌, ◌++◌, OnOk};
ghost use Rattle.std.specs.String.{string_bytes};
ghost use Rattle.std.specs.List.{flat_map, list_any};
ghost use Rattle.serial_meaning.specs.RunText.{is_written, written_text, out_line};

use crate::outcome::push_number;
use priml_syntax::Event;
use std::alloc::AllocError;

// Appends the line of the numbers that the events wrote, where there is one.
pub(crate) fn push_out(text: &mut String, events: &[Event]) -> Result<(), AllocError>
    ensures { OnOk result (string_bytes text.new ≡ string_bytes text.old ++ out_line events.now) }
{
    if !has_written(events) {
        return Ok(());
    }
    text.push_str("out")?;
    push_numbers(text, events)?;
    text.push_str("\n")
}

// Whether one of the events wrote a number.
fn has_written(events: &[Event]) -> bool
    ensures { result ≡ list_any is_written events.now }
{
    for event in events {
        if matches!(event, Event::Wrote(_)) {
            return true;
        }
    }
    false
}

// Appends each number that the events wrote, with a space before it.
fn push_numbers(text: &mut String, events: &[Event]) -> Result<(), AllocError>
    ensures { OnOk result (string_bytes text.new ≡ string_bytes text.old ++ flat_map written_text events.now) }
{
    for event in events {
        push_written(text, event)?;
    }
    Ok(())
}

// Appends the number that the event wrote, if it wrote one, with a space before it.
fn push_written(text: &mut String, event: &Event) -> Result<(), AllocError>
    ensures { OnOk result (string_bytes text.new ≡ string_bytes text.old ++ written_text event.now) }
{
    match event {
        Event::Wrote(number) => {
            text.push_str(" ")?;
            push_number(text, *number)
        }
        _ => Ok(()),
    }
}
