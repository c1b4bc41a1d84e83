ghost use Rattle.inputs_text.specs.Inputs.{LinesAreRead};

/// All lines are inputs or have a first fault.
pub fn all_lines_are_read()
    ensures { LinesAreRead }
{}
