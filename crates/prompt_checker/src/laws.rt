ghost use Rattle.prompt_checker.specs.Laws.{LinesAreRead, SchedulesAreJudged};

/// All lines are a schedule of the graph or have a first fault.
pub fn all_lines_are_read()
    ensures { LinesAreRead }
{}

/// Every schedule of vertices of a graph has a verdict.
pub fn every_schedule_is_judged()
    ensures { SchedulesAreJudged }
{}
