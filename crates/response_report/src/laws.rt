ghost use Rattle.response_report.specs.Laws.{RowsAreOne, SomeRows};

/// Rows are one, as a law: two lists that are both the rows of a graph under a prompt schedule are equal.
pub fn rows_are_one()
    ensures { RowsAreOne }
{}

/// There are rows, as a law: each graph that is well formed over a lawful order has rows under each prompt schedule.
pub fn some_rows()
    ensures { SomeRows }
{}
