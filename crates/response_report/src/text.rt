ghost use Rattle.std.specs.Prelude.{◌≡◌, ◌++◌, ◌∷◌, [], ◌<◌, OnOk, IfOk, length, codes};
ghost use Rattle.std.specs.String.{string_bytes};
ghost use Rattle.std.specs.Fmt.{decimal};
ghost use Rattle.std.specs.List.{All};
ghost use Rattle.cost_graph.specs.declared.graph.Thread.{Thread as TheThread};
ghost use Rattle.cost_graph.specs.Graph.{thread_total};
ghost use Rattle.response_report.specs.declared.row.Row.{Row as TheRow};
ghost use Rattle.response_report.specs.Text.{row_line, response_lines};

use crate::row::Row;
use cost_graph::Graph;
use priml_syntax::push_path;
use priority_order::Order;
use std::alloc::{AllocError, Global};
use std::fmt::Write;

/// The lines of a report: the number of cores, that of the schedule's steps, and then one line for each row.
pub fn response_text(
    alloc: Global,
    graph: &Graph,
    order: &Order,
    cores: u32,
    steps: u64,
    rows: &[Row],
) -> Result<Vec<u8>, AllocError>
    requires threads { All (λ (r : TheRow). r.thread < thread_total graph.now) rows.now }
    requires priorities { All (λ (t : TheThread). t.priority < length order.now.names) graph.now.threads }
    ensures { IfOk result (λ v. v.items ≡ response_lines graph.now order.now.names cores steps rows.now) }
{
    let mut text = String::new(alloc);
    push_head(&mut text, cores, steps)?;
    for row in rows {
        push_row(&mut text, graph, order, row)?;
    }
    Ok(text.into_bytes())
}

// Appends the first two lines.
fn push_head(text: &mut String, cores: u32, steps: u64) -> Result<(), AllocError>
    ensures { OnOk result (string_bytes text.new ≡ string_bytes text.old ++ (codes "cores " ++ decimal cores ++ 10 ∷ [])
        ++ (codes "steps " ++ decimal steps ++ 10 ∷ [])) }
{
    writeln!(text, "cores {cores}")?;
    writeln!(text, "steps {steps}")
}

// Appends the line of a row.
fn push_row(text: &mut String, graph: &Graph, order: &Order, row: &Row) -> Result<(), AllocError>
    requires thread { row.now.thread < thread_total graph.now }
    requires priorities { All (λ (t : TheThread). t.priority < length order.now.names) graph.now.threads }
    ensures { OnOk result (string_bytes text.new ≡ string_bytes text.old ++ row_line graph.now order.now.names row.now) }
{
    write!(text, "response ")?;
    push_path(text, graph.path_of(row.thread))?;
    push_numbers(text, order.name(graph.priority_of(row.thread)), row)
}

// Appends what stands after a row's path.
fn push_numbers(text: &mut String, name: &str, row: &Row) -> Result<(), AllocError>
    ensures { OnOk result (string_bytes text.new ≡ string_bytes text.old
        ++ (codes " " ++ name.now ++ codes " time " ++ decimal row.now.response ++ codes " work " ++ decimal row.now.work
        ++ codes " span " ++ decimal row.now.span ++ codes " bound " ++ decimal row.now.bound ++ 10 ∷ [])) }
{
    write!(text, " {name} time {} work {}", row.response, row.work)?;
    writeln!(text, " span {} bound {}", row.span, row.bound)
}
