//! The layers on cost graphs: the graph of a run, its plan, and the rows of a report.
ghost use Rattle.std.specs.Prelude.{◌≡◌, ◌↔◌, ◌<◌, ◌≤◌, ◌++◌, ℕ, List, [], unwrap_or, length, map, IfOk, IfErr};
ghost use Rattle.std.specs.List.{All};
ghost use Rattle.priml_io.specs.Sections.{bytes_of};
ghost use Rattle.priml_syntax.specs.Read.{read_record};
ghost use Rattle.priml_syntax.specs.Tree.{Tree};
ghost use Rattle.priml_syntax.specs.declared.record.Record.{Record as TheRecord};
ghost use Rattle.type_rules.specs.Stops.{IsOrderOf};
ghost use Rattle.cost_graph.specs.Graph.{vertex_total, IsAcyclic, IsWellFormed, IsVertexBelow};
ghost use Rattle.cost_graph.specs.Records.{parts_in, AreFinished, IsAcyclicGraph, IsWellFormedGraph};
ghost use Rattle.prompt_checker.specs.Read.{steps_of};
ghost use Rattle.prompt_checker.specs.Schedule.{IsPrompt};
ghost use Rattle.serial_meaning.specs.RunText.{run_lines};
ghost use Rattle.response_report.specs.Response.{AreRows};
ghost use Rattle.response_report.specs.Text.{response_lines};
ghost use Rattle.priml.specs.Commands.{Reports};
ghost use Rattle.priml.specs.Layers as the;
ghost use Rattle.priml.specs.Inside.Prefixes.{IsSound};
ghost use Rattle.priml.specs.Inside.Reply.{Hands, Stops, Replies};

use crate::layers::{done, section};
use crate::refusal::{Stop, flaw_refusal, report_too_large, schedule_stop};
use cost_graph::{Graph, GraphStop};
use priml_syntax::Records;
use priority_order::Order;
use prompt_checker::{Schedule, Verdict, judge, read_schedule};
use prompt_planner::plan as the_plan;
use response_report::{Row, response_text, rows as the_rows};
use serial_meaning::run_text;
use std::alloc::{AllocError, Global};

/// The cost graph of the records.
pub fn graph(alloc: Global, records: &Records) -> Result<Graph, Stop>
    requires { AreFinished (parts_in records.now) }
    ensures graph { Hands (the.graph (map read_record records.now)) (λ g. g) result }
    ensures acyclic { IfOk result (λ g. IsAcyclicGraph (parts_in records.now) ↔ IsAcyclic g) }
    ensures well_formed { IfOk result (λ g. (pairs : List (ℕ × ℕ)) → IsWellFormedGraph pairs (parts_in records.now) ↔ IsWellFormed g pairs) }
{
    match Graph::of_records(alloc, records) {
        Ok(graph) => Ok(graph),
        Err(_) => Err(Stop::OutOfMemory),
    }
}

/// The canonical plan of the graph on so many cores.
pub fn plan(alloc: Global, graph: &Graph, order: &Order, cores: u32) -> Result<Schedule, Stop>
    requires sound { IsSound graph.now order.now }
    requires cores { 1 ≤ cores }
    ensures plan { Hands (the.plan order.now.pairs (length order.now.names) graph.now cores) steps_of result }
    ensures within { IfOk result (λ s. All (λ step. All (λ v. v < vertex_total graph.now) step) (steps_of s)) }
{
    match the_plan(alloc, graph, order, cores) {
        Ok(schedule) => Ok(schedule),
        Err(_) => Err(Stop::OutOfMemory),
    }
}

/// The schedule of the section.
pub fn schedule(alloc: Global, graph: &Graph, text: Option<&[u8]>) -> Result<Schedule, Stop>
    ensures schedule { Hands (the.schedule graph.now (unwrap_or (bytes_of text.entry) [])) steps_of result }
    ensures within { IfOk result (λ s. All (λ step. All (λ v. v < vertex_total graph.now) step) (steps_of s)) }
{
    match read_schedule(alloc, section(text), graph) {
        Ok(schedule) => Ok(schedule),
        Err(fault) => Err(schedule_stop(fault)),
    }
}

/// The graph again, where the schedule is prompt on so many cores.
pub fn prompt(
    alloc: Global,
    graph: Graph,
    order: &Order,
    cores: u32,
    schedule: &Schedule,
) -> Result<Graph, Stop>
    requires sound { IsSound graph order.now }
    requires cores { 1 ≤ cores }
    requires within { All (λ step. All (λ v. v < vertex_total graph) step) (steps_of schedule.now) }
    ensures prompt { Hands (the.prompt order.now.pairs graph cores (steps_of schedule.now)) (λ _. tt) result }
    ensures same { IfOk result (λ g. g ≡ graph) }
{
    match judge(alloc, &graph, order, cores, schedule) {
        Ok(Verdict::Prompt) => Ok(graph),
        Ok(Verdict::Flaw(flaw)) => Err(Stop::Refused(flaw_refusal(graph, flaw))),
        Err(_) => Err(Stop::OutOfMemory),
    }
}

/// The rows of a prompt schedule on so many cores, where the report is not too large.
pub fn rows(
    alloc: Global,
    graph: &Graph,
    order: &Order,
    cores: u32,
    schedule: &Schedule,
) -> Result<Vec<Row>, Stop>
    requires sound { IsSound graph.now order.now }
    requires prompt { IsPrompt graph.now (IsVertexBelow graph.now order.now.pairs) cores (steps_of schedule.now) }
    requires some { 1 ≤ cores }
    requires few { cores ≤ 1024 }
    ensures small { IfOk result (λ _. (the.small graph.now).makes tt) }
    ensures rows { IfOk result (λ r. AreRows graph.now order.now.pairs cores (steps_of schedule.now) r.items) }
    ensures large { IfErr result (Stops (the.small graph.now)) }
{
    match the_rows(alloc, graph, order, cores, schedule) {
        Ok(rows) => Ok(rows),
        Err(GraphStop::TooLarge) => Err(Stop::Refused(report_too_large())),
        Err(GraphStop::OutOfMemory) => Err(Stop::OutOfMemory),
    }
}

/// The report on a prompt schedule: the run, and the rows.
pub fn report(
    alloc: Global,
    order: &Order,
    records: &Records,
    graph: &Graph,
    cores: u32,
    schedule: &Schedule,
) -> Result<Vec<u8>, Stop>
    requires declared { All (λ (r : TheRecord). r.prio < length order.now.names) records.now }
    requires sound { IsSound graph.now order.now }
    requires prompt { IsPrompt graph.now (IsVertexBelow graph.now order.now.pairs) cores (steps_of schedule.now) }
    requires some { 1 ≤ cores }
    requires few { cores ≤ 1024 }
    ensures { (p : Tree) → IsOrderOf p order.now → Replies (Reports p (map read_record records.now) graph.now cores (steps_of schedule.now)) result }
{
    let rows = rows(alloc, graph, order, cores, schedule)?;
    done(report_text(alloc, order, records, graph, cores, schedule, &rows))
}

// The text of a report.
fn report_text(
    alloc: Global,
    order: &Order,
    records: &Records,
    graph: &Graph,
    cores: u32,
    schedule: &Schedule,
    rows: &[Row],
) -> Result<Vec<u8>, AllocError>
    requires declared { All (λ (r : TheRecord). r.prio < length order.now.names) records.now }
    requires sound { IsSound graph.now order.now }
    requires rows { AreRows graph.now order.now.pairs cores (steps_of schedule.now) rows.now }
    ensures { IfOk result (λ v. v.items ≡ run_lines order.now.names (map read_record records.now)
        ++ response_lines graph.now order.now.names cores (length (steps_of schedule.now)) rows.now) }
{
    let mut text = run_text(alloc, records, order)?;
    let steps = schedule.steps.as_slice();
    let lines = response_text(alloc, graph, order, cores, steps.len() as u64, rows)?;
    text.extend_from_slice(&lines)?;
    Ok(text)
}
