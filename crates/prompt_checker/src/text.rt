ghost use Rattle.std.specs.Prelude.{◌≡◌, ◌++◌, ◌<◌, OnOk, IfOk};
ghost use Rattle.std.specs.String.{string_bytes};
ghost use Rattle.std.specs.List.{All, flat_map};
ghost use Rattle.cost_graph.specs.Graph.{vertex_total};
ghost use Rattle.prompt_checker.specs.Read.{steps_of};
ghost use Rattle.prompt_checker.specs.Text.{spaced, vertices_text, step_line, schedule_text};

use crate::schedule::Schedule;
use cost_graph::{Graph, push_vertex};
use std::alloc::{AllocError, Global};
use std::fmt::Write;

/// The text of a schedule: one line for each step, its vertices with one space between.
pub fn plan_text(alloc: Global, graph: &Graph, schedule: &Schedule) -> Result<Vec<u8>, AllocError>
    requires { All (λ s. All (λ v. v < vertex_total graph.now) s) (steps_of schedule.now) }
    ensures { IfOk result (λ v. v.items ≡ schedule_text graph.now (steps_of schedule.now)) }
{
    let mut text = String::new(alloc);
    for i in 0..schedule.steps.len() {
        push_step(&mut text, graph, &schedule.steps[i])?;
    }
    Ok(text.into_bytes())
}

// Appends the line of a step.
fn push_step(text: &mut String, graph: &Graph, step: &Vec<u32>) -> Result<(), AllocError>
    requires { All (λ v. v < vertex_total graph.now) step.now.items }
    ensures { OnOk result (string_bytes text.new ≡ string_bytes text.old ++ step_line graph.now step.now.items) }
{
    push_vertices(text, graph, step)?;
    writeln!(text)
}

// Appends the vertices with one space between.
fn push_vertices(text: &mut String, graph: &Graph, vertices: &[u32]) -> Result<(), AllocError>
    requires { All (λ v. v < vertex_total graph.now) vertices.now }
    ensures { OnOk result (string_bytes text.new ≡ string_bytes text.old ++ vertices_text graph.now vertices.now) }
{
    if vertices.is_empty() {
        return Ok(());
    }
    push_vertex(text, graph, vertices[0])?;
    push_spaced(text, graph, &vertices[1..])
}

// Appends each vertex with a space before it.
fn push_spaced(text: &mut String, graph: &Graph, vertices: &[u32]) -> Result<(), AllocError>
    requires { All (λ v. v < vertex_total graph.now) vertices.now }
    ensures { OnOk result (string_bytes text.new ≡ string_bytes text.old ++ flat_map (spaced graph.now) vertices.now) }
{
    for vertex in vertices {
        write!(text, " ")?;
        push_vertex(text, graph, *vertex)?;
    }
    Ok(())
}
