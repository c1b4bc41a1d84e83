ghost use Rattle.std.specs.Prelude.{◌≡◌, ℕ, ◌+◌, ◌<◌, length, get_or, IfOk, nat_eq};
ghost use Rattle.std.specs.List.{All, Contains, IsDistinct, concat};
ghost use Rattle.cost_graph.specs.Graph.{vertex_total};
ghost use Rattle.prompt_checker.specs.Read.{steps_of};
ghost use Rattle.response_report.specs.Inside.Places.{ArePlaces, IsRelease};

use cost_graph::Graph;
use prompt_checker::Schedule;
use std::alloc::{AllocError, Global};

/// The step of each vertex, counted from 1, where no vertex stands twice.
pub(crate) fn places_of(
    alloc: Global,
    graph: &Graph,
    schedule: &Schedule,
) -> Result<Vec<usize>, AllocError>
    requires once { IsDistinct nat_eq (concat (steps_of schedule.now)) }
    requires within { (v : ℕ) → Contains (concat (steps_of schedule.now)) v → v < vertex_total graph.now }
    ensures long { IfOk result (λ p. length p.items ≡ vertex_total graph.now) }
    ensures are { IfOk result (λ p. ArePlaces (steps_of schedule.now) p.items) }
{
    let count = graph.vertex_count() as usize;
    let mut places = vec![in alloc; 0usize; count]?;
    for i in 0..schedule.steps.len() {
        note(&mut places, &schedule.steps[i], i + 1);
    }
    Ok(places)
}

// Gives each vertex of the step the number.
fn note(places: &mut Vec<usize>, step: &Vec<u32>, number: usize)
    requires { All (λ v. v < length places.old.items) step.now.items }
    ensures long { length places.new.items ≡ length places.old.items }
    ensures here { (v : ℕ) → Contains step.now.items v → get_or places.new.items v 0 ≡ number }
    ensures kept { (v : ℕ) → (Contains step.now.items v → ⊥) → get_or places.new.items v 0 ≡ get_or places.old.items v 0 }
{
    for vertex in step {
        places[*vertex as usize] = number;
    }
}

/// The greatest of the numbers of the vertices, and 0 for none.
pub(crate) fn release(places: &Vec<usize>, vertices: &[u32]) -> usize
    requires { All (λ v. v < length places.now.items) vertices.now }
    ensures { IsRelease places.now.items vertices.now result }
{
    let mut best = 0usize;
    for vertex in vertices {
        best = best.max(places[*vertex as usize]);
    }
    best
}
