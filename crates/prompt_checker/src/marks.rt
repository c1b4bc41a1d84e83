//! What a line shows by the vertices that ran before it.
ghost use Rattle.std.specs.Prelude.{◌≡◌, ℕ, ◌<◌, ◌++◌, List, length, None};
ghost use Rattle.std.specs.List.{All, Contains};
ghost use Rattle.cost_graph.specs.Graph.{vertex_total};
ghost use Rattle.prompt_checker.specs.Inside.Watch.{IsFound, AreStood, StandsAgain, IsEarly, IsBroken, IsLeastOf};

use crate::schedule::FlawKind;
use cost_graph::Frontier;

/// What is wrong with a line as to its width, vertices that stand twice and vertices that are not ready; None where
/// nothing is. `stood` has the marks of the vertices that ran before, and then those of the line too.
pub(crate) fn broken(
    frontier: &Frontier,
    cores: u32,
    stood: &mut Vec<bool>,
    line: &Vec<u32>,
) -> Option<FlawKind>
    requires stood { AreStood stood.old.items frontier.now.ran }
    requires covers { length stood.old.items ≡ vertex_total frontier.now.graph }
    requires vertices { All (λ v. v < vertex_total frontier.now.graph) line.now.items }
    ensures flaw { IsBroken frontier.now.graph cores frontier.now.ran line.now.items result }
    ensures stood { result ≡ None → AreStood stood.new.items (frontier.now.ran ++ line.now.items) }
    ensures covers { length stood.new.items ≡ length stood.old.items }
{
    if line.is_empty() {
        return Some(FlawKind::EmptyStep);
    }
    if line.len() > cores as usize {
        return Some(FlawKind::TooWide);
    }
    if let Some(vertex) = first_again(stood, line) {
        return Some(FlawKind::Twice(vertex));
    }
    if let Some(vertex) = first_early(frontier, line) {
        return Some(FlawKind::NotReady(vertex));
    }
    None
}

// The first vertex of the line that is marked, or stands earlier in the line. Marks those before it.
fn first_again(stood: &mut Vec<bool>, line: &Vec<u32>) -> Option<u32>
    requires { All (λ v. v < length stood.old.items) line.now.items }
    ensures first { (done : List ℕ) → AreStood stood.old.items done → IsFound line.now.items (StandsAgain done line.now.items) result }
    ensures marked { result ≡ None → (done : List ℕ) → AreStood stood.old.items done → AreStood stood.new.items (done ++ line.now.items) }
    ensures covers { length stood.new.items ≡ length stood.old.items }
{
    for vertex in line {
        if stood[*vertex as usize] {
            return Some(*vertex);
        }
        stood[*vertex as usize] = true;
    }
    None
}

// The first vertex of the line of which a parent has not run.
fn first_early(frontier: &Frontier, line: &Vec<u32>) -> Option<u32>
    requires { All (λ v. v < vertex_total frontier.now.graph) line.now.items }
    ensures { IsFound line.now.items (IsEarly frontier.now.graph frontier.now.ran) result }
{
    for vertex in line {
        if !frontier.parents_have_run(*vertex) {
            return Some(*vertex);
        }
    }
    None
}

/// The least vertex that has not run, of so many.
pub(crate) fn first_missing(frontier: &Frontier, count: u32) -> Option<u32>
    requires { count ≡ vertex_total frontier.now.graph }
    ensures { IsLeastOf (λ v. (v < vertex_total frontier.now.graph) × (Contains frontier.now.ran v → ⊥)) result }
{
    for vertex in 0..count {
        if !frontier.has_run(vertex) {
            return Some(vertex);
        }
    }
    None
}
