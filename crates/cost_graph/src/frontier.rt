//! What has run of a graph, and what is ready.
ghost use Rattle.std.specs.Prelude.{◌≡◌, ℕ, ◌+◌, ◌<◌, ◌≤◌, ◌↔◌, ◌++◌, [], OnOk, OnErr, IfOk, IsTrue, vec_len, vec_capacity};
ghost use Rattle.std.specs.List.{All, Contains};
ghost use Rattle.cost_graph.specs.Graph.{vertex_total, Edge};
ghost use Rattle.cost_graph.specs.Marks.{IsReady, BecomesReady};
ghost use Rattle.cost_graph.specs.Frontier.{Progress};

use crate::graph::Graph;
use crate::marks::{are_marked, run_step};
use std::alloc::{AllocError, Global};
use std::marker::Model;

/// How far the running of a graph has come: the vertices that have run, each after its parents.
#[derive(Drop)]
pub struct Frontier<'a> {
    graph: &'a Graph,
    // in the order in which they ran
    ran: Vec<u32>,
    // which vertices have run
    marks: Vec<bool>,
    // of each vertex how many of its parents, from the front, are known to have run
    seen: Vec<usize>,
}

impl<'a> Model for Frontier<'a> {
    ghost use Rattle.cost_graph.specs.Frontier.{Progress, IsWatched};

    ghost Value = { Progress };

    ghost view = { λ f. record { graph = f.graph.now; ran = f.ran.items } };

    ghost invariant = { λ f. IsWatched f.graph.now f.marks.items f.seen.items f.ran.items };
}

impl<'a> Frontier<'a> {
    /// Before the first step, when no vertex has run.
    pub fn start(alloc: Global, graph: &'a Graph) -> Result<Frontier<'a>, AllocError>
        ensures { IfOk result (λ f. f ≡ record { graph = graph.now; ran = [] }) }
    {
        let count = graph.vertex_count() as usize;
        let marks = vec![in alloc; false; count]?;
        let seen = vec![in alloc; 0usize; count]?;
        Ok(Frontier {
            graph,
            ran: Vec::new(alloc),
            marks,
            seen,
        })
    }

    /// Whether the vertex has run.
    pub fn has_run(&self, vertex: u32) -> bool
        requires { vertex < vertex_total self.now.graph }
        ensures { IsTrue result ↔ Contains self.now.ran vertex }
    {
        self.marks[vertex as usize]
    }

    /// Whether each vertex with an edge to the vertex has run.
    pub fn parents_have_run(&self, vertex: u32) -> bool
        requires { vertex < vertex_total self.now.graph }
        ensures { IsTrue result ↔ ((u : ℕ) → Edge self.now.graph u vertex → Contains self.now.ran u) }
    {
        let _count = self.graph.vertex_count();
        are_marked(&self.marks, self.graph.parents_of(vertex))
    }

    /// The vertices that are ready: those that have not run, and whose parents have.
    pub fn ready(&self, alloc: Global) -> Result<Vec<u32>, AllocError>
        ensures within { IfOk result (λ r. All (λ v. v < vertex_total self.now.graph) r.items) }
        ensures are { IfOk result (λ r. (v : ℕ) → Contains r.items v ↔ IsReady self.now.graph self.now.ran v) }
    {
        let mut found = Vec::new(alloc);
        for vertex in 0..self.graph.vertex_count() {
            if self.is_ready(vertex) {
                found.push(vertex)?;
            }
        }
        Ok(found)
    }

    // Whether the vertex is ready.
    fn is_ready(&self, vertex: u32) -> bool
        requires { vertex < vertex_total self.now.graph }
        ensures { IsTrue result ↔ IsReady self.now.graph self.now.ran vertex }
    {
        !self.has_run(vertex) && self.parents_have_run(vertex)
    }

    /// Runs these vertices, which are ready, and answers those that become ready by it. Where memory is wanting none of
    /// them has run.
    pub fn step(&mut self, alloc: Global, vertices: &Vec<u32>) -> Result<Vec<u32>, AllocError>
        requires { (v : ℕ) → Contains vertices.now.items v → IsReady self.old.graph self.old.ran v }
        ensures graph { self.new.graph ≡ self.old.graph }
        ensures ran { OnOk result (self.new.ran ≡ self.old.ran ++ vertices.now.items) }
        ensures freed { IfOk result (λ f. (v : ℕ) → Contains f.items v ↔ BecomesReady self.old.graph self.old.ran (self.old.ran ++ vertices.now.items) v) }
        ensures within { IfOk result (λ f. All (λ v. v < vertex_total self.old.graph) f.items) }
        ensures kept { OnErr result (self.new ≡ self.old) }
    {
        self.ran.reserve(vertices.len())?;
        let freed = run_step(alloc, self.graph, &mut self.marks, &mut self.seen, vertices)?;
        note(&mut self.ran, vertices);
        Ok(freed)
    }
}

// Adds the vertices, for which there is room.
fn note(ran: &mut Vec<u32>, vertices: &Vec<u32>)
    requires { vec_len ran.old + vec_len vertices.now ≤ vec_capacity ran.old }
    ensures { ran.new.items ≡ ran.old.items ++ vertices.now.items }
{
    for vertex in vertices {
        ran.push(*vertex).unwrap();
    }
}
