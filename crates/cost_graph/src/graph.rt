ghost use Rattle.std.specs.Prelude.{◌≡◌, ℕ, ◌+◌, ◌<◌, IfOk, IfErr, MatchOption};
ghost use Rattle.std.specs.Ordering.{nat_cmp};
ghost use Rattle.std.specs.Cmp.Lexicographic.{slice_cmp};
ghost use Rattle.cost_graph.specs.Graph.{CostGraph, vertex_total, thread_total, thread_at, parents_at, children_at, first_vertex, last_vertex, vertex_priority, IsGraph, IsOwner, IsVertexAt};
ghost use Rattle.cost_graph.specs.View.{graph_of};

use crate::build::tables;
use priml_syntax::Path;
use smallvec::SmallVec;
use std::alloc::{AllocFailed, Global};
use std::cmp::Ordering;
use std::marker::Model;

/// A thread of a graph: its path, its priority and the number of its vertices, which is at least 1.
#[derive(Drop)]
pub struct Thread {
    pub path: Path,
    pub priority: u32,
    pub vertices: u32,
}

/// A finite graph of threads. Threads and vertices are numbered from 0, in the order of paths and then of the
/// vertices of a thread.
#[derive(Drop)]
pub struct Graph {
    threads: Vec<Thread>,
    parents: Vec<Vec<u32>>,
    // most have one child: up to 4 take no allocation
    children: Vec<SmallVec<u32, 4>>,
    firsts: Vec<u32>,
    owners: Vec<u32>,
}

impl Model for Graph {
    ghost use Rattle.cost_graph.specs.Graph.{CostGraph};

    ghost Value = { CostGraph };

    ghost use Rattle.cost_graph.specs.View.{view as view_of, IsKept};

    ghost view = { view_of };

    ghost invariant = { IsKept };
}

impl Graph {
    /// The graph of these threads, whose edges to each vertex come from the vertices of its list. A refusal is want of memory, and hands
    /// the lists back.
    pub fn of_parents(
        alloc: Global,
        threads: Vec<Thread>,
        parents: Vec<Vec<u32>>,
    ) -> Result<Graph, AllocFailed<(Vec<Thread>, Vec<Vec<u32>>)>>
        requires { IsGraph (graph_of threads.items parents.items) }
        ensures made { IfOk result (λ g. g ≡ graph_of threads.items parents.items) }
        ensures handed { IfErr result (λ e. e.value ≡ (threads, parents)) }
    {
        match tables(alloc, &threads, &parents) {
            Ok((children, firsts, owners)) => Ok(Graph {
                threads,
                parents,
                children,
                firsts,
                owners,
            }),
            Err(_) => Err(AllocFailed {
                value: (threads, parents),
            }),
        }
    }

    /// How many threads there are.
    pub fn thread_count(&self) -> u32
        ensures { result ≡ thread_total self.now }
    {
        self.threads.len() as u32
    }

    /// How many vertices there are.
    pub fn vertex_count(&self) -> u32
        ensures count { result ≡ vertex_total self.now }
        ensures kept { IsGraph self.now }
    {
        self.parents.len() as u32
    }

    /// The path of thread t.
    pub fn path_of(&self, t: u32) -> &Path
        requires { t < thread_total self.now }
        ensures { result.now ≡ (thread_at self.now t).path }
    {
        &self.threads[t as usize].path
    }

    /// The priority of thread t.
    pub fn priority_of(&self, t: u32) -> u32
        requires { t < thread_total self.now }
        ensures { result ≡ (thread_at self.now t).priority }
    {
        self.threads[t as usize].priority
    }

    /// How many vertices thread t has, at least 1.
    pub fn vertices_of(&self, t: u32) -> u32
        requires { t < thread_total self.now }
        ensures { result ≡ (thread_at self.now t).vertices }
    {
        self.threads[t as usize].vertices
    }

    /// The first vertex of thread t.
    pub fn first_of(&self, t: u32) -> u32
        requires { t < thread_total self.now }
        ensures { result ≡ first_vertex self.now t }
    {
        self.firsts[t as usize]
    }

    /// The last vertex of thread t.
    pub fn last_of(&self, t: u32) -> u32
        requires { t < thread_total self.now }
        ensures { result ≡ last_vertex self.now t }
    {
        self.firsts[t as usize] + (self.threads[t as usize].vertices - 1)
    }

    /// The thread of vertex v.
    pub fn thread_of(&self, v: u32) -> u32
        requires { v < vertex_total self.now }
        ensures { IsOwner self.now v result }
    {
        self.owners[v as usize]
    }

    /// The number of vertex v among the vertices of its thread.
    pub fn number_of(&self, v: u32) -> u32
        requires { v < vertex_total self.now }
        ensures { (t : ℕ) → IsOwner self.now v t → first_vertex self.now t + result ≡ v }
    {
        v - self.first_of(self.thread_of(v))
    }

    /// The priority of vertex v, which is its thread's.
    pub fn priority_of_vertex(&self, v: u32) -> u32
        requires { v < vertex_total self.now }
        ensures is { result ≡ vertex_priority self.now v }
        ensures owned { (t : ℕ) × (t < thread_total self.now) × (result ≡ (thread_at self.now t).priority) }
    {
        self.priority_of(self.thread_of(v))
    }

    /// The vertices with an edge to v, ascending.
    pub fn parents_of(&self, v: u32) -> &[u32]
        requires { v < vertex_total self.now }
        ensures { result.now ≡ parents_at self.now v }
    {
        self.parents[v as usize].as_slice()
    }

    /// The vertices to which u has an edge, ascending.
    pub fn children_of(&self, u: u32) -> &[u32]
        requires { u < vertex_total self.now }
        ensures { result.now ≡ children_at self.now u }
    {
        self.children[u as usize].as_slice()
    }

    /// The vertex with this number of the thread with this path; None where there is no such vertex.
    pub fn find(&self, path: &Path, number: u32) -> Option<u32>
        ensures { MatchOption result ((v : ℕ) → IsVertexAt self.now path.now number v → ⊥) (IsVertexAt self.now path.now number) }
    {
        let t = match self.search(path) {
            Ok(t) => t,
            Err(_) => return None,
        };
        if number < self.threads[t].vertices {
            Some(self.firsts[t] + number)
        } else {
            None
        }
    }

    // Where the thread of the path is.
    fn search(&self, path: &Path) -> Result<usize, usize>
        ensures found { IfOk result (λ t. (t < thread_total self.now) × ((thread_at self.now t).path ≡ path.now)) }
        ensures absent { IfErr result (λ _. (t : ℕ) → t < thread_total self.now → (thread_at self.now t).path ≡ path.now → ⊥) }
    {
        self.threads.binary_search_by(
            |t: &Thread| -> Ordering
                ensures { result ≡ slice_cmp nat_cmp t.now.path path.entry.now }
            { t.path.compare(path) },
        )
    }
}
