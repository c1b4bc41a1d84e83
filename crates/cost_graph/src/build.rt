ghost use Rattle.std.specs.Prelude.{◌≡◌, ℕ, ◌+◌, ◌<◌, ◌++◌, ◌∷◌, ◌^◌, length, get_or, [], List, take, replicate, cond, nat_eq, IfOk, OnOk};
ghost use Rattle.std.specs.List.{All, sum_by, list_any};
ghost use Rattle.std.specs.List.Sorted.{IsStrictlyIncreasing};
ghost use Rattle.cost_graph.specs.declared.graph.Thread.{Thread as TheThread};
ghost use Rattle.cost_graph.specs.Graph.{IsGraph, IsOwner, Edge};
ghost use Rattle.cost_graph.specs.View.{IsTurned, AreFirsts, AreOwners, graph_of, lists, short_lists};

use crate::graph::Thread;
use smallvec::SmallVec;
use std::alloc::{AllocError, Global};

/// For each thread its first vertex.
pub(crate) fn firsts_of(alloc: Global, threads: &Vec<Thread>) -> Result<Vec<u32>, AllocError>
    requires { sum_by (λ (x : TheThread). x.vertices) threads.now.items < 2 ^ 32 }
    ensures long { IfOk result (λ v. length v.items ≡ length threads.now.items) }
    ensures are { IfOk result (λ v. (t : ℕ) → t < length threads.now.items →
        get_or v.items t 0 ≡ sum_by (λ (x : TheThread). x.vertices) (take t threads.now.items)) }
{
    let mut firsts = Vec::new(alloc);
    let mut next = 0u32;
    for thread in threads {
        firsts.push(next)?;
        next += thread.vertices;
    }
    Ok(firsts)
}

/// For each vertex its thread.
pub(crate) fn owners_of(alloc: Global, threads: &Vec<Thread>) -> Result<Vec<u32>, AllocError>
    requires { length threads.now.items < 2 ^ 32 }
    ensures long { IfOk result (λ v. length v.items ≡ sum_by (λ (x : TheThread). x.vertices) threads.now.items) }
    ensures are { IfOk result (λ w. (parents : List (List ℕ)) (v : ℕ) → v < length w.items →
        IsOwner (record { threads = threads.now.items; parents = parents }) v (get_or w.items v 0)) }
{
    let mut owners = Vec::new(alloc);
    for t in 0..threads.len() {
        add_times(&mut owners, t as u32, threads[t].vertices)?;
    }
    Ok(owners)
}

// Adds the number so many times.
fn add_times(numbers: &mut Vec<u32>, number: u32, times: u32) -> Result<(), AllocError>
    ensures { OnOk result (numbers.new.items ≡ numbers.old.items ++ replicate times number) }
{
    for _ in 0..times {
        numbers.push(number)?;
    }
    Ok(())
}

/// For each vertex its children, ascending, where `parents` has the parents of each.
pub(crate) fn turn(
    alloc: Global,
    parents: &Vec<Vec<u32>>,
) -> Result<Vec<SmallVec<u32, 4>>, AllocError>
    requires ends { (u v : ℕ) → Edge (record { threads = []; parents = lists parents.now.items }) u v → u < length parents.now.items }
    requires rising { (v : ℕ) → IsStrictlyIncreasing (get_or (lists parents.now.items) v []) }
    requires small { length parents.now.items < 2 ^ 32 }
    ensures { IfOk result (λ c. IsTurned (record { threads = []; parents = lists parents.now.items }) (short_lists c.items)) }
{
    let mut children = empty_lists(alloc, parents.len())?;
    for v in 0..parents.len() {
        add_child(&mut children, &parents[v], v as u32)?;
    }
    Ok(children)
}

/// For each vertex its children, for each thread its first vertex, and for each vertex its thread.
pub(crate) fn tables(
    alloc: Global,
    threads: &Vec<Thread>,
    parents: &Vec<Vec<u32>>,
) -> Result<(Vec<SmallVec<u32, 4>>, Vec<u32>, Vec<u32>), AllocError>
    requires { IsGraph (graph_of threads.now.items parents.now.items) }
    ensures turned { IfOk result (λ t. IsTurned (graph_of threads.now.items parents.now.items) (short_lists t.0.items)) }
    ensures firsts { IfOk result (λ t. AreFirsts (graph_of threads.now.items parents.now.items) t.1.items) }
    ensures owners { IfOk result (λ t. AreOwners (graph_of threads.now.items parents.now.items) t.2.items) }
{
    let children = turn(alloc, parents)?;
    let firsts = firsts_of(alloc, threads)?;
    let owners = owners_of(alloc, threads)?;
    Ok((children, firsts, owners))
}

// So many empty lists.
fn empty_lists(alloc: Global, count: usize) -> Result<Vec<SmallVec<u32, 4>>, AllocError>
    ensures { IfOk result (λ v. short_lists v.items ≡ replicate count []) }
{
    let mut all = Vec::with_capacity(alloc, count)?;
    for _ in 0..count {
        all.push(SmallVec::new(alloc))?;
    }
    Ok(all)
}

// Adds v to the list of each of its parents.
fn add_child(
    children: &mut Vec<SmallVec<u32, 4>>,
    parents: &Vec<u32>,
    v: u32,
) -> Result<(), AllocError>
    requires within { All (λ p. p < length children.old.items) parents.now.items }
    requires rising { IsStrictlyIncreasing parents.now.items }
    ensures long { OnOk result (length children.new.items ≡ length children.old.items) }
    ensures added { OnOk result ((u : ℕ) → get_or (short_lists children.new.items) u []
        ≡ get_or (short_lists children.old.items) u [] ++ cond (list_any (nat_eq u) parents.now.items) (v ∷ []) []) }
{
    for parent in parents {
        children[*parent as usize].push(v)?;
    }
    Ok(())
}
