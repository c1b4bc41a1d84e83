//! Large graphs, and vertices of many children.
ghost use Rattle.std.specs.Prelude.{IsTrue};
ghost use Rattle.cost_graph.specs.Graph.{IsWellFormed};

use crate::tests::build::{Scene, ended, path_of, scene_of};
use crate::tests::schedules::{Sizes, sizes};
use priml_syntax::{Event, Record};
use prompt_planner::plan;
use response_report::{Row, rows};
use std::alloc::Global;
use std::test::Fail;

// How the threads of a large graph join one another: the root joins each child, or each child joins the one before and
// the root the last.
#[derive(Clone, Copy, PartialEq, Eq)]
enum Shape {
    Fan,
    Chain,
}

// A root and so many children, each of so many events.
fn large(alloc: Global, shape: Shape, children: u32, events: u32) -> Result<Scene, Fail> {
    let mut list = Vec::new(alloc);
    list.push(root_of(alloc, shape, children)?)?;
    for k in 0..children {
        list.push(child_of(alloc, shape, k, events)?)?;
    }
    scene_of(alloc, list, &["p"], &[])
}

fn root_of(alloc: Global, shape: Shape, children: u32) -> Result<Record, Fail> {
    let mut events = Vec::new(alloc);
    events.push(Event::Start)?;
    for _ in 0..children {
        events.push(Event::Spawn)?;
    }
    for k in 0..children {
        if shape == Shape::Fan || k + 1 == children {
            events.push(Event::Join(path_of(alloc, Some(k))?))?;
        }
    }
    events.push(Event::End)?;
    Ok(ended(path_of(alloc, None)?, 0, events))
}

fn child_of(alloc: Global, shape: Shape, k: u32, count: u32) -> Result<Record, Fail> {
    let mut events = Vec::new(alloc);
    events.push(Event::Start)?;
    for n in 2..count {
        if n == 2 && shape == Shape::Chain && k > 0 {
            events.push(Event::Join(path_of(alloc, Some(k - 1))?))?;
        } else {
            events.push(Event::Plain)?;
        }
    }
    events.push(Event::End)?;
    Ok(ended(path_of(alloc, Some(k))?, 0, events))
}

// Whether the order has one priority; then the graph is well formed.
fn has_one_priority(scene: &Scene) -> bool
    ensures { IsTrue result → IsWellFormed scene.now.graph scene.now.order.pairs }
{
    let _count = scene.graph.vertex_count();
    scene.order.count() == 1
}

// The rows under the plan on one core.
fn rows_of(alloc: Global, scene: &Scene) -> Result<Vec<Row>, Fail> {
    let plan = plan(alloc, &scene.graph, &scene.order, 1)?;
    if !has_one_priority(scene) {
        return Err(Fail::new("more than one priority"));
    }
    Ok(rows(alloc, &scene.graph, &scene.order, 1, &plan)?)
}

// On one core the root's response is the number of vertices, and so are its work and its bound.
#[test]
fn reports_of_large_graphs(rt: HostRuntime) -> Result<(), Fail> {
    // children, the events of each, threads, vertices, and the root's span
    let cases = [
        (Shape::Fan, 1_300, 75, 1_301, 100_102, 2_602),
        (Shape::Chain, 100, 1_000, 101, 100_103, 99_905),
    ];
    for (shape, children, events, threads, vertices, span) in cases {
        let scene = large(rt.alloc(), shape, children, events)?;
        let found = count_and_root(rt.alloc(), &scene)?;
        assert_eq!(rt; found, (threads, (vertices, vertices, span, vertices)));
    }
    Ok(())
}

// How many rows there are, and the numbers of the first.
fn count_and_root(alloc: Global, scene: &Scene) -> Result<(usize, Sizes), Fail> {
    let rows = rows_of(alloc, scene)?;
    match rows.first() {
        Some(root) => Ok((rows.len(), sizes(root))),
        None => Err(Fail::new("no row")),
    }
}

// A child that the root joins 1,000 times, so that its last vertex has 1,000 children.
fn often_joined(alloc: Global) -> Result<Scene, Fail> {
    let mut list = Vec::new(alloc);
    list.push(ended(path_of(alloc, None)?, 0, joins(alloc, 1_000)?))?;
    list.push(child_of(alloc, Shape::Fan, 0, 2)?)?;
    scene_of(alloc, list, &["p"], &[])
}

// The events of a root that spawns a child and joins it so often.
fn joins(alloc: Global, count: u32) -> Result<Vec<Event>, Fail> {
    let mut events = Vec::new(alloc);
    events.push(Event::Start)?;
    events.push(Event::Spawn)?;
    for _ in 0..count {
        events.push(Event::Join(path_of(alloc, Some(0))?))?;
    }
    events.push(Event::End)?;
    Ok(events)
}

#[test]
fn joined_often(rt: HostRuntime) -> Result<(), Fail> {
    let scene = often_joined(rt.alloc())?;
    let rows = rows_of(rt.alloc(), &scene)?;
    assert!(rt; have_sizes(&rows, &[(1_005, 1_005, 1_005, 1_005), (2, 2, 2, 2)]));
    Ok(())
}

// Whether the rows have these sizes.
fn have_sizes(rows: &[Row], wants: &[Sizes]) -> bool {
    rows.len() == wants.len()
        && rows
            .iter()
            .zip(wants)
            .all(|(row, want)| sizes(row) == *want)
}
