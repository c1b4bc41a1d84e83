//! Graphs and orders from short rows.
ghost use Rattle.std.specs.Prelude.{◌<◌, ◌^◌, ◌↔◌, length, map, IsTrue};
ghost use Rattle.std.specs.List.{All};
ghost use Rattle.cost_graph.specs.Graph.{IsAcyclic};
ghost use Rattle.priml_syntax.specs.Paths.{Precedes};
ghost use Rattle.priml_syntax.specs.Read.{read_record};
ghost use Rattle.priml_syntax.specs.Records.{InPathOrder};
ghost use Rattle.priority_order.specs.Order.{IsWithin};
ghost use Rattle.cost_graph.specs.declared.graph.Thread.{Thread as TheThread};

use cost_graph::{Graph, are_finished, has_cycle};
use priml_syntax::{Event, Outcome, Path, Record, Records, Value};
use priority_order::Order;
use std::alloc::{AllocError, Global};
use std::cmp::Ordering;
use std::test::Fail;

/// Events of a row: so many Plain ones; a Join of the child of the root with this number; one of the others.
#[derive(Clone, Copy)]
pub(crate) enum Step {
    Start,
    Plain(u32),
    Spawn,
    Join(u32),
    End,
}

/// A thread: its number among the children of the root, if it is not the root; its priority; its events.
pub(crate) type Row<'a> = (Option<u32>, u32, &'a [Step]);

/// A graph without cycles, and an order with the priorities of its threads.
#[derive(Drop)]
pub(crate) struct Scene {
    pub(crate) graph: Graph,
    pub(crate) order: Order,
    ghost acyclic: { IsAcyclic graph },
    ghost priorities: { All (λ (t : TheThread). t.priority < length order.names) graph.threads },
}

/// The records of the rows.
pub(crate) fn records_of(alloc: Global, rows: &[Row]) -> Result<Vec<Record>, Fail> {
    let mut list = Vec::new(alloc);
    for row in rows {
        list.push(record_of(alloc, row)?)?;
    }
    Ok(list)
}

/// The scene of the records.
pub(crate) fn scene_of(
    alloc: Global,
    list: Vec<Record>,
    names: &[&str],
    pairs: &[(u32, u32)],
) -> Result<Scene, Fail> {
    let graph = graph_of(alloc, list)?;
    scene_over(alloc, graph, order_of(alloc, names, pairs)?)
}

/// The graph of the records.
pub(crate) fn graph_of(alloc: Global, list: Vec<Record>) -> Result<Graph, Fail> {
    if !are_in_order(list.as_slice()) {
        return Err(Fail::new("records are not in order"));
    }
    let records = Records::of(list);
    if !are_finished(alloc, &records)? {
        return Err(Fail::new("records are not finished"));
    }
    Ok(Graph::of_records(alloc, &records)?)
}

/// Whether the records are those of a finished job.
pub(crate) fn finished(alloc: Global, list: Vec<Record>) -> Result<bool, Fail> {
    if !are_in_order(list.as_slice()) {
        return Err(Fail::new("records are not in order"));
    }
    Ok(are_finished(alloc, &Records::of(list))?)
}

/// The scene of a graph and an order.
pub(crate) fn scene_over(alloc: Global, graph: Graph, order: Order) -> Result<Scene, Fail> {
    if has_cycle(alloc, &graph)? {
        return Err(Fail::new("a cycle"));
    }
    if !has_priorities(&order, &graph) {
        return Err(Fail::new("a priority without a name"));
    }
    Ok(Scene { graph, order })
}

/// The record of a thread that ended with the value ().
pub(crate) fn ended(path: Path, prio: u32, events: Vec<Event>) -> Record {
    Record {
        path,
        prio,
        events,
        outcome: Outcome::Value(Value::Unit),
    }
}

/// The path of the k-th child of the root, or of the root.
pub(crate) fn path_of(alloc: Global, child: Option<u32>) -> Result<Path, Fail> {
    let root = Path::root(alloc)?;
    match child {
        Some(k) => Ok(root.child(alloc, k)?),
        None => Ok(root),
    }
}

fn record_of(alloc: Global, row: &Row) -> Result<Record, Fail> {
    let (child, prio, steps) = *row;
    let mut events = Vec::new(alloc);
    for step in steps {
        push_events(alloc, &mut events, *step)?;
    }
    Ok(ended(path_of(alloc, child)?, prio, events))
}

fn push_events(alloc: Global, events: &mut Vec<Event>, step: Step) -> Result<(), Fail> {
    match step {
        Step::Start => events.push(Event::Start)?,
        Step::Plain(count) => push_plain(events, count)?,
        Step::Spawn => events.push(Event::Spawn)?,
        Step::Join(k) => events.push(Event::Join(path_of(alloc, Some(k))?))?,
        Step::End => events.push(Event::End)?,
    }
    Ok(())
}

fn push_plain(events: &mut Vec<Event>, count: u32) -> Result<(), AllocError> {
    for _ in 0..count {
        events.push(Event::Plain)?;
    }
    Ok(())
}

/// The order of these names and pairs, whose numbers are below the count of names.
pub(crate) fn order_of(alloc: Global, names: &[&str], pairs: &[(u32, u32)]) -> Result<Order, Fail> {
    let mut list = Vec::new(alloc);
    for name in names {
        list.push(String::from_str(alloc, name)?)?;
    }
    if !are_within(list.len(), pairs) {
        return Err(Fail::new("a pair without a name"));
    }
    Ok(Order::build(alloc, &list, pairs)?)
}

// Whether the numbers of the pairs are below the count, and there are fewer than 2^32.
fn are_within(count: usize, pairs: &[(u32, u32)]) -> bool
    ensures within { IsTrue result → IsWithin count pairs.now }
    ensures few { IsTrue result → length pairs.now < 2 ^ 32 }
{
    for pair in pairs {
        if !is_within(count, pair) {
            return false;
        }
    }
    pairs.len() <= u32::MAX as usize
}

fn is_within(count: usize, pair: &(u32, u32)) -> bool
    ensures { IsTrue result ↔ ((pair.now.0 < count) × (pair.now.1 < count)) }
{
    if pair.0 as usize >= count {
        return false;
    }
    (pair.1 as usize) < count
}

/// Whether each record stands before the next.
pub(crate) fn are_in_order(list: &[Record]) -> bool
    ensures { IsTrue result → InPathOrder (map read_record list.now) }
{
    for next in 1..list.len() {
        if !is_before(&list[next - 1].path, &list[next].path) {
            return false;
        }
    }
    true
}

fn is_before(a: &Path, b: &Path) -> bool
    ensures { IsTrue result ↔ Precedes a.now b.now }
{
    match a.compare(b) {
        Ordering::Less => true,
        Ordering::Equal => false,
        Ordering::Greater => false,
    }
}

// Whether the order has the priorities of the threads.
fn has_priorities(order: &Order, graph: &Graph) -> bool
    ensures { IsTrue result → All (λ (t : TheThread). t.priority < length order.now.names) graph.now.threads }
{
    for t in 0..graph.thread_count() {
        if graph.priority_of(t) >= order.count() {
            return false;
        }
    }
    true
}
