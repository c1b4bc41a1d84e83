//! Graphs of which no records tell: a vertex of many parents, a thread alone, and no thread.
ghost use Rattle.std.specs.Prelude.{◌≡◌, ◌+◌, ◌<◌, ◌^◌, ◌∷◌, [], map, replicate, IfOk};
ghost use Rattle.std.specs.List.{range_with_len};
ghost use Rattle.prompt_checker.specs.Read.{lists};

use crate::tests::build::{Scene, order_of, scene_over};
use crate::tests::schedules::{
    Sizes, expect_plan, expect_report, flaw, plan_of, rows_of, sizes, verdict_on,
};
use cost_graph::{Graph, Thread, are_finished, topological};
use priml_syntax::{Path, Records};
use prompt_checker::{FlawKind, ScheduleFault, Verdict, read_schedule};
use response_report::Row;
use std::alloc::{AllocError, Global};
use std::process::Abort;
use std::test::Fail;

// A root of two vertices and so many children of one. The root's first vertex has an edge to each other vertex, and
// each child has one to the root's second.
fn gathered(alloc: Global, children: u32) -> Result<Scene, Fail>
    requires { children + 2 < 2 ^ 32 }
{
    let threads = threads_of(alloc, children)?;
    let parents = parents_of(alloc, children)?;
    let graph = Graph::of_parents(alloc, threads, parents)?;
    scene_over(alloc, graph, order_of(alloc, &["p"], &[])?)
}

fn threads_of(alloc: Global, children: u32) -> Result<Vec<Thread>, Fail>
    ensures { IfOk result (λ v. v.items ≡ record { path = 0 ∷ []; priority = 0; vertices = 2 }
        ∷ map (λ k. record { path = 0 ∷ k ∷ []; priority = 0; vertices = 1 }) (range_with_len 0 children)) }
{
    let mut threads = Vec::new(alloc);
    threads.push(thread(Path::root(alloc)?, 2))?;
    for k in 0..children {
        threads.push(child_of(alloc, k)?)?;
    }
    Ok(threads)
}

fn child_of(alloc: Global, k: u32) -> Result<Thread, Fail>
    ensures { IfOk result (λ t. t ≡ record { path = 0 ∷ k ∷ []; priority = 0; vertices = 1 }) }
{
    let path = Path::root(alloc)?.child(alloc, k)?;
    Ok(thread(path, 1))
}

fn thread(path: Path, vertices: u32) -> Thread
    ensures { result ≡ record { path = path; priority = 0; vertices = vertices } }
{
    Thread {
        path,
        priority: 0,
        vertices,
    }
}

fn parents_of(alloc: Global, children: u32) -> Result<Vec<Vec<u32>>, AllocError>
    requires { children + 2 < 2 ^ 32 }
    ensures { IfOk result (λ v. lists v.items ≡ [] ∷ (0 ∷ range_with_len 2 children) ∷ replicate children (0 ∷ [])) }
{
    let mut parents = Vec::new(alloc);
    parents.push(Vec::new(alloc))?;
    parents.push(others(alloc, children)?)?;
    for _ in 0..children {
        parents.push(Vec::from_slice(alloc, &[0])?)?;
    }
    Ok(parents)
}

// Each vertex but the root's second.
fn others(alloc: Global, children: u32) -> Result<Vec<u32>, AllocError>
    requires { children + 2 < 2 ^ 32 }
    ensures { IfOk result (λ v. v.items ≡ 0 ∷ range_with_len 2 children) }
{
    let mut numbers = Vec::new(alloc);
    numbers.push(0)?;
    for k in 0..children {
        numbers.push(k + 2)?;
    }
    Ok(numbers)
}

// The number of steps of the plan on 1 to 1,024 cores, which has to be prompt, and its rows.
fn planned(alloc: Global, scene: &Scene, cores: u32) -> Result<(usize, Vec<Row>), Fail> {
    if cores < 1 {
        return Err(Fail::new("no core"));
    }
    if cores > 1024 {
        return Err(Fail::new("too many cores"));
    }
    let plan = plan_of(alloc, scene, cores)?;
    let rows = rows_of(alloc, scene, cores, &plan)?;
    Ok((plan.steps.len(), rows))
}

// The root's second vertex, 1, waits for its first, 0, and for 999 children, 2 to 1,000.
#[test]
fn edges_of_a_vertex_of_1000_parents(rt: HostRuntime) -> Result<(), Fail> {
    let scene = gathered(rt.alloc(), 999)?;
    let all = others(rt.alloc(), 999)?;
    assert!(rt; are_gathered(&scene.graph, &all));
    Ok(())
}

// Whether the vertex 1 of 1,001 has all but itself as parents, each of them but 0 has the parent 0 and the child 1, and there
// are no more edges.
fn are_gathered(graph: &Graph, all: &[u32]) -> bool {
    if graph.vertex_count() != 1_001 {
        return false;
    }
    for child in 2..1_001 {
        if graph.parents_of(child) != [0].as_slice() || graph.children_of(child) != [1].as_slice() {
            return false;
        }
    }
    all.len() == 1_000
        && [0, 2, 501, 1_000].iter().all(|child| all.contains(child))
        && graph.parents_of(1) == all
        && graph.children_of(0).len() == 1_000
        && graph.parents_of(0).is_empty()
        && graph.children_of(1).is_empty()
}

// On P cores the plan has a step for the root's first vertex, then the children, P in a step, and then a step for its
// second vertex. All 1,001 vertices compete with the root, whose longest path is its first vertex, a child and its second.
// The 999 children compete with one another: the root's vertices are above and beneath each.
#[test]
fn rows_of_a_vertex_of_1000_parents(rt: HostRuntime) -> Result<(), Fail> {
    let scene = gathered(rt.alloc(), 999)?;
    // cores, steps, the last child's response; the root's bound, (1,001 + 3 (P - 1)) / P; a child's, (999 + P - 1) / P
    let cases = [
        (1, 1_001, 999, 1_001, 999),
        (8, 127, 125, 127, 125),
        (1_000, 3, 1, 3, 1),
    ];
    for (cores, steps, late, root_bound, child_bound) in cases {
        let (count, rows) = planned(rt.alloc(), &scene, cores)?;
        let wants = [
            (steps, 1_001, 3, root_bound),
            (1, 999, 1, child_bound),
            (late, 999, 1, child_bound),
        ];
        assert!(rt;
            count == steps as usize && are_rows(&rows, wants),
            "{cores} cores"
        );
    }
    Ok(())
}

// Whether the first, the second and the last of 1,000 rows have these sizes.
fn are_rows(rows: &[Row], wants: [Sizes; 3]) -> bool {
    match (rows.first(), rows.get(1), rows.last()) {
        (Some(root), Some(first), Some(last)) => {
            rows.len() == 1_000 && [sizes(root), sizes(first), sizes(last)] == wants
        }
        _ => false,
    }
}

// The root alone, with two vertices: it is the only competitor, and the path of both the longest.
#[test]
fn a_thread_alone(rt: HostRuntime) -> Result<(), Fail> {
    let scene = gathered(rt.alloc(), 0)?;
    expect_alone(&rt, rt.alloc(), &scene)
}

fn expect_alone(rt: &impl Abort, alloc: Global, scene: &Scene) -> Result<(), Fail> {
    expect_graph(rt, alloc, scene, "thread 0 p 2\n", &[0, 1])?;
    let lines = "0:0\n0:1\n";
    expect_plan(rt, alloc, scene, 3, lines)?;
    assert!(rt; verdict_on(alloc, scene, 3, lines.as_bytes())? == Verdict::Prompt);
    let want = "cores 3\nsteps 2\nresponse 0 p time 2 work 2 span 2 bound 2\n";
    expect_report(rt, alloc, scene, 3, want)
}

// The graph has this text, and its vertices this order.
fn expect_graph(
    rt: &impl Abort,
    alloc: Global,
    scene: &Scene,
    want: &str,
    order: &[u32],
) -> Result<(), Fail> {
    let text = scene.graph.graph_text(alloc, &scene.order)?;
    assert_eq!(rt; text.as_slice(), want.as_bytes());
    let along = topological(alloc, &scene.graph)?;
    assert_eq!(rt; along.as_slice(), order);
    Ok(())
}

// The graph without threads, over the order without names.
fn nothing(alloc: Global) -> Result<Scene, Fail> {
    let graph = Graph::of_parents(alloc, Vec::new(alloc), Vec::new(alloc))?;
    scene_over(alloc, graph, order_of(alloc, &[], &[])?)
}

// The graph without threads has no vertex, and no thread is found in it.
#[test]
fn no_vertex(rt: HostRuntime) -> Result<(), Fail> {
    let scene = nothing(rt.alloc())?;
    let root = Path::root(rt.alloc())?;
    let graph = &scene.graph;
    let found = (
        graph.thread_count(),
        graph.vertex_count(),
        graph.find(&root, 0),
    );
    assert!(rt; found.0 == 0 && found.1 == 0 && found.2.is_none());
    Ok(())
}

#[test]
fn no_thread(rt: HostRuntime) -> Result<(), Fail> {
    let scene = nothing(rt.alloc())?;
    expect_texts(&rt, rt.alloc(), &scene)
}

fn expect_texts(rt: &impl Abort, alloc: Global, scene: &Scene) -> Result<(), Fail> {
    expect_graph(rt, alloc, scene, "", &[])?;
    expect_plan(rt, alloc, scene, 4, "")?;
    expect_report(rt, alloc, scene, 4, "cores 4\nsteps 0\n")
}

// No records are those of a finished job, whose root would be there.
#[test]
fn no_records(rt: HostRuntime) -> Result<(), Fail> {
    let none = Records::of(Vec::new(rt.alloc()));
    assert!(rt; !are_finished(rt.alloc(), &none)?);
    Ok(())
}

// An empty text is the only prompt schedule of no thread: a blank line is a step without vertices.
#[test]
fn schedules_of_no_thread(rt: HostRuntime) -> Result<(), Fail> {
    let scene = nothing(rt.alloc())?;
    let cases = [
        (b"".as_slice(), Verdict::Prompt),
        (b"\n".as_slice(), flaw(1, FlawKind::EmptyStep)),
    ];
    for (text, want) in cases {
        let verdict = verdict_on(rt.alloc(), &scene, 4, text)?;
        assert_eq!(rt; verdict, want);
    }
    let fault = read_schedule(rt.alloc(), b"0:0\n", &scene.graph).err();
    assert_eq!(rt; fault, Some(ScheduleFault::UnknownVertex(1)));
    Ok(())
}
