//! Records of several roots: which of them are those of a finished job, and their graphs.
use crate::tests::build::{Scene, ended, finished, scene_of};
use crate::tests::schedules::{expect_faults, expect_plan, expect_report, verdict_on};
use priml_syntax::{Event, Path, Record};
use prompt_checker::{ScheduleFault, Verdict};
use std::alloc::Global;
use std::test::Fail;

/// Events of a row; a Join is of the thread's own child 0.
#[derive(Clone, Copy)]
enum Step {
    Start,
    Spawn,
    Join,
    End,
}

/// A thread: its root, the number of a child of that root, if it is not the root itself; its priority; its events.
type Row<'a> = (u32, Option<u32>, u32, &'a [Step]);

const SHORT: &[Step] = &[Step::Start, Step::End];

const SPAWNS: &[Step] = &[Step::Start, Step::Spawn, Step::End];

const WAITS: &[Step] = &[Step::Start, Step::Spawn, Step::Join, Step::End];

fn records_of(alloc: Global, rows: &[Row]) -> Result<Vec<Record>, Fail> {
    let mut list = Vec::new(alloc);
    for row in rows {
        list.push(record_of(alloc, row)?)?;
    }
    Ok(list)
}

fn record_of(alloc: Global, row: &Row) -> Result<Record, Fail> {
    let (root, child, prio, steps) = *row;
    let path = path_of(alloc, root, child)?;
    let mut events = Vec::new(alloc);
    for step in steps {
        events.push(event_of(alloc, &path, *step)?)?;
    }
    Ok(ended(path, prio, events))
}

fn path_of(alloc: Global, root: u32, child: Option<u32>) -> Result<Path, Fail> {
    let root = Path::root_at(alloc, root)?;
    match child {
        Some(k) => Ok(root.child(alloc, k)?),
        None => Ok(root),
    }
}

fn event_of(alloc: Global, path: &Path, step: Step) -> Result<Event, Fail> {
    match step {
        Step::Start => Ok(Event::Start),
        Step::Spawn => Ok(Event::Spawn),
        Step::Join => Ok(Event::Join(path.child(alloc, 0)?)),
        Step::End => Ok(Event::End),
    }
}

#[test]
fn records_of_finished_jobs(rt: HostRuntime) -> Result<(), Fail> {
    let cases: [&[Row]; 4] = [
        &[(0, None, 0, SHORT)],
        &[(0, None, 0, SHORT), (1, None, 0, SHORT)],
        &[
            (0, None, 0, SPAWNS),
            (0, Some(0), 0, SHORT),
            (1, None, 0, SHORT),
            (2, None, 0, SHORT),
        ],
        &[
            (0, None, 0, SHORT),
            (1, None, 0, WAITS),
            (1, Some(0), 0, SHORT),
        ],
    ];
    for rows in cases {
        assert!(rt; finished(rt.alloc(), records_of(rt.alloc(), rows)?)?);
    }
    Ok(())
}

// No root; root 1 without root 0; root 2 without root 1; a child that nobody spawned; one whose parent is not there; a
// Spawn whose child is not there.
#[test]
fn records_of_no_finished_job(rt: HostRuntime) -> Result<(), Fail> {
    let cases: [&[Row]; 7] = [
        &[],
        &[(0, Some(0), 0, SHORT)],
        &[(1, None, 0, SHORT)],
        &[(0, None, 0, SHORT), (2, None, 0, SHORT)],
        &[
            (0, None, 0, SHORT),
            (1, None, 0, SHORT),
            (1, Some(0), 0, SHORT),
        ],
        &[
            (0, None, 0, SPAWNS),
            (0, Some(0), 0, SHORT),
            (1, Some(0), 0, SHORT),
        ],
        &[(0, None, 0, SHORT), (1, None, 0, SPAWNS)],
    ];
    for rows in cases {
        assert!(rt; !finished(rt.alloc(), records_of(rt.alloc(), rows)?)?);
    }
    Ok(())
}

// The second root spawns a thread and waits for it.
#[test]
fn graph_of_two_roots(rt: HostRuntime) -> Result<(), Fail> {
    let rows = [
        (0, None, 0, SHORT),
        (1, None, 1, WAITS),
        (1, Some(0), 1, SHORT),
    ];
    let scene = scene(rt.alloc(), &rows)?;
    let text = scene.graph.graph_text(rt.alloc(), &scene.order)?;
    let want = "thread 0 a 2\nthread 1 b 4\nthread 1.0 b 2\nspawn 1:1 1.0:0\njoin 1.0:1 1:2\n";
    assert_eq!(rt; text.as_slice(), want.as_bytes());
    Ok(())
}

// Both roots are ready at step 1, and all four vertices compete with each, since the priorities are unrelated.
#[test]
fn report_of_two_roots(rt: HostRuntime) -> Result<(), Fail> {
    let rows = [(0, None, 0, SHORT), (1, None, 1, SHORT)];
    let scene = scene(rt.alloc(), &rows)?;
    expect_plan(&rt, rt.alloc(), &scene, 1, "0:0\n0:1\n1:0\n1:1\n")?;
    let one =
        "cores 1\nsteps 4\nresponse 0 a time 2 work 4 span 2 bound 4\nresponse 1 b time 4 work 4 span 2 bound 4\n";
    expect_report(&rt, rt.alloc(), &scene, 1, one)?;
    expect_plan(&rt, rt.alloc(), &scene, 2, "0:0 1:0\n0:1 1:1\n")?;
    let two =
        "cores 2\nsteps 2\nresponse 0 a time 2 work 4 span 2 bound 3\nresponse 1 b time 2 work 4 span 2 bound 3\n";
    expect_report(&rt, rt.alloc(), &scene, 2, two)
}

// A schedule of roots 0 and 1 names the vertices of both, and root 2 has not the form of one of the graph's.
#[test]
fn schedules_of_two_roots(rt: HostRuntime) -> Result<(), Fail> {
    let rows = [(0, None, 0, SHORT), (1, None, 1, SHORT)];
    let scene = scene(rt.alloc(), &rows)?;
    let verdict = verdict_on(rt.alloc(), &scene, 2, b"1:0 0:0\n0:1 1:1\n")?;
    assert_eq!(rt; verdict, Verdict::Prompt);
    let cases = [
        ("1:2\n", ScheduleFault::UnknownVertex(1)),
        ("1.0:0\n", ScheduleFault::UnknownVertex(1)),
        ("0:0\n2:0\n", ScheduleFault::BadText(2)),
    ];
    expect_faults(&rt, rt.alloc(), &scene, &cases)
}

// The scene of the rows, over two unrelated priorities.
fn scene(alloc: Global, rows: &[Row]) -> Result<Scene, Fail> {
    scene_of(alloc, records_of(alloc, rows)?, &["a", "b"], &[])
}
