ghost use Rattle.std.specs.Prelude.{◌≡◌, ℕ, ◌<◌, ◌∷◌, ◌++◌, [], map, Some, None, OnOk, IfOk, IfErr, IfSome, MatchOption};
ghost use Rattle.std.specs.List.{All, Contains};
ghost use Rattle.cost_graph.specs.Graph.{vertex_total, IsVertexAt};
ghost use Rattle.priml_io.specs.Lines.{lines};
ghost use Rattle.inputs_text.specs.PathText.{Pairwise};
ghost use Rattle.inputs_text.specs.InputLines.{words_of};
ghost use Rattle.prompt_checker.specs.declared.reader.ScheduleFault.TheVariants.{OutOfMemory};
ghost use Rattle.prompt_checker.specs.Read.{lists, steps_of};
ghost use Rattle.prompt_checker.specs.ScheduleText.{last_root as the_last_root, IsStepLine, IsBadLine, IsBadWord, IsVertexText, AreStepLines, HasFault, ReadsOneWay};
ghost use Rattle.prompt_checker.specs.Inside.Looks.{IsLook, StopsAt};

use crate::schedule::Schedule;
use cost_graph::Graph;
use inputs_text::{cut, read_part, read_path};
use priml_io::{is_blank, next_line};
use priml_syntax::Path;
use std::alloc::{AllocError, Global};

/// Why a text is no schedule of a graph. Lines are counted from 1.
#[derive(Clone, Copy, Debug, PartialEq, Eq)]
pub enum ScheduleFault {
    /// This line has a word that has not the form of a vertex.
    BadText(u64),
    /// Each word of this line has the form of a vertex, and one is none of the graph.
    UnknownVertex(u64),
    /// Memory was wanting.
    OutOfMemory,
}

impl From<AllocError> for ScheduleFault {
    ghost from_gives = { λ _ fault. fault ≡ OutOfMemory };

    fn from(_: AllocError) -> ScheduleFault {
        ScheduleFault::OutOfMemory
    }
}

/// Reads a schedule: a step on each line, its vertices with spaces, tabs or carriage returns between and perhaps
/// around. A vertex is its thread's path, whose root is at most that of the graph's last thread, a colon and its number in
/// the thread. The first line at fault decides.
pub fn read_schedule(alloc: Global, text: &[u8], graph: &Graph) -> Result<Schedule, ScheduleFault>
    ensures ok { IfOk result (λ s. AreStepLines graph.now (lines text.now) (steps_of s)) }
    ensures within { IfOk result (λ s. All (λ step. All (λ v. v < vertex_total graph.now) step) (steps_of s)) }
    ensures fault { IfErr result (HasFault graph.now (lines text.now)) }
    ensures one_way { ReadsOneWay graph.now (lines text.now) }
{
    let _count = graph.vertex_count();
    let mut steps = Vec::new(alloc);
    let mut rest = text;
    'lines: while !rest.is_empty() {
        let (line, after) = next_line(rest);
        let step = read_step(alloc, graph, steps.len() as u64 + 1, line, last_of(&steps))?;
        add_step(&mut steps, step)?;
        rest = after;
    }
    Ok(Schedule { steps })
}

// Adds a step behind the others.
fn add_step(steps: &mut Vec<Vec<u32>>, step: Vec<u32>) -> Result<(), AllocError>
    ensures { OnOk result (lists steps.new.items ≡ lists steps.old.items ++ step.items ∷ []) }
{
    steps.push(step)?;
    Ok(())
}

// The last of the steps, and an empty one where there is none.
fn last_of(steps: &Vec<Vec<u32>>) -> &[u32] {
    match steps.last() {
        Some(step) => step.as_slice(),
        None => &[],
    }
}

// Reads the line of this number. `before` is the step before: a vertex whose thread has one there, in about the same
// place, is found sooner.
fn read_step(
    alloc: Global,
    graph: &Graph,
    number: u64,
    line: &[u8],
    before: &[u32],
) -> Result<Vec<u32>, ScheduleFault>
    ensures ok { IfOk result (λ s. IsStepLine graph.now line.now s.items) }
    ensures fault { IfErr result (StopsAt graph.now number line.now) }
{
    let Some(looks) = look_up_all(alloc, graph, line, before)? else {
        return Err(ScheduleFault::BadText(number));
    };
    let Some(step) = all_found(alloc, &looks)? else {
        return Err(ScheduleFault::UnknownVertex(number));
    };
    Ok(step)
}

// For each word of the line its vertex, if the graph has it; None where a word has not the form of a vertex.
fn look_up_all(
    alloc: Global,
    graph: &Graph,
    line: &[u8],
    before: &[u32],
) -> Result<Option<Vec<Option<u32>>>, AllocError>
    ensures { IfOk result (λ r. MatchOption r (IsBadLine graph.now line.now) (λ v. Pairwise (IsLook graph.now) (words_of line.now) v.items)) }
{
    let mut looks = Vec::new(alloc);
    let mut at = 0;
    for word in line.split(|b| is_blank(*b)).filter(|word| !word.is_empty()) {
        let Some(look) = look_up(alloc, graph, word, before, &mut at)? else {
            return Ok(None);
        };
        looks.push(look)?;
    }
    Ok(Some(looks))
}

// The word's vertex, if the graph has it; None where the word has not the form of a vertex.
fn look_up(
    alloc: Global,
    graph: &Graph,
    word: &[u8],
    before: &[u32],
    at: &mut usize,
) -> Result<Option<Option<u32>>, AllocError>
    ensures { IfOk result (λ r. MatchOption r (IsBadWord graph.now word.now) (IsLook graph.now word.now)) }
{
    let Some((path, number)) = read_vertex(alloc, graph, word)? else {
        return Ok(None);
    };
    Ok(Some(find_near(graph, &path, number, before, at)))
}

// The vertex with this number of the thread with this path; None where there is no such vertex. The threads of a few
// vertices of `before` from place `at` on are tried first; behind one that has the path the next search begins.
fn find_near(graph: &Graph, path: &Path, number: u32, before: &[u32], at: &mut usize) -> Option<u32>
    ensures { MatchOption result ((v : ℕ) → IsVertexAt graph.now path.now number v → ⊥) (IsVertexAt graph.now path.now number) }
{
    let end = before.len().min(at.saturating_add(4));
    for place in *at..end {
        if let Some(vertex) = find_beside(graph, path, number, before[place]) {
            *at = place + 1;
            return Some(vertex);
        }
    }
    graph.find(path, number)
}

// The vertex with this number of the thread of this vertex, where that has this path.
fn find_beside(graph: &Graph, path: &Path, number: u32, vertex: u32) -> Option<u32>
    ensures { IfSome result (IsVertexAt graph.now path.now number) }
{
    if vertex >= graph.vertex_count() {
        return None;
    }
    let thread = graph.thread_of(vertex);
    if graph.path_of(thread).parts() != path.parts() {
        return None;
    }
    if number >= graph.vertices_of(thread) {
        return None;
    }
    Some(graph.first_of(thread) + number)
}

// The vertices, where each was found.
fn all_found(alloc: Global, looks: &Vec<Option<u32>>) -> Result<Option<Vec<u32>>, AllocError>
    ensures { IfOk result (λ r. MatchOption r (Contains looks.now.items None) (λ v. looks.now.items ≡ map Some v.items)) }
{
    let mut step = Vec::new(alloc);
    for look in looks {
        let Some(vertex) = *look else {
            return Ok(None);
        };
        step.push(vertex)?;
    }
    Ok(Some(step))
}

// The root of the graph's last thread, and 0 where the graph has no thread.
fn last_root(graph: &Graph) -> u32
    ensures { result ≡ the_last_root graph.now }
{
    let count = graph.thread_count();
    if count == 0 {
        return 0;
    }
    graph.path_of(count - 1).parts()[0]
}

// The path and the number of a vertex, from its text; None where that has another form.
fn read_vertex(alloc: Global, graph: &Graph, text: &[u8]) -> Result<Option<(Path, u32)>, AllocError>
    ensures { IfOk result (λ r. MatchOption r (IsBadWord graph.now text.now) (λ p. IsVertexText (the_last_root graph.now) text.now (p.0, p.1))) }
{
    let Some((prefix, back)) = cut(text) else {
        return Ok(None);
    };
    let Some(path) = read_path(alloc, prefix, last_root(graph))? else {
        return Ok(None);
    };
    let Some(number) = read_part(back) else {
        return Ok(None);
    };
    Ok(Some((path, number)))
}
