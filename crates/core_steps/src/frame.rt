//! Frames: where in the program a thread is, and what it has in scope there.

ghost use Rattle.std.specs.Prelude.{◌≡◌, ◌⊎◌, ◌<◌, ◌^◌, ◌++◌, ◌∷◌, [], IfOk, OnOk, OnErr, Option, None, map, slice_get};
ghost use Rattle.std.specs.Option.{option_copied, option_map};
ghost use Rattle.priml_syntax.specs.Read.{read_code, read_value, read_proc, read_program};
ghost use Rattle.priml_syntax.specs.Tree.{inside};
ghost use Rattle.core_steps.specs.Fields.{read_frame, routine_at, block_at, body_at};
ghost use Rattle.core_steps.specs.Inside.Locals.{IsComing};
ghost use Rattle.core_steps.specs.Places.{body_from};
ghost use Rattle.core_steps.specs.Steps.{prio_of, thread_in};

use crate::place::{Turn, find};
use priml_syntax::{Action, Block, Path, Prio, Proc, Program, TailForm, Value};
use std::alloc::{AllocError, Global};

/// Which body a frame runs in.
#[derive(Clone, Copy, Debug)]
pub(crate) enum Root {
    /// That of the main of this number.
    Main(u32),
    /// That of the procedure of this number.
    Procedure(u32),
}

/// A block of the program by the turns that lead to it from the body of a routine, how many of its actions are done, its
/// values in scope, outermost first, and the priorities that its variables stand for.
#[derive(Drop)]
pub(crate) struct Frame {
    pub(crate) root: Root,
    pub(crate) turns: Vec<Turn>,
    pub(crate) done: usize,
    pub(crate) scope: Vec<Value>,
    pub(crate) prios: Vec<u32>,
}

// The main of this number.
pub(crate) fn main_at(program: &Program, k: u32) -> Option<&Proc>
    ensures { option_map read_proc (option_copied result) ≡ slice_get (read_program program.now).mains k }
{
    if k > 0 {
        return None;
    }
    Some(&program.main)
}

// The routine.
fn routine(program: &Program, root: Root) -> Option<&Proc>
    ensures { option_map read_proc (option_copied result) ≡ routine_at (read_program program.now) root }
{
    match root {
        Root::Main(k) => main_at(program, k),
        Root::Procedure(f) => {
            let procs = program.procs.as_slice();
            if f as usize >= procs.len() {
                return None;
            }
            Some(&procs[f as usize])
        }
    }
}

/// What comes next in a frame.
pub(crate) enum Coming<'a> {
    Action(&'a Action),
    Ending(&'a TailForm),
}

// What comes next in a block of which so many actions are done.
fn coming_in(block: &Block, done: usize) -> Option<Coming<'_>>
    ensures comes { IsComing (body_from done (inside (read_code block.now))) result }
    ensures small { result ≡ None ⊎ (done < 2 ^ 63) }
{
    let binds = block.binds.as_slice();
    if done < binds.len() {
        return Some(Coming::Action(&binds[done].action));
    }
    if done > binds.len() {
        return None;
    }
    Some(Coming::Ending(&block.tail.form))
}

impl Frame {
    /// What comes next.
    pub(crate) fn coming<'a>(&self, program: &'a Program) -> Option<Coming<'a>>
        ensures comes { IsComing (body_at (read_program program.now) (read_frame self.now)) result }
        ensures small { result ≡ None ⊎ (self.now.done < 2 ^ 63) }
    {
        match self.block(program) {
            Some(block) => coming_in(block, self.done),
            None => None,
        }
    }

    /// The block that the frame is in.
    pub(crate) fn block<'a>(&self, program: &'a Program) -> Option<&'a Block>
        ensures { option_map read_code (option_copied result) ≡ block_at (read_program program.now) (read_frame self.now) }
    {
        match routine(program, self.root) {
            Some(routine) => find(&routine.body, &self.turns),
            None => None,
        }
    }

    /// The thread that a variable holds; None where it holds none.
    pub(crate) fn thread(&self, x: u32) -> Option<&Path>
        ensures { option_copied result ≡ thread_in (slice_get (read_frame self.now).scope x) }
    {
        thread_of(&self.scope, x)
    }

    /// The number of a priority, where the frame's priorities stand for variables.
    pub(crate) fn number(&self, prio: Prio) -> u32
        ensures { result ≡ prio_of (read_frame self.now).prios prio }
    {
        number_of(prio, &self.prios)
    }

    /// The numbers of these priorities.
    pub(crate) fn numbers(&self, alloc: Global, list: &[Prio]) -> Result<Vec<u32>, AllocError>
        ensures { IfOk result (λ v. v.items ≡ map (prio_of (read_frame self.now).prios) list.now) }
    {
        numbers_of(alloc, list, &self.prios)
    }

    /// Takes one value more into scope.
    pub(crate) fn gain(&mut self, value: Value) -> Result<(), AllocError>
        ensures ok { OnOk result (read_frame self.new ≡ record (read_frame self.old) { scope = (read_frame self.old).scope ++ read_value value ∷ [] }) }
        ensures err { OnErr result (read_frame self.new ≡ read_frame self.old) }
    {
        self.scope.push(value)?;
        Ok(())
    }

    /// A frame of the same scope, in a block within this frame's, with room for the values of so many binds.
    pub(crate) fn within(
        &self,
        alloc: Global,
        turn: Turn,
        binds: usize,
    ) -> Result<Frame, AllocError>
        ensures { IfOk result (λ f. read_frame f ≡ record (read_frame self.now) { turns = self.now.turns.items ++ turn ∷ []; done = 0 }) }
    {
        let mut turns = Vec::with_capacity(alloc, self.turns.len() + 1)?;
        turns.extend_from_slice(&self.turns)?;
        turns.push(turn)?;
        let scope = copies(alloc, &self.scope, binds)?;
        let prios = Vec::from_slice(alloc, &self.prios)?;
        Ok(Frame {
            root: self.root,
            turns,
            done: 0,
            scope,
            prios,
        })
    }
}

// The number of a priority, where the variables stand for these.
pub(crate) fn number_of(prio: Prio, prios: &[u32]) -> u32
    ensures { result ≡ prio_of prios.now prio }
{
    match prio {
        Prio::Const(p) => p,
        Prio::Var(x) => {
            if x as usize >= prios.len() {
                return 0;
            }
            prios[x as usize]
        }
    }
}

// The numbers of these priorities, where the variables stand for those.
fn numbers_of(alloc: Global, list: &[Prio], prios: &[u32]) -> Result<Vec<u32>, AllocError>
    ensures { IfOk result (λ v. v.items ≡ map (prio_of prios.now) list.now) }
{
    let mut all = Vec::new(alloc);
    for prio in list {
        all.push(number_of(*prio, prios))?;
    }
    Ok(all)
}

// The thread that the variable holds.
fn thread_of(scope: &[Value], x: u32) -> Option<&Path>
    ensures { option_copied result ≡ thread_in (slice_get (map read_value scope.now) x) }
{
    let place = x as usize;
    if place >= scope.len() {
        return None;
    }
    match &scope[place] {
        Value::Thread(path, _) => Some(path),
        Value::Unit => None,
        Value::Bool(_) => None,
        Value::Int(_) => None,
        Value::Pair(_, _) => None,
        Value::Inl(_) => None,
        Value::Inr(_) => None,
    }
}

// Equal values, in order, with room for so many more.
fn copies(alloc: Global, values: &[Value], room: usize) -> Result<Vec<Value>, AllocError>
    ensures { IfOk result (λ v. map read_value v.items ≡ map read_value values.now) }
{
    let mut all = Vec::with_capacity(alloc, values.len().saturating_add(room))?;
    for value in values {
        all.push(value.copy(alloc)?)?;
    }
    Ok(all)
}
