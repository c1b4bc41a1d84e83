ghost use Rattle.std.specs.Prelude.{◌≡◌, ◌+◌, ◌++◌, [], ◌∷◌, length, OnOk, IsTrue, ◌↔◌};
ghost use Rattle.priml_syntax.specs.Tree.{bool};
ghost use Rattle.priml_syntax.specs.Read.{read_code, read_act, read_tail};
ghost use Rattle.type_rules.specs.Typing.{CodeInScope, BodyInScope, ActInScope};
ghost use Rattle.type_rules.specs.Shared.{read_shared};
ghost use Rattle.type_rules.specs.Inside.Answers.{setting, scope_of, CodeAnswer, BodyAnswer, ActAnswer};
ghost use Rattle.type_rules.specs.Inside.Helpers.{OutputAnswer, JoinedAnswer, ChosenAnswer, PartsAnswer, ThreadAnswer, SyncAnswer};

use crate::call::type_of_call;
use crate::shared::{Shape, Shared};
use crate::term::{fault, type_of};
use crate::{TypeKind, TypeStop};
use constraint_proof::Known;
use priml_syntax::{Action, Block, MOST_NODES, Prio, Proc, Tail, TailForm, push};
use std::alloc::Global;

#[cycle(check)]
pub fn type_of_block<'p>(
    alloc: Global,
    known: &Known,
    procs: &'p [Proc],
    scope: &mut Vec<Shared<'p>>,
    r: Prio,
    block: &'p Block,
) -> Result<Shared<'p>, TypeStop>
    requires { CodeInScope (read_code block.now) (length procs.now) (length scope.old.items) }
    ensures scope { OnOk result (scope.new.items ≡ scope.old.items) }
    ensures answer { CodeAnswer (setting known.now procs.now) (scope_of scope.old.items) r (read_code block.now) result }
{
    let depth = scope.len();
    for bind in &block.binds {
        let t = type_of_action(alloc, known, procs, scope, r, bind.at, &bind.action)?;
        push(scope, t)?;
    }
    let t = type_of_tail(alloc, known, procs, scope, r, &block.tail)?;
    scope.truncate(depth);
    Ok(t)
}

#[cycle(check)]
fn type_of_action<'p>(
    alloc: Global,
    known: &Known,
    procs: &'p [Proc],
    scope: &mut Vec<Shared<'p>>,
    r: Prio,
    at: u64,
    action: &'p Action,
) -> Result<Shared<'p>, TypeStop>
    requires { ActInScope (read_act action.now) (length procs.now) (length scope.old.items) }
    ensures scope { OnOk result (scope.new.items ≡ scope.old.items) }
    ensures answer { ActAnswer (setting known.now procs.now) (scope_of scope.old.items) r at (read_act action.now) result }
{
    match action {
        Action::Ret(e) => type_of(alloc, scope, e),
        Action::Spawn(q, block) => {
            let t = type_of_block(alloc, known, procs, scope, *q, block)?;
            thread_of(alloc, *q, t, at)
        }
        Action::Sync(h) => awaited(known, &scope[*h as usize], r, at),
        Action::Call(f, ps, es) => type_of_call(alloc, known, procs, scope, r, at, *f, ps, es),
        Action::Do(block) => type_of_block(alloc, known, procs, scope, r, block),
        Action::Input => Ok(Shared::input(alloc)?),
        Action::Output(e) => {
            let given = type_of(alloc, scope, e)?;
            printed(given, at)
        }
    }
}

#[cycle(check)]
fn type_of_tail<'p>(
    alloc: Global,
    known: &Known,
    procs: &'p [Proc],
    scope: &mut Vec<Shared<'p>>,
    r: Prio,
    tail: &'p Tail,
) -> Result<Shared<'p>, TypeStop>
    requires { BodyInScope (read_tail tail.now.form tail.now.at) (length procs.now) (length scope.old.items) }
    ensures answer { BodyAnswer (setting known.now procs.now) (scope_of scope.old.items) r (read_tail tail.now.form tail.now.at) result }
    ensures scope { OnOk result (scope.new.items ≡ scope.old.items) }
{
    let at = tail.at;
    match &tail.form {
        TailForm::Ret(e) => type_of(alloc, scope, e),
        TailForm::If(e, a, b) => {
            let test = type_of(alloc, scope, e)?;
            let is_test = is_bool(test);
            let left = type_of_block(alloc, known, procs, scope, r, a)?;
            let right = type_of_block(alloc, known, procs, scope, r, b)?;
            chosen(left, right, is_test, at)
        }
        TailForm::Case(e, a, b) => {
            let test = type_of(alloc, scope, e)?;
            let (left, right) = parts_of(test, at)?;
            let first = type_of_branch(alloc, known, procs, scope, r, left, a)?;
            let second = type_of_branch(alloc, known, procs, scope, r, right, b)?;
            joined(first, second, at)
        }
    }
}

// A branch of a case, with its variable.
#[cycle(check)]
fn type_of_branch<'p>(
    alloc: Global,
    known: &Known,
    procs: &'p [Proc],
    scope: &mut Vec<Shared<'p>>,
    r: Prio,
    t: Shared<'p>,
    block: &'p Block,
) -> Result<Shared<'p>, TypeStop>
    requires { CodeInScope (read_code block.now) (length procs.now) (length scope.old.items + 1) }
    ensures scope { OnOk result (scope.new.items ≡ scope.old.items) }
    ensures answer { CodeAnswer (setting known.now procs.now) (scope_of scope.old.items ++ read_shared t.entry ∷ []) r (read_code block.now) result }
{
    let depth = scope.len();
    push(scope, t)?;
    let result = type_of_block(alloc, known, procs, scope, r, block)?;
    scope.truncate(depth);
    Ok(result)
}

fn is_bool(t: Shared<'_>) -> bool
    ensures { IsTrue result ↔ (read_shared t.entry ≡ bool) }
{
    t.equals(&Shared::Bool)
}

// What `output` gives, where a number is printed.
fn printed<'p>(given: Shared<'p>, at: u64) -> Result<Shared<'p>, TypeStop>
    ensures { OutputAnswer (read_shared given.entry) at result }
{
    if given.equals(&Shared::Int) {
        Ok(Shared::Unit)
    } else {
        Err(fault(TypeKind::Mismatch, at))
    }
}

// The type of both branches, where they have the same.
fn joined<'p>(left: Shared<'p>, right: Shared<'p>, at: u64) -> Result<Shared<'p>, TypeStop>
    ensures { JoinedAnswer (read_shared left.entry) (read_shared right.entry) at result }
{
    if left.equals(&right) {
        Ok(left)
    } else {
        Err(fault(TypeKind::Mismatch, at))
    }
}

// The type of both branches of an `if`, where they have the same and the test is one.
fn chosen<'p>(
    left: Shared<'p>,
    right: Shared<'p>,
    is_test: bool,
    at: u64,
) -> Result<Shared<'p>, TypeStop>
    ensures { ChosenAnswer is_test (read_shared left.entry) (read_shared right.entry) at result }
{
    if is_test {
        joined(left, right, at)
    } else {
        Err(fault(TypeKind::Mismatch, at))
    }
}

// The two parts of a sum's type.
fn parts_of<'p>(t: Shared<'p>, at: u64) -> Result<(Shared<'p>, Shared<'p>), TypeStop>
    ensures { PartsAnswer (read_shared t.entry) at result }
{
    match t.shape()? {
        Shape::Sum(left, right) => Ok((left, right)),
        _ => Err(fault(TypeKind::Mismatch, at)),
    }
}

// A thread's type, which has one node more.
fn thread_of<'p>(alloc: Global, q: Prio, t: Shared<'p>, at: u64) -> Result<Shared<'p>, TypeStop>
    ensures { ThreadAnswer q (read_shared t.entry) at result }
{
    if t.nodes() >= MOST_NODES {
        return Err(fault(TypeKind::Wide, at));
    }
    Ok(Shared::thread(alloc, q, t)?)
}

// The type of what a thread gives, where r may wait on it.
fn awaited<'p>(known: &Known, t: &Shared<'p>, r: Prio, at: u64) -> Result<Shared<'p>, TypeStop>
    ensures { SyncAnswer known.now.pairs known.now.given r (read_shared t.now) at result }
{
    match t.shape()? {
        Shape::Thread(q, inner) => {
            if known.entails(r, q) {
                Ok(inner)
            } else {
                Err(fault(TypeKind::Inversion, at))
            }
        }
        _ => Err(fault(TypeKind::NotThread, at)),
    }
}
