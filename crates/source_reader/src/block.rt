//! Blocks with their names resolved.

ghost use Rattle.std.specs.Prelude.{◌≡◌, ◌≤◌, ◌++◌, ◌∷◌, [], length, map, OnOk};
ghost use Rattle.priml_syntax.specs.Tree as tree;
ghost use Rattle.priml_syntax.specs.Read.{read_code, read_act, read_tail};
ghost use Rattle.priml_syntax.specs.Limits.{most_in_scope};
ghost use Rattle.source_grammar.specs.RawRead.{read_block, read_action, read_expr};
ghost use Rattle.source_grammar.specs.RawRead.{read_tail as read_raw_tail};
ghost use Rattle.source_reader.specs.Names.{number_of};
ghost use Rattle.source_reader.specs.Faults.{proc_faults, prios_faults, terms_faults, scope_faults, code_faults, body_faults, act_faults};
ghost use Rattle.source_reader.specs.Resolved.{prios_meant, terms_meant, code_meant, body_meant, act_meant};
ghost use Rattle.source_reader.specs.Inside.Fits.{TermsFit, CodeFits, BodyFits, ActFits};
ghost use Rattle.source_reader.specs.Inside.Gives.{IsMade};
ghost use Rattle.source_reader.specs.Inside.Known.{env_in};

use crate::faults::{Fault, Made, ResolveStop, What};
use crate::list::{expressions, priorities};
use crate::names::{Names, bring};
use crate::term::{expression, priority, procedure, variable};
use priml_syntax::{Action, Bind, Block, MOST_IN_SCOPE, Tail, TailForm, boxed, push};
use source_grammar::raw::{Name, RawAction, RawBind, RawBlock, RawExpr, RawTail, RawTailForm};
use std::alloc::Global;

/// The block, its names resolved in this scope.
#[cycle(resolve)]
pub fn block_of(alloc: Global, names: &Names, scope: &mut Vec<usize>, raw: &RawBlock) -> Made<Block>
    requires room { length scope.old.items ≤ most_in_scope }
    requires fits { CodeFits (read_block raw.now) }
    ensures gives { IsMade (code_faults (read_block raw.now) (env_in names.now) scope.old.items)
        (code_meant (read_block raw.now) (env_in names.now) scope.old.items) read_code result }
    ensures scope { OnOk result (scope.new.items ≡ scope.old.items) }
{
    let outer = scope.len();
    let mut binds = Vec::with_capacity(alloc, raw.binds.len())?;
    for bind in &raw.binds {
        let action = bound(alloc, names, scope, bind)?;
        push(
            &mut binds,
            Bind {
                at: bind.at,
                action,
            },
        )?;
    }
    let tail = ending(alloc, names, scope, &raw.tail)?;
    scope.truncate(outer);
    Ok(Block::of(raw.at, binds, tail))
}

// The bound action; its name is in scope from here on.
#[cycle(resolve)]
fn bound(alloc: Global, names: &Names, scope: &mut Vec<usize>, raw: &RawBind) -> Made<Action>
    requires room { length scope.old.items ≤ most_in_scope }
    requires fits { ActFits (read_action raw.now.action) }
    ensures gives { IsMade (scope_faults raw.now.name scope.old.items
        ++ act_faults (read_action raw.now.action) (env_in names.now) scope.old.items)
        (act_meant (read_action raw.now.action) (env_in names.now) scope.old.items) read_act result }
    ensures scope { OnOk result (scope.new.items ≡ scope.old.items ++ raw.now.name.id ∷ []) }
    ensures room { OnOk result (length scope.new.items ≤ most_in_scope) }
{
    let name = raw.name;
    if scope.len() >= MOST_IN_SCOPE {
        return Err(ResolveStop::Fault(Fault::TooMany(name.at, What::Scope)));
    }
    let action = action_of(alloc, names, scope, &raw.action)?;
    bring(scope, name.id)?;
    Ok(action)
}

// The action, its names resolved in this scope.
#[cycle(resolve)]
fn action_of(alloc: Global, names: &Names, scope: &mut Vec<usize>, raw: &RawAction) -> Made<Action>
    requires room { length scope.old.items ≤ most_in_scope }
    requires fits { ActFits (read_action raw.now) }
    ensures gives { IsMade (act_faults (read_action raw.now) (env_in names.now) scope.old.items)
        (act_meant (read_action raw.now) (env_in names.now) scope.old.items) read_act result }
    ensures scope { OnOk result (scope.new.items ≡ scope.old.items) }
{
    match raw {
        RawAction::Ret(e) => Ok(Action::Ret(expression(alloc, names, scope, e)?)),
        RawAction::Spawn(own, body) => {
            let own = priority(names, own)?;
            let body = boxed_block(alloc, names, scope, body)?;
            Ok(Action::Spawn(own, body))
        }
        RawAction::Sync(thread) => Ok(Action::Sync(variable(scope, thread.at, thread.id)?)),
        RawAction::Call(made) => call(
            alloc,
            names,
            scope,
            &made.procedure,
            &made.priorities,
            &made.arguments,
        ),
        RawAction::Do(body) => Ok(Action::Do(boxed_block(alloc, names, scope, body)?)),
        RawAction::Input => Ok(Action::Input),
        RawAction::Output(e) => Ok(Action::Output(expression(alloc, names, scope, e)?)),
    }
}

// The ending of a block, its names resolved in this scope.
#[cycle(resolve)]
fn ending(alloc: Global, names: &Names, scope: &mut Vec<usize>, raw: &RawTail) -> Made<Tail>
    requires room { length scope.old.items ≤ most_in_scope }
    requires fits { BodyFits (read_raw_tail raw.now.form raw.now.at) }
    ensures gives { IsMade (body_faults (read_raw_tail raw.now.form raw.now.at) (env_in names.now) scope.old.items)
        (body_meant (read_raw_tail raw.now.form raw.now.at) (env_in names.now) scope.old.items) (λ t. read_tail t.form t.at) result }
    ensures scope { OnOk result (scope.new.items ≡ scope.old.items) }
{
    let form = form_of(alloc, names, scope, raw.at, &raw.form)?;
    Ok(Tail { at: raw.at, form })
}

// The form of an ending at this offset.
#[cycle(resolve)]
fn form_of(
    alloc: Global,
    names: &Names,
    scope: &mut Vec<usize>,
    at: u64,
    raw: &RawTailForm,
) -> Made<TailForm>
    requires room { length scope.old.items ≤ most_in_scope }
    requires fits { BodyFits (read_raw_tail raw.now at) }
    ensures gives { IsMade (body_faults (read_raw_tail raw.now at) (env_in names.now) scope.old.items)
        (body_meant (read_raw_tail raw.now at) (env_in names.now) scope.old.items) (λ f. read_tail f at) result }
    ensures scope { OnOk result (scope.new.items ≡ scope.old.items) }
{
    match raw {
        RawTailForm::Ret(e) => Ok(TailForm::Ret(expression(alloc, names, scope, e)?)),
        RawTailForm::If(e, a, b) => {
            let e = expression(alloc, names, scope, e)?;
            let a = boxed_block(alloc, names, scope, a)?;
            let b = boxed_block(alloc, names, scope, b)?;
            Ok(TailForm::If(e, a, b))
        }
        RawTailForm::Case(e, m, a, n, b) => {
            let e = expression(alloc, names, scope, e)?;
            let a = branch(alloc, names, scope, m, a)?;
            let b = branch(alloc, names, scope, n, b)?;
            Ok(TailForm::Case(e, a, b))
        }
    }
}

// A branch of a case, with its variable in scope.
#[cycle(resolve)]
fn branch(
    alloc: Global,
    names: &Names,
    scope: &mut Vec<usize>,
    inside: &Name,
    raw: &RawBlock,
) -> Made<Box<Block>>
    requires room { length scope.old.items ≤ most_in_scope }
    requires fits { CodeFits (read_block raw.now) }
    ensures gives { IsMade (scope_faults inside.now scope.old.items
        ++ code_faults (read_block raw.now) (env_in names.now) (scope.old.items ++ inside.now.id ∷ []))
        (code_meant (read_block raw.now) (env_in names.now) (scope.old.items ++ inside.now.id ∷ [])) (λ b. read_code b.value) result }
    ensures scope { OnOk result (scope.new.items ≡ scope.old.items) }
{
    let Name { at, id } = *inside;
    let outer = scope.len();
    if outer >= MOST_IN_SCOPE {
        return Err(ResolveStop::Fault(Fault::TooMany(at, What::Scope)));
    }
    bring(scope, id)?;
    let block = boxed_block(alloc, names, scope, raw)?;
    scope.truncate(outer);
    Ok(block)
}

#[cycle(resolve)]
fn boxed_block(
    alloc: Global,
    names: &Names,
    scope: &mut Vec<usize>,
    raw: &RawBlock,
) -> Made<Box<Block>>
    requires room { length scope.old.items ≤ most_in_scope }
    requires fits { CodeFits (read_block raw.now) }
    ensures gives { IsMade (code_faults (read_block raw.now) (env_in names.now) scope.old.items)
        (code_meant (read_block raw.now) (env_in names.now) scope.old.items) (λ b. read_code b.value) result }
    ensures scope { OnOk result (scope.new.items ≡ scope.old.items) }
{
    let block = block_of(alloc, names, scope, raw)?;
    Ok(boxed(alloc, block)?)
}

// The call of the procedure of this name.
fn call(
    alloc: Global,
    names: &Names,
    scope: &[usize],
    called: &Name,
    given: &[Name],
    arguments: &[RawExpr],
) -> Made<Action>
    requires room { length scope.now ≤ most_in_scope }
    requires fits { TermsFit (map read_expr arguments.now) }
    ensures { IsMade (proc_faults (env_in names.now) called.now
        ++ (prios_faults (env_in names.now) given.now ++ terms_faults (env_in names.now) (map read_expr arguments.now) scope.now))
        (tree.call (number_of ((env_in names.now).procs called.now.id)) (prios_meant (env_in names.now) given.now)
        (terms_meant (env_in names.now) (map read_expr arguments.now) scope.now)) read_act result }
{
    let number = procedure(names, called)?;
    let given = priorities(alloc, names, given)?;
    let arguments = expressions(alloc, names, scope, arguments)?;
    Ok(Action::Call(number, given, arguments))
}
