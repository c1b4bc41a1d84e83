//! Blocks.
#![tactic(auto, using(crate::proofs::BlockSteps::steps, crate::proofs::BlockForms::forms))]

ghost use Rattle.std.specs.Prelude.{◌≡◌, ◌++◌, OnOk, ◌∷◌, [], IfOk, ◌≤◌, ◌<◌, length};
ghost use Rattle.source_tokens.specs.declared.token.Sign.TheVariants as a_sign;
ghost use Rattle.source_grammar.specs.declared.choice.ActionForm.TheVariants as a_action;
ghost use Rattle.source_grammar.specs.declared.choice.TailForm.TheVariants as a_tail;
ghost use Rattle.source_grammar.specs.Grammar.{IsAction, IsBlock, IsBody};
ghost use Rattle.source_grammar.specs.Inside.Lists.{body_of};
ghost use Rattle.source_grammar.specs.Inside.Machine.{ASign, Action, ActionOf, Bind, Binds, Block, Tail, TailOf};
ghost use Rattle.source_grammar.specs.RawRead.{read_action, read_block, read_tail};
ghost use Rattle.source_grammar.specs.RawTree.{RawBody};
ghost use Rattle.source_grammar.specs.Inside.Stops.{Moves, MovesTo};

use crate::action::{call, input, output, ret, ret_tail, sync};
use crate::choice::{ActionForm, TailForm};
use crate::cursor::{Stop, Tokens};
use crate::expr::expr;
use crate::raw::{RawAction, RawBind, RawBlock, RawTail, RawTailForm};
use priml_syntax::boxed;
use source_tokens::token::{Sign, Word};
use std::alloc::{AllocError, Global};

/// A block in braces.
#[cycle(block)]
pub fn block(alloc: Global, tokens: &mut Tokens) -> Result<RawBlock, Stop>
    ensures ok { IfOk result (λ b. IsBlock tokens.old tokens.new (read_block b)) }
    ensures moves { Moves Block tokens.old tokens.new result }
    ensures shorter { IfOk result (λ _. length tokens.new < length tokens.old) }
{
    let at = tokens.expect_sign(Sign::OpenBrace)?;
    let binds = binds(alloc, tokens)?;
    let tail = tail(alloc, tokens)?;
    tokens.expect_sign(Sign::CloseBrace)?;
    Ok(RawBlock { at, binds, tail })
}

/// The bound actions of a block, as far as names come.
#[cycle(block)]
fn binds(alloc: Global, tokens: &mut Tokens) -> Result<Vec<RawBind>, Stop>
    ensures ok { IfOk result
        (λ bs. (rest : _) (body : RawBody) → IsBody tokens.new rest body → IsBody tokens.old rest (body_of bs.items body)) }
    ensures moves { MovesTo Binds (Tail ∷ ASign a_sign.CloseBrace ∷ []) tokens.old tokens.new result }
    ensures shorter { IfOk result (λ _. length tokens.new ≤ length tokens.old) }
{
    let mut binds = Vec::new(alloc);
    'binds: while tokens.is_at_name() {
        let bind = bind(alloc, tokens)?;
        push(&mut binds, bind)?;
    }
    Ok(binds)
}

/// A bound action, which begins with a name.
#[cycle(block)]
fn bind(alloc: Global, tokens: &mut Tokens) -> Result<RawBind, Stop>
    ensures ok { IfOk result
        (λ b. (rest : _) (body : RawBody) → IsBody tokens.new rest body → IsBody tokens.old rest (body_of (b ∷ []) body)) }
    ensures moves { Moves Bind tokens.old tokens.new result }
    ensures shorter { IfOk result (λ _. length tokens.new < length tokens.old) }
{
    let name = tokens.name()?;
    tokens.expect_sign(Sign::Arrow)?;
    let (at, action) = action(alloc, tokens)?;
    tokens.expect_sign(Sign::Semicolon)?;
    Ok(RawBind { name, at, action })
}

/// An action, with the offset of its word.
#[cycle(block)]
#[tactic(auto, using(crate::proofs::BlockSteps::choices))]
fn action(alloc: Global, tokens: &mut Tokens) -> Result<(u64, RawAction), Stop>
    ensures ok { IfOk result (λ a. IsAction tokens.old tokens.new a.0 (read_action a.1)) }
    ensures moves { Moves Action tokens.old tokens.new result }
    ensures shorter { IfOk result (λ _. length tokens.new < length tokens.old) }
{
    match tokens.action_form() {
        Some(ActionForm::Ret) => ret(alloc, tokens),
        Some(ActionForm::Spawn) => spawn(alloc, tokens),
        Some(ActionForm::Sync) => sync(tokens),
        Some(ActionForm::Call) => call(alloc, tokens),
        Some(ActionForm::Do) => do_block(alloc, tokens),
        Some(ActionForm::Input) => input(tokens),
        Some(ActionForm::Output) => output(alloc, tokens),
        None => Err(Stop::Syntax),
    }
}

#[cycle(block)]
fn spawn(alloc: Global, tokens: &mut Tokens) -> Result<(u64, RawAction), Stop>
    ensures ok { IfOk result (λ a. IsAction tokens.old tokens.new a.0 (read_action a.1)) }
    ensures moves { Moves (ActionOf a_action.Spawn) tokens.old tokens.new result }
    ensures shorter { IfOk result (λ _. length tokens.new < length tokens.old) }
{
    let at = tokens.expect_word(Word::Spawn)?;
    tokens.expect_sign(Sign::OpenBracket)?;
    let priority = tokens.name()?;
    tokens.expect_sign(Sign::CloseBracket)?;
    let body = block(alloc, tokens)?;
    Ok((at, RawAction::Spawn(priority, boxed(alloc, body)?)))
}

#[cycle(block)]
fn do_block(alloc: Global, tokens: &mut Tokens) -> Result<(u64, RawAction), Stop>
    ensures ok { IfOk result (λ a. IsAction tokens.old tokens.new a.0 (read_action a.1)) }
    ensures moves { Moves (ActionOf a_action.Do) tokens.old tokens.new result }
    ensures shorter { IfOk result (λ _. length tokens.new < length tokens.old) }
{
    let at = tokens.expect_word(Word::Do)?;
    let body = block(alloc, tokens)?;
    Ok((at, RawAction::Do(boxed(alloc, body)?)))
}

/// What ends a block.
#[cycle(block)]
#[tactic(auto, using(crate::proofs::BlockSteps::choices))]
fn tail(alloc: Global, tokens: &mut Tokens) -> Result<RawTail, Stop>
    ensures ok { IfOk result (λ t. IsBody tokens.old tokens.new (read_tail t.form t.at)) }
    ensures moves { Moves Tail tokens.old tokens.new result }
    ensures shorter { IfOk result (λ _. length tokens.new < length tokens.old) }
{
    match tokens.tail_form() {
        Some(TailForm::Ret) => ret_tail(alloc, tokens),
        Some(TailForm::If) => if_tail(alloc, tokens),
        Some(TailForm::Case) => case_tail(alloc, tokens),
        None => Err(Stop::Syntax),
    }
}

/// An ending by a condition.
#[cycle(block)]
fn if_tail(alloc: Global, tokens: &mut Tokens) -> Result<RawTail, Stop>
    ensures ok { IfOk result (λ t. IsBody tokens.old tokens.new (read_tail t.form t.at)) }
    ensures moves { Moves (TailOf a_tail.If) tokens.old tokens.new result }
    ensures shorter { IfOk result (λ _. length tokens.new < length tokens.old) }
{
    let at = tokens.expect_word(Word::If)?;
    let test = expr(alloc, tokens)?;
    let yes = boxed_block(alloc, tokens)?;
    tokens.expect_word(Word::Else)?;
    let no = boxed_block(alloc, tokens)?;
    Ok(RawTail {
        at,
        form: RawTailForm::If(test, yes, no),
    })
}

/// An ending by the two sides of a sum.
#[cycle(block)]
fn case_tail(alloc: Global, tokens: &mut Tokens) -> Result<RawTail, Stop>
    ensures ok { IfOk result (λ t. IsBody tokens.old tokens.new (read_tail t.form t.at)) }
    ensures moves { Moves (TailOf a_tail.Case) tokens.old tokens.new result }
    ensures shorter { IfOk result (λ _. length tokens.new < length tokens.old) }
{
    let at = tokens.expect_word(Word::Case)?;
    let sum = expr(alloc, tokens)?;
    tokens.expect_word(Word::Inl)?;
    let first = tokens.name()?;
    let left = boxed_block(alloc, tokens)?;
    tokens.expect_word(Word::Inr)?;
    let second = tokens.name()?;
    let right = boxed_block(alloc, tokens)?;
    Ok(RawTail {
        at,
        form: RawTailForm::Case(sum, first, left, second, right),
    })
}

/// A block in braces, on the heap.
#[cycle(block)]
fn boxed_block(alloc: Global, tokens: &mut Tokens) -> Result<Box<RawBlock>, Stop>
    ensures ok { IfOk result (λ b. IsBlock tokens.old tokens.new (read_block b.value)) }
    ensures moves { Moves Block tokens.old tokens.new result }
    ensures shorter { IfOk result (λ _. length tokens.new < length tokens.old) }
{
    let body = block(alloc, tokens)?;
    Ok(boxed(alloc, body)?)
}

fn push(binds: &mut Vec<RawBind>, bind: RawBind) -> Result<(), AllocError>
    ensures { OnOk result (binds.new.items ≡ binds.old.items ++ bind ∷ []) }
{
    // most blocks have one action or none, so the first takes no more room than its own
    if binds.is_empty() {
        binds.reserve_exact(1)?;
    }
    binds.push(bind)?;
    Ok(())
}
