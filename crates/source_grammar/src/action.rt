//! Actions and endings that hold no block.
#![tactic(auto, using(crate::proofs::BlockSteps::steps, crate::proofs::BlockForms::forms))]

ghost use Rattle.std.specs.Prelude.{◌≡◌, ◌∷◌, IfOk, ◌<◌, length};
ghost use Rattle.source_tokens.specs.declared.token.Sign.TheVariants as a_sign;
ghost use Rattle.source_grammar.specs.declared.choice.ActionForm.TheVariants as a_action;
ghost use Rattle.source_grammar.specs.declared.choice.TailForm.TheVariants as a_tail;
ghost use Rattle.source_grammar.specs.Grammar.{IsAction, IsBody, IsPriorities, sign};
ghost use Rattle.source_grammar.specs.Inside.Machine.{ASign, ActionOf, CallOpen, CallPriorities, TailOf};
ghost use Rattle.source_grammar.specs.RawRead.{read_action, read_tail};
ghost use Rattle.source_grammar.specs.Inside.Stops.{Moves};

use crate::cursor::{Stop, Tokens};
use crate::expr::expr;
use crate::list::listed;
use crate::raw::{Name, RawAction, RawCall, RawExpr, RawTail, RawTailForm};
use source_tokens::token::{Sign, Word};
use std::alloc::{AllocError, Global};

/// An ending that gives a value.
pub fn ret_tail(alloc: Global, tokens: &mut Tokens) -> Result<RawTail, Stop>
    ensures ok { IfOk result (λ t. IsBody tokens.old tokens.new (read_tail t.form t.at)) }
    ensures moves { Moves (TailOf a_tail.Ret) tokens.old tokens.new result }
    ensures shorter { IfOk result (λ _. length tokens.new < length tokens.old) }
{
    let at = tokens.expect_word(Word::Ret)?;
    let value = expr(alloc, tokens)?;
    Ok(RawTail {
        at,
        form: RawTailForm::Ret(value),
    })
}

/// The action that gives a value.
pub fn ret(alloc: Global, tokens: &mut Tokens) -> Result<(u64, RawAction), Stop>
    ensures ok { IfOk result (λ a. IsAction tokens.old tokens.new a.0 (read_action a.1)) }
    ensures moves { Moves (ActionOf a_action.Ret) tokens.old tokens.new result }
    ensures shorter { IfOk result (λ _. length tokens.new < length tokens.old) }
{
    let at = tokens.expect_word(Word::Ret)?;
    let value = expr(alloc, tokens)?;
    Ok((at, RawAction::Ret(value)))
}

/// The action that waits for a thread.
pub fn sync(tokens: &mut Tokens) -> Result<(u64, RawAction), Stop>
    ensures ok { IfOk result (λ a. IsAction tokens.old tokens.new a.0 (read_action a.1)) }
    ensures moves { Moves (ActionOf a_action.Sync) tokens.old tokens.new result }
    ensures shorter { IfOk result (λ _. length tokens.new < length tokens.old) }
{
    let at = tokens.expect_word(Word::Sync)?;
    let thread = tokens.name()?;
    Ok((at, RawAction::Sync(thread)))
}

/// The action that writes a number.
pub fn output(alloc: Global, tokens: &mut Tokens) -> Result<(u64, RawAction), Stop>
    ensures ok { IfOk result (λ a. IsAction tokens.old tokens.new a.0 (read_action a.1)) }
    ensures moves { Moves (ActionOf a_action.Output) tokens.old tokens.new result }
    ensures shorter { IfOk result (λ _. length tokens.new < length tokens.old) }
{
    let at = tokens.expect_word(Word::Output)?;
    Ok((at, RawAction::Output(expr(alloc, tokens)?)))
}

/// The action that reads a number.
pub fn input(tokens: &mut Tokens) -> Result<(u64, RawAction), Stop>
    ensures ok { IfOk result (λ a. IsAction tokens.old tokens.new a.0 (read_action a.1)) }
    ensures moves { Moves (ActionOf a_action.Input) tokens.old tokens.new result }
    ensures shorter { IfOk result (λ _. length tokens.new < length tokens.old) }
{
    let at = tokens.expect_word(Word::Input)?;
    Ok((at, RawAction::Input))
}

/// The action that calls a procedure.
pub fn call(alloc: Global, tokens: &mut Tokens) -> Result<(u64, RawAction), Stop>
    ensures ok { IfOk result (λ a. IsAction tokens.old tokens.new a.0 (read_action a.1)) }
    ensures moves { Moves (ActionOf a_action.Call) tokens.old tokens.new result }
    ensures shorter { IfOk result (λ _. length tokens.new < length tokens.old) }
{
    let at = tokens.expect_word(Word::Call)?;
    let procedure = tokens.name()?;
    let priorities = call_open(alloc, tokens)?;
    let arguments = listed(alloc, tokens)?;
    tokens.expect_sign(Sign::CloseParen)?;
    let call = boxed_call(alloc, procedure, priorities, arguments)?;
    Ok((at, RawAction::Call(call)))
}

fn boxed_call(
    alloc: Global,
    procedure: Name,
    priorities: Vec<Name>,
    arguments: Vec<RawExpr>,
) -> Result<Box<RawCall>, AllocError>
    ensures { IfOk result (λ b. b.value ≡ record { procedure = procedure; priorities = priorities; arguments = arguments }) }
{
    let call = RawCall {
        procedure,
        priorities,
        arguments,
    };
    Ok(Box::new(alloc, call)?)
}

/// The priorities of a call, if there are any, and the bracket of its arguments.
#[tactic(auto, using(crate::proofs::BlockSteps::choices))]
fn call_open(alloc: Global, tokens: &mut Tokens) -> Result<Vec<Name>, Stop>
    ensures ok { IfOk result (λ ps. (at : _) × IsPriorities tokens.old (sign at a_sign.OpenParen ∷ tokens.new) ps.items) }
    ensures moves { Moves CallOpen tokens.old tokens.new result }
    ensures shorter { IfOk result (λ _. length tokens.new < length tokens.old) }
{
    if tokens.is_at_sign(Sign::OpenParen) {
        no_priorities(alloc, tokens)
    } else {
        priorities(alloc, tokens)
    }
}

fn no_priorities(alloc: Global, tokens: &mut Tokens) -> Result<Vec<Name>, Stop>
    ensures ok { IfOk result (λ ps. (at : _) × IsPriorities tokens.old (sign at a_sign.OpenParen ∷ tokens.new) ps.items) }
    ensures moves { Moves (ASign a_sign.OpenParen) tokens.old tokens.new result }
    ensures shorter { IfOk result (λ _. length tokens.new < length tokens.old) }
{
    tokens.expect_sign(Sign::OpenParen)?;
    Ok(Vec::new(alloc))
}

fn priorities(alloc: Global, tokens: &mut Tokens) -> Result<Vec<Name>, Stop>
    ensures ok { IfOk result (λ ps. (at : _) × IsPriorities tokens.old (sign at a_sign.OpenParen ∷ tokens.new) ps.items) }
    ensures moves { Moves CallPriorities tokens.old tokens.new result }
    ensures shorter { IfOk result (λ _. length tokens.new < length tokens.old) }
{
    tokens.expect_sign(Sign::OpenBracket)?;
    let priorities = listed(alloc, tokens)?;
    tokens.expect_sign(Sign::CloseBracket)?;
    tokens.expect_sign(Sign::OpenParen)?;
    Ok(priorities)
}
