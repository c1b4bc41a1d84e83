//! Procedures.
#![tactic(auto, using(crate::proofs::HeadSteps::steps, crate::proofs::HeadForms::forms))]

ghost use Rattle.std.specs.Prelude.{◌∷◌, IfOk, ◌<◌, length};
ghost use Rattle.source_tokens.specs.declared.token.Sign.TheVariants as a_sign;
ghost use Rattle.source_grammar.specs.Grammar.{IsHead, IsProcedure, IsRoutine, sign};
ghost use Rattle.source_grammar.specs.Inside.Joined.{EndsHead};
ghost use Rattle.source_grammar.specs.Inside.Machine.{ASign, HeadClose, HeadEnd, HeadGiven, HeadOpen, HeadVariables, Procedure, Routine};
ghost use Rattle.source_grammar.specs.RawRead.{read_main, read_proc};
ghost use Rattle.source_grammar.specs.Inside.Stops.{Moves};

use crate::block::block;
use crate::cursor::{Stop, Tokens};
use crate::list::{listed, separated};
use crate::raw::{Name, RawMain, RawProc};
use crate::ty::written;
use source_tokens::token::{Sign, Word};
use std::alloc::Global;

/// The priority variables of a procedure, and the pairs that it is given.
#[derive(Drop)]
struct Head {
    vars: Vec<Name>,
    given: Vec<(Name, Name)>,
}

/// A procedure.
pub fn procedure(alloc: Global, tokens: &mut Tokens) -> Result<RawProc, Stop>
    ensures ok { IfOk result (λ f. IsProcedure tokens.old tokens.new (read_proc f)) }
    ensures moves { Moves Procedure tokens.old tokens.new result }
    ensures shorter { IfOk result (λ _. length tokens.new < length tokens.old) }
{
    let at = tokens.expect_word(Word::Proc)?;
    let name = tokens.name()?;
    let head = head_open(alloc, tokens)?;
    let params = listed(alloc, tokens)?;
    tokens.expect_sign(Sign::CloseParen)?;
    let routine = routine(alloc, at, tokens)?;
    Ok(RawProc {
        at,
        name,
        vars: head.vars,
        given: head.given,
        params,
        own: routine.own,
        result: routine.result,
        body: routine.body,
    })
}

/// The own priority, the result type and the body of the routine at this offset.
pub fn routine(alloc: Global, at: u64, tokens: &mut Tokens) -> Result<RawMain, Stop>
    ensures ok { IfOk result (λ m. IsRoutine tokens.old tokens.new at (read_main m)) }
    ensures moves { Moves Routine tokens.old tokens.new result }
    ensures shorter { IfOk result (λ _. length tokens.new < length tokens.old) }
{
    tokens.expect_word(Word::At)?;
    let own = tokens.name()?;
    tokens.expect_sign(Sign::Colon)?;
    let result = written(alloc, tokens)?;
    let body = block(alloc, tokens)?;
    Ok(RawMain {
        at,
        own,
        result,
        body,
    })
}

/// What stands before the parameters, and their bracket.
#[tactic(auto, using(crate::proofs::HeadSteps::choices))]
fn head_open(alloc: Global, tokens: &mut Tokens) -> Result<Head, Stop>
    ensures ok { IfOk result (λ h. (at : _) × IsHead tokens.old (sign at a_sign.OpenParen ∷ tokens.new) h.vars.items h.given.items) }
    ensures moves { Moves HeadOpen tokens.old tokens.new result }
    ensures shorter { IfOk result (λ _. length tokens.new < length tokens.old) }
{
    if tokens.is_at_sign(Sign::OpenParen) {
        no_head(alloc, tokens)
    } else {
        variables(alloc, tokens)
    }
}

fn no_head(alloc: Global, tokens: &mut Tokens) -> Result<Head, Stop>
    ensures ok { IfOk result (λ h. (at : _) × IsHead tokens.old (sign at a_sign.OpenParen ∷ tokens.new) h.vars.items h.given.items) }
    ensures moves { Moves (ASign a_sign.OpenParen) tokens.old tokens.new result }
    ensures shorter { IfOk result (λ _. length tokens.new < length tokens.old) }
{
    tokens.expect_sign(Sign::OpenParen)?;
    Ok(Head {
        vars: Vec::new(alloc),
        given: Vec::new(alloc),
    })
}

fn variables(alloc: Global, tokens: &mut Tokens) -> Result<Head, Stop>
    ensures ok { IfOk result (λ h. (at : _) × IsHead tokens.old (sign at a_sign.OpenParen ∷ tokens.new) h.vars.items h.given.items) }
    ensures moves { Moves HeadVariables tokens.old tokens.new result }
    ensures shorter { IfOk result (λ _. length tokens.new < length tokens.old) }
{
    tokens.expect_sign(Sign::OpenBracket)?;
    let vars = listed(alloc, tokens)?;
    let given = head_end(alloc, tokens)?;
    Ok(Head { vars, given })
}

/// The given pairs, if there are any, the closing bracket and the bracket of the parameters.
#[tactic(auto, using(crate::proofs::HeadSteps::choices))]
fn head_end(alloc: Global, tokens: &mut Tokens) -> Result<Vec<(Name, Name)>, Stop>
    ensures ok { IfOk result (λ gs. EndsHead tokens.old tokens.new gs.items) }
    ensures moves { Moves HeadEnd tokens.old tokens.new result }
    ensures shorter { IfOk result (λ _. length tokens.new < length tokens.old) }
{
    if tokens.is_at_sign(Sign::CloseBracket) {
        return no_given(alloc, tokens);
    }
    given(alloc, tokens)
}

fn no_given(alloc: Global, tokens: &mut Tokens) -> Result<Vec<(Name, Name)>, Stop>
    ensures ok { IfOk result (λ gs. EndsHead tokens.old tokens.new gs.items) }
    ensures moves { Moves HeadClose tokens.old tokens.new result }
    ensures shorter { IfOk result (λ _. length tokens.new < length tokens.old) }
{
    tokens.expect_sign(Sign::CloseBracket)?;
    tokens.expect_sign(Sign::OpenParen)?;
    Ok(Vec::new(alloc))
}

fn given(alloc: Global, tokens: &mut Tokens) -> Result<Vec<(Name, Name)>, Stop>
    ensures ok { IfOk result (λ gs. EndsHead tokens.old tokens.new gs.items) }
    ensures moves { Moves HeadGiven tokens.old tokens.new result }
    ensures shorter { IfOk result (λ _. length tokens.new < length tokens.old) }
{
    tokens.expect_sign(Sign::Semicolon)?;
    let pairs = separated(alloc, tokens)?;
    tokens.expect_sign(Sign::CloseBracket)?;
    tokens.expect_sign(Sign::OpenParen)?;
    Ok(pairs)
}
