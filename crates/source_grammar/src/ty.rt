//! Types.
#![tactic(auto, using(crate::proofs::Steps::steps, crate::proofs::Forms::forms))]

ghost use Rattle.std.specs.Prelude.{◌≡◌, ◌<◌, IfOk, length};
ghost use Rattle.source_grammar.specs.declared.choice.TyForm.TheVariants as a_ty;
ghost use Rattle.source_grammar.specs.Grammar.{IsWritten};
ghost use Rattle.source_grammar.specs.Inside.Joined.{IsToken, mid_type};
ghost use Rattle.source_grammar.specs.Inside.Machine.{Ty, TyMid, TyOf};
ghost use Rattle.source_grammar.specs.Inside.Next.{mid_form};
ghost use Rattle.source_grammar.specs.RawRead.{read_ty, read_written};
ghost use Rattle.source_grammar.specs.Inside.Stops.{Moves};

use crate::choice::{Mid, TyForm};
use crate::cursor::{Stop, Tokens};
use crate::raw::{RawTy, Written};
use priml_syntax::boxed;
use source_tokens::token::{Kind, Sign, Token, Word};
use std::alloc::{AllocError, Global};

/// A type, with the offset of its first token.
#[cycle(ty)]
#[tactic(auto, using(crate::proofs::Steps::choices))]
pub fn written(alloc: Global, tokens: &mut Tokens) -> Result<Written, Stop>
    ensures ok { IfOk result (λ t. IsWritten tokens.old tokens.new (read_written t)) }
    ensures moves { Moves Ty tokens.old tokens.new result }
    ensures shorter { IfOk result (λ _. length tokens.new < length tokens.old) }
{
    match tokens.ty_form() {
        Some(TyForm::Simple) => simple(tokens),
        Some(TyForm::Thread) => thread(alloc, tokens),
        Some(TyForm::Paired) => paired(alloc, tokens),
        None => Err(Stop::Syntax),
    }
}

/// A type of one word.
#[tactic(auto, using(crate::proofs::Forms::forms), unfolding(crate::specs::Inside::Machine::halt))]
fn simple(tokens: &mut Tokens) -> Result<Written, Stop>
    ensures ok { IfOk result (λ t. IsWritten tokens.old tokens.new (read_written t)) }
    ensures moves { Moves (TyOf a_ty.Simple) tokens.old tokens.new result }
    ensures shorter { IfOk result (λ _. length tokens.new < length tokens.old) }
{
    match tokens.peek() {
        Some(
            Token {
                at,
                kind: Kind::Word(Word::Unit),
            },
        ) => {
            tokens.next();
            Ok(Written {
                at,
                ty: RawTy::Unit,
            })
        }
        Some(
            Token {
                at,
                kind: Kind::Word(Word::Bool),
            },
        ) => {
            tokens.next();
            Ok(Written {
                at,
                ty: RawTy::Bool,
            })
        }
        Some(
            Token {
                at,
                kind: Kind::Word(Word::Int),
            },
        ) => {
            tokens.next();
            Ok(Written { at, ty: RawTy::Int })
        }
        _ => Err(Stop::Syntax),
    }
}

/// The type of a thread.
#[cycle(ty)]
fn thread(alloc: Global, tokens: &mut Tokens) -> Result<Written, Stop>
    ensures ok { IfOk result (λ t. IsWritten tokens.old tokens.new (read_written t)) }
    ensures moves { Moves (TyOf a_ty.Thread) tokens.old tokens.new result }
    ensures shorter { IfOk result (λ _. length tokens.new < length tokens.old) }
{
    let at = tokens.expect_word(Word::Thread)?;
    tokens.expect_sign(Sign::OpenBracket)?;
    let priority = tokens.name()?;
    tokens.expect_sign(Sign::CloseBracket)?;
    tokens.expect_sign(Sign::OpenParen)?;
    let value = written(alloc, tokens)?;
    tokens.expect_sign(Sign::CloseParen)?;
    Ok(Written {
        at,
        ty: RawTy::Thread(priority, boxed(alloc, value.ty)?),
    })
}

/// A pair or a sum, in brackets.
#[cycle(ty)]
fn paired(alloc: Global, tokens: &mut Tokens) -> Result<Written, Stop>
    ensures ok { IfOk result (λ t. IsWritten tokens.old tokens.new (read_written t)) }
    ensures moves { Moves (TyOf a_ty.Paired) tokens.old tokens.new result }
    ensures shorter { IfOk result (λ _. length tokens.new < length tokens.old) }
{
    let at = tokens.expect_sign(Sign::OpenParen)?;
    let first = written(alloc, tokens)?;
    let mid = take_mid(tokens)?;
    let second = written(alloc, tokens)?;
    tokens.expect_sign(Sign::CloseParen)?;
    Ok(Written {
        at,
        ty: joined(alloc, mid, first.ty, second.ty)?,
    })
}

#[tactic(auto, using(crate::proofs::Steps::choices))]
fn take_mid(tokens: &mut Tokens) -> Result<Mid, Stop>
    ensures ok { IfOk result (IsToken mid_form tokens.old tokens.new) }
    ensures moves { Moves TyMid tokens.old tokens.new result }
    ensures shorter { IfOk result (λ _. length tokens.new < length tokens.old) }
{
    match tokens.mid_form() {
        Some(mid) => {
            tokens.next();
            Ok(mid)
        }
        None => Err(Stop::Syntax),
    }
}

fn joined(alloc: Global, mid: Mid, first: RawTy, second: RawTy) -> Result<RawTy, AllocError>
    ensures { IfOk result (λ t. read_ty t ≡ mid_type mid (read_ty first) (read_ty second)) }
{
    let first = boxed(alloc, first)?;
    let second = boxed(alloc, second)?;
    match mid {
        Mid::Star => Ok(RawTy::Pair(first, second)),
        Mid::Plus => Ok(RawTy::Sum(first, second)),
    }
}
