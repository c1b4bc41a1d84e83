//! Expressions.
#![tactic(auto, using(crate::proofs::Steps::steps, crate::proofs::Forms::forms))]

ghost use Rattle.std.specs.Prelude.{◌≡◌, ◌∷◌, ◌<◌, IfOk, length};
ghost use Rattle.source_tokens.specs.declared.token.Sign.TheVariants as a_sign;
ghost use Rattle.source_grammar.specs.declared.choice.ExprForm.TheVariants as a_expr;
ghost use Rattle.source_grammar.specs.Grammar.{IsExpr, sign};
ghost use Rattle.source_grammar.specs.Inside.Joined.{IsToken, joint_term, prefix_term, side_term};
ghost use Rattle.source_grammar.specs.Inside.Machine.{AJoint, ASign, Behind, Bracketed, Expr, ExprOf, Inside, Joined};
ghost use Rattle.source_grammar.specs.Inside.Next.{joint_form, prefix_word, side_word};
ghost use Rattle.source_grammar.specs.RawRead.{read_expr, read_written};
ghost use Rattle.source_grammar.specs.Inside.Stops.{Moves};

use crate::choice::{ExprForm, Joint, Prefix, Side};
use crate::cursor::{Stop, Tokens};
use crate::raw::{RawExpr, RawForm, RawInjection, RawTwo, Written};
use crate::ty::written;
use priml_syntax::boxed;
use source_tokens::token::{Kind, Sign, Token, Word};
use std::alloc::{AllocError, Global};

/// An expression.
#[cycle(expr)]
#[tactic(auto, using(crate::proofs::Steps::choices))]
pub fn expr(alloc: Global, tokens: &mut Tokens) -> Result<RawExpr, Stop>
    ensures ok { IfOk result (λ e. IsExpr tokens.old tokens.new (read_expr e)) }
    ensures moves { Moves Expr tokens.old tokens.new result }
    ensures shorter { IfOk result (λ _. length tokens.new < length tokens.old) }
{
    match tokens.expr_form() {
        Some(ExprForm::Leaf) => leaf(tokens),
        Some(ExprForm::Opened) => opened(alloc, tokens),
        Some(ExprForm::Applied(prefix)) => applied(alloc, prefix, tokens),
        Some(ExprForm::Injected(side)) => injected(alloc, side, tokens),
        None => Err(Stop::Syntax),
    }
}

/// An expression of one token.
#[tactic(auto, using(crate::proofs::Forms::forms), unfolding(crate::specs::Inside::Machine::halt))]
fn leaf(tokens: &mut Tokens) -> Result<RawExpr, Stop>
    ensures ok { IfOk result (λ e. IsExpr tokens.old tokens.new (read_expr e)) }
    ensures moves { Moves (ExprOf a_expr.Leaf) tokens.old tokens.new result }
    ensures shorter { IfOk result (λ _. length tokens.new < length tokens.old) }
{
    match tokens.peek() {
        Some(
            Token {
                at,
                kind: Kind::Name(id),
            },
        ) => {
            tokens.next();
            Ok(RawExpr {
                at,
                form: RawForm::Var(id),
            })
        }
        Some(
            Token {
                at,
                kind: Kind::Number(n),
            },
        ) => {
            tokens.next();
            Ok(RawExpr {
                at,
                form: RawForm::Int(n),
            })
        }
        Some(
            Token {
                at,
                kind: Kind::Word(Word::True),
            },
        ) => {
            tokens.next();
            Ok(RawExpr {
                at,
                form: RawForm::Bool(true),
            })
        }
        Some(
            Token {
                at,
                kind: Kind::Word(Word::False),
            },
        ) => {
            tokens.next();
            Ok(RawExpr {
                at,
                form: RawForm::Bool(false),
            })
        }
        _ => Err(Stop::Syntax),
    }
}

/// An expression that begins with a bracket.
#[cycle(expr)]
fn opened(alloc: Global, tokens: &mut Tokens) -> Result<RawExpr, Stop>
    ensures ok { IfOk result (λ e. IsExpr tokens.old tokens.new (read_expr e)) }
    ensures moves { Moves (ExprOf a_expr.Opened) tokens.old tokens.new result }
    ensures shorter { IfOk result (λ _. length tokens.new < length tokens.old) }
{
    let at = tokens.expect_sign(Sign::OpenParen)?;
    inside(alloc, at, tokens)
}

/// What comes behind the bracket at this offset.
#[cycle(expr)]
#[tactic(auto, using(crate::proofs::Steps::choices))]
fn inside(alloc: Global, at: u64, tokens: &mut Tokens) -> Result<RawExpr, Stop>
    ensures ok { IfOk result (λ e. IsExpr (sign at a_sign.OpenParen ∷ tokens.old) tokens.new (read_expr e)) }
    ensures moves { Moves Inside tokens.old tokens.new result }
    ensures shorter { IfOk result (λ _. length tokens.new < length tokens.old) }
{
    if tokens.is_at_sign(Sign::CloseParen) {
        unit_term(at, tokens)
    } else {
        bracketed(alloc, at, tokens)
    }
}

#[tactic(auto, using(crate::proofs::Forms::forms))]
fn unit_term(at: u64, tokens: &mut Tokens) -> Result<RawExpr, Stop>
    ensures ok { IfOk result (λ e. IsExpr (sign at a_sign.OpenParen ∷ tokens.old) tokens.new (read_expr e)) }
    ensures moves { Moves (ASign a_sign.CloseParen) tokens.old tokens.new result }
    ensures shorter { IfOk result (λ _. length tokens.new < length tokens.old) }
{
    tokens.expect_sign(Sign::CloseParen)?;
    Ok(RawExpr {
        at,
        form: RawForm::Unit,
    })
}

#[cycle(expr)]
fn bracketed(alloc: Global, at: u64, tokens: &mut Tokens) -> Result<RawExpr, Stop>
    ensures ok { IfOk result (λ e. IsExpr (sign at a_sign.OpenParen ∷ tokens.old) tokens.new (read_expr e)) }
    ensures moves { Moves Bracketed tokens.old tokens.new result }
    ensures shorter { IfOk result (λ _. length tokens.new < length tokens.old) }
{
    let first = expr(alloc, tokens)?;
    behind(alloc, at, first, tokens)
}

/// What comes behind the bracket at this offset and an expression.
#[cycle(expr)]
#[tactic(auto, using(crate::proofs::Steps::choices))]
fn behind(alloc: Global, at: u64, first: RawExpr, tokens: &mut Tokens) -> Result<RawExpr, Stop>
    ensures ok { IfOk result
        (λ e. (ts : _) → IsExpr ts tokens.old (read_expr first) → IsExpr (sign at a_sign.OpenParen ∷ ts) tokens.new (read_expr e)) }
    ensures moves { Moves Behind tokens.old tokens.new result }
    ensures shorter { IfOk result (λ _. length tokens.new < length tokens.old) }
{
    if tokens.is_at_sign(Sign::CloseParen) {
        closed(at, first, tokens)
    } else {
        joined(alloc, at, first, tokens)
    }
}

#[tactic(auto, using(crate::proofs::Forms::forms))]
fn closed(at: u64, first: RawExpr, tokens: &mut Tokens) -> Result<RawExpr, Stop>
    ensures ok { IfOk result
        (λ e. (ts : _) → IsExpr ts tokens.old (read_expr first) → IsExpr (sign at a_sign.OpenParen ∷ ts) tokens.new (read_expr e)) }
    ensures moves { Moves (ASign a_sign.CloseParen) tokens.old tokens.new result }
    ensures shorter { IfOk result (λ _. length tokens.new < length tokens.old) }
{
    tokens.expect_sign(Sign::CloseParen)?;
    Ok(first)
}

#[cycle(expr)]
fn joined(alloc: Global, at: u64, first: RawExpr, tokens: &mut Tokens) -> Result<RawExpr, Stop>
    ensures ok { IfOk result
        (λ e. (ts : _) → IsExpr ts tokens.old (read_expr first) → IsExpr (sign at a_sign.OpenParen ∷ ts) tokens.new (read_expr e)) }
    ensures moves { Moves Joined tokens.old tokens.new result }
    ensures shorter { IfOk result (λ _. length tokens.new < length tokens.old) }
{
    let joint = take_joint(tokens)?;
    let second = expr(alloc, tokens)?;
    tokens.expect_sign(Sign::CloseParen)?;
    Ok(join(alloc, at, joint, first, second)?)
}

/// A comma or an operator.
#[tactic(auto, using(crate::proofs::Steps::choices), unfolding(crate::specs::Inside::Machine::halt))]
fn take_joint(tokens: &mut Tokens) -> Result<Joint, Stop>
    ensures ok { IfOk result (IsToken joint_form tokens.old tokens.new) }
    ensures moves { Moves AJoint tokens.old tokens.new result }
    ensures shorter { IfOk result (λ _. length tokens.new < length tokens.old) }
{
    match tokens.joint_form() {
        Some(joint) => {
            tokens.next();
            Ok(joint)
        }
        None => Err(Stop::Syntax),
    }
}

/// A word and an expression in brackets.
#[cycle(expr)]
fn applied(alloc: Global, prefix: Prefix, tokens: &mut Tokens) -> Result<RawExpr, Stop>
    ensures ok { IfOk result (λ e. IsExpr tokens.old tokens.new (read_expr e)) }
    ensures moves { Moves (ExprOf (a_expr.Applied prefix)) tokens.old tokens.new result }
    ensures shorter { IfOk result (λ _. length tokens.new < length tokens.old) }
{
    let at = tokens.expect_word(prefix.word())?;
    tokens.expect_sign(Sign::OpenParen)?;
    let value = expr(alloc, tokens)?;
    tokens.expect_sign(Sign::CloseParen)?;
    Ok(prefix.apply(alloc, at, value)?)
}

/// A side of a sum: a word, a type in square brackets and an expression in brackets.
#[cycle(expr)]
fn injected(alloc: Global, side: Side, tokens: &mut Tokens) -> Result<RawExpr, Stop>
    ensures ok { IfOk result (λ e. IsExpr tokens.old tokens.new (read_expr e)) }
    ensures moves { Moves (ExprOf (a_expr.Injected side)) tokens.old tokens.new result }
    ensures shorter { IfOk result (λ _. length tokens.new < length tokens.old) }
{
    let at = tokens.expect_word(side.word())?;
    tokens.expect_sign(Sign::OpenBracket)?;
    let ty = written(alloc, tokens)?;
    tokens.expect_sign(Sign::CloseBracket)?;
    tokens.expect_sign(Sign::OpenParen)?;
    let value = expr(alloc, tokens)?;
    tokens.expect_sign(Sign::CloseParen)?;
    Ok(side.inject(alloc, at, ty, value)?)
}

impl Prefix {
    fn word(self) -> Word
        ensures { result ≡ prefix_word self }
    {
        match self {
            Prefix::First => Word::Fst,
            Prefix::Second => Word::Snd,
            Prefix::Negated => Word::Not,
        }
    }

    fn apply(self, alloc: Global, at: u64, value: RawExpr) -> Result<RawExpr, AllocError>
        ensures { IfOk result (λ e. read_expr e ≡ prefix_term self at (read_expr value)) }
    {
        let value = boxed(alloc, value)?;
        let form = match self {
            Prefix::First => RawForm::Fst(value),
            Prefix::Second => RawForm::Snd(value),
            Prefix::Negated => RawForm::Not(value),
        };
        Ok(RawExpr { at, form })
    }
}

impl Side {
    fn word(self) -> Word
        ensures { result ≡ side_word self }
    {
        match self {
            Side::Left => Word::Inl,
            Side::Right => Word::Inr,
        }
    }

    fn inject(
        self,
        alloc: Global,
        at: u64,
        ty: Written,
        value: RawExpr,
    ) -> Result<RawExpr, AllocError>
        ensures { IfOk result (λ e. read_expr e ≡ side_term self at (read_written ty) (read_expr value)) }
    {
        let injection = boxed_injection(alloc, ty, value)?;
        let form = match self {
            Side::Left => RawForm::Inl(injection),
            Side::Right => RawForm::Inr(injection),
        };
        Ok(RawExpr { at, form })
    }
}

fn join(
    alloc: Global,
    at: u64,
    joint: Joint,
    first: RawExpr,
    second: RawExpr,
) -> Result<RawExpr, AllocError>
    ensures { IfOk result (λ e. read_expr e ≡ joint_term joint at (read_expr first) (read_expr second)) }
{
    let both = boxed_two(alloc, first, second)?;
    let form = match joint {
        Joint::Comma => RawForm::Pair(both),
        Joint::Operator(op) => RawForm::Op(op, both),
    };
    Ok(RawExpr { at, form })
}

fn boxed_two(alloc: Global, first: RawExpr, second: RawExpr) -> Result<Box<RawTwo>, AllocError>
    ensures first { IfOk result (λ b. read_expr b.value.first ≡ read_expr first) }
    ensures second { IfOk result (λ b. read_expr b.value.second ≡ read_expr second) }
{
    Ok(Box::new(alloc, RawTwo { first, second })?)
}

fn boxed_injection(
    alloc: Global,
    sum: Written,
    value: RawExpr,
) -> Result<Box<RawInjection>, AllocError>
    ensures sum { IfOk result (λ b. b.value.sum ≡ sum) }
    ensures value { IfOk result (λ b. read_expr b.value.value ≡ read_expr value) }
{
    Ok(Box::new(alloc, RawInjection { sum, value })?)
}
