//! Lists with commas between their parts.

ghost use Rattle.std.specs.Prelude.{List, ◌∷◌, [], ◌<◌, ◌≤◌, IfOk, length};
ghost use Rattle.source_tokens.specs.declared.token.Token.{Token};
ghost use Rattle.source_grammar.specs.Grammar.{IsConstraint, IsExpr, IsListed, IsName, IsParameter, IsSeparated};
ghost use Rattle.source_grammar.specs.Inside.Joined.{IsBehindComma};
ghost use Rattle.source_grammar.specs.Inside.Machine.{AName, AtEnd, BehindComma, End, Expr, Given, Listed, Parameter, Separated, Symbol};
ghost use Rattle.source_grammar.specs.RawRead.{read_expr, read_param};
ghost use Rattle.source_grammar.specs.Inside.Stops.{Moves, MovesTo};
ghost use Rattle.source_grammar.specs.Inside.Ends.{BeginsOtherwise, expr_no_end, given_no_end, name_no_end, parameter_no_end};

use crate::cursor::{Stop, Tokens};
use crate::expr::expr;
use crate::raw::{Name, RawExpr, RawParam};
use crate::ty::written;
use priml_syntax::push;
use source_tokens::token::Sign;
use std::alloc::Global;

/// A part of a list.
pub trait Item: Drop + Sized {
    // what a part is to the machine
    ghost symbol: { Symbol };

    // which tokens stand for which part, and what is left behind them
    ghost stands_for: { List Token → List Token → Self → Type 0 };

    /// The next part.
    fn item(alloc: Global, tokens: &mut Tokens) -> Result<Self, Stop>
        ensures ok { IfOk result (λ x. stands_for tokens.old tokens.new x) }
        ensures moves { Moves symbol tokens.old tokens.new result }
        ensures shorter { IfOk result (λ _. length tokens.new < length tokens.old) };

    // what ends a list begins no part
    ghost begins_otherwise: { BeginsOtherwise symbol };
}

impl Item for Name {
    ghost symbol = { AName };

    ghost stands_for = { λ ts rest n. IsName ts rest n };

    ghost begins_otherwise = { name_no_end };

    #[tactic(auto, using(crate::proofs::Forms::forms))]
    fn item(_alloc: Global, tokens: &mut Tokens) -> Result<Name, Stop> {
        tokens.name()
    }
}

impl Item for RawExpr {
    ghost symbol = { Expr };

    ghost stands_for = { λ ts rest e. IsExpr ts rest (read_expr e) };

    ghost begins_otherwise = { expr_no_end };

    fn item(alloc: Global, tokens: &mut Tokens) -> Result<RawExpr, Stop> {
        expr(alloc, tokens)
    }
}

impl Item for (Name, Name) {
    ghost symbol = { Given };

    ghost stands_for = { λ ts rest g. IsConstraint ts rest g };

    ghost begins_otherwise = { given_no_end };

    #[tactic(auto, using(crate::proofs::Steps::steps, crate::proofs::Forms::forms))]
    fn item(_alloc: Global, tokens: &mut Tokens) -> Result<(Name, Name), Stop> {
        let lower = tokens.name()?;
        tokens.expect_sign(Sign::AtMost)?;
        let upper = tokens.name()?;
        Ok((lower, upper))
    }
}

impl Item for RawParam {
    ghost symbol = { Parameter };

    ghost stands_for = { λ ts rest p. IsParameter ts rest (read_param p) };

    ghost begins_otherwise = { parameter_no_end };

    #[tactic(auto, using(crate::proofs::Steps::steps, crate::proofs::Forms::forms))]
    fn item(alloc: Global, tokens: &mut Tokens) -> Result<RawParam, Stop> {
        let name = tokens.name()?;
        tokens.expect_sign(Sign::Colon)?;
        let ty = written(alloc, tokens)?;
        Ok(RawParam { name, ty })
    }
}

/// None or more, before what ends a list.
#[tactic(auto, using(crate::proofs::CommaLists::lists))]
pub fn listed<T: Item>(alloc: Global, tokens: &mut Tokens) -> Result<Vec<T>, Stop>
    ensures ok { IfOk result (λ xs. IsListed T.stands_for tokens.old tokens.new xs.items) }
    ensures moves { (e : End) → MovesTo (Listed T.symbol e) (AtEnd e ∷ []) tokens.old tokens.new result }
    ensures shorter { IfOk result (λ _. length tokens.new ≤ length tokens.old) }
{
    if tokens.is_at_end() {
        return Ok(Vec::new(alloc));
    }
    separated(alloc, tokens)
}

/// One or more.
#[tactic(auto, using(crate::proofs::CommaLists::lists))]
pub fn separated<T: Item>(alloc: Global, tokens: &mut Tokens) -> Result<Vec<T>, Stop>
    ensures ok { IfOk result (λ xs. IsSeparated T.stands_for tokens.old tokens.new xs.items) }
    ensures moves { (e : End) → MovesTo (Separated T.symbol e) (AtEnd e ∷ []) tokens.old tokens.new result }
    ensures shorter { IfOk result (λ _. length tokens.new < length tokens.old) }
{
    let mut items = Vec::new(alloc);
    let first = T::item(alloc, tokens)?;
    push(&mut items, first)?;
    'items: while tokens.is_at_sign(Sign::Comma) {
        let item = behind_comma(alloc, tokens)?;
        push(&mut items, item)?;
    }
    Ok(items)
}

#[tactic(auto, using(crate::proofs::CommaLists::lists))]
fn behind_comma<T: Item>(alloc: Global, tokens: &mut Tokens) -> Result<T, Stop>
    ensures ok { IfOk result (λ x. IsBehindComma T.stands_for tokens.old tokens.new x) }
    ensures moves { Moves (BehindComma T.symbol) tokens.old tokens.new result }
    ensures shorter { IfOk result (λ _. length tokens.new < length tokens.old) }
{
    tokens.expect_sign(Sign::Comma)?;
    T::item(alloc, tokens)
}
