//! Declarations, the main procedure and the program.
#![tactic(auto, using(crate::proofs::HeadSteps::steps, crate::proofs::HeadForms::forms))]

ghost use Rattle.std.specs.Prelude.{◌≡◌, ◌∷◌, [], IfOk, IfErr, ◌<◌, length, map};
ghost use Rattle.source_grammar.specs.Faults.{HasNoTree, TokenIsAt};
ghost use Rattle.source_grammar.specs.Grammar.{IsDecls, IsMain, IsProgram};
ghost use Rattle.source_grammar.specs.Inside.Machine.{Main, Order, Priority, Program, declaration_symbol};
ghost use Rattle.source_grammar.specs.RawRead.{read_decl, read_main, read_raw};
ghost use Rattle.source_grammar.specs.RawTree.{RawTree};
ghost use Rattle.source_grammar.specs.Inside.Stops.{Moves, MovesAll, MovesTo};
ghost use Rattle.source_tokens.specs.Laws.{AreShallow};
ghost use Rattle.source_tokens.specs.Runs.{joined};

use crate::choice::DeclarationForm;
use crate::cursor::{Stop, Tokens};
use crate::head::{procedure, routine};
use crate::raw::{RawDecl, RawMain, RawProgram};
use priml_syntax::push;
use source_tokens::token::{Sign, Token, Word};
use std::alloc::Global;

/// Why tokens stand for no program.
#[derive(Clone, Copy, Debug, PartialEq, Eq)]
pub enum ParseStop {
    /// The first token with which the text leaves the grammar; none where that is the end of the tokens.
    Unexpected(Option<Token>),
    /// The tree does not fit in memory.
    OutOfMemory,
}

/// The tree of a text's tokens, which are in runs. It is the only one. The calls nest as deep as the brackets, of which few are open.
pub fn parse(alloc: Global, runs: &[Vec<Token>]) -> Result<RawProgram, ParseStop>
    requires { AreShallow 0 (joined runs.now) }
    ensures program { IfOk result (λ p. IsProgram (joined runs.now) (read_raw p)) }
    ensures only { IfOk result (λ p. (q : RawTree) → IsProgram (joined runs.now) q → q ≡ read_raw p) }
    ensures none { IfErr result (HasNoTree (joined runs.now)) }
    ensures unexpected { IfErr result (TokenIsAt (joined runs.now)) }
{
    let mut rest = Tokens::new(runs);
    match program(alloc, &mut rest) {
        Ok(program) => Ok(program),
        Err(Stop::Syntax) => Err(ParseStop::Unexpected(rest.peek())),
        Err(Stop::Memory) => Err(ParseStop::OutOfMemory),
    }
}

/// A program, and then no token more.
fn program(alloc: Global, tokens: &mut Tokens) -> Result<RawProgram, Stop>
    ensures ok { IfOk result (λ p. IsProgram tokens.old (read_raw p)) }
    ensures moves { MovesAll (Program ∷ []) tokens.old tokens.new result }
{
    let decls = declarations(alloc, tokens)?;
    let main = main(alloc, tokens)?;
    tokens.expect_end()?;
    Ok(RawProgram { decls, main })
}

/// The declarations, as far as they come.
fn declarations(alloc: Global, tokens: &mut Tokens) -> Result<Vec<RawDecl>, Stop>
    ensures ok { IfOk result (λ ds. IsDecls tokens.old tokens.new (map read_decl ds.items)) }
    ensures moves { MovesTo Program (Main ∷ []) tokens.old tokens.new result }
{
    let mut declarations = Vec::new(alloc);
    'declarations: while let Some(form) = tokens.declaration_form() {
        let declaration = declaration(alloc, form, tokens)?;
        push(&mut declarations, declaration)?;
    }
    Ok(declarations)
}

#[tactic(auto, using(crate::proofs::HeadForms::forms))]
fn declaration(alloc: Global, form: DeclarationForm, tokens: &mut Tokens) -> Result<RawDecl, Stop>
    ensures ok { IfOk result (λ d. IsDecls tokens.old tokens.new (read_decl d ∷ [])) }
    ensures moves { Moves (declaration_symbol form) tokens.old tokens.new result }
    ensures shorter { IfOk result (λ _. length tokens.new < length tokens.old) }
{
    match form {
        DeclarationForm::Priority => priority(tokens),
        DeclarationForm::Order => order(tokens),
        DeclarationForm::Procedure => Ok(RawDecl::Proc(procedure(alloc, tokens)?)),
    }
}

fn priority(tokens: &mut Tokens) -> Result<RawDecl, Stop>
    ensures ok { IfOk result (λ d. IsDecls tokens.old tokens.new (read_decl d ∷ [])) }
    ensures moves { Moves Priority tokens.old tokens.new result }
    ensures shorter { IfOk result (λ _. length tokens.new < length tokens.old) }
{
    tokens.expect_word(Word::Priority)?;
    let name = tokens.name()?;
    tokens.expect_sign(Sign::Semicolon)?;
    Ok(RawDecl::Priority(name))
}

fn order(tokens: &mut Tokens) -> Result<RawDecl, Stop>
    ensures ok { IfOk result (λ d. IsDecls tokens.old tokens.new (read_decl d ∷ [])) }
    ensures moves { Moves Order tokens.old tokens.new result }
    ensures shorter { IfOk result (λ _. length tokens.new < length tokens.old) }
{
    let at = tokens.expect_word(Word::Order)?;
    let lower = tokens.name()?;
    tokens.expect_sign(Sign::Less)?;
    let upper = tokens.name()?;
    tokens.expect_sign(Sign::Semicolon)?;
    Ok(RawDecl::Order(at, lower, upper))
}

fn main(alloc: Global, tokens: &mut Tokens) -> Result<RawMain, Stop>
    ensures ok { IfOk result (λ m. IsMain tokens.old tokens.new (read_main m)) }
    ensures moves { Moves Main tokens.old tokens.new result }
{
    let at = tokens.expect_word(Word::Main)?;
    routine(alloc, at, tokens)
}
