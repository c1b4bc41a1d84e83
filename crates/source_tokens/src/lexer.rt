//! Cuts a text into tokens.
ghost use Rattle.std.specs.Prelude.{◌≡◌, ◌≤◌, ◌<◌, ◌++◌, ◌∷◌, [], ℕ, List, length, IsTrue, IfOk, OnOk, IfSome, IfNone, MatchOption};
ghost use Rattle.source_tokens.specs.declared.token.Token.{Token};
ghost use Rattle.source_tokens.specs.declared.token.Stop.{Stop};
ghost use Rattle.source_tokens.specs.Lexes.{opens, closes, open_behind, IsLexed};
ghost use Rattle.source_tokens.specs.Laws.{AreLawful};
ghost use Rattle.source_tokens.specs.Names.{spellings};
ghost use Rattle.source_tokens.specs.Runs.{joined};

use crate::bytes::skip;
use crate::form::lexeme;
use crate::name::{RECENT, kind_of};
use crate::token::{Kind, Sign, Stop, Token};
use indexmap::IndexSet;
use std::alloc::{AllocError, Global};
use std::mem;

/// How many tokens stand in a run.
const RUN: usize = 4096;

/// The tokens of a text, in runs, its distinct names in the order of their first occurrence, and how it ends.
#[derive(Drop)]
pub struct Lexed {
    pub tokens: Vec<Vec<Token>>,
    pub names: IndexSet<Vec<u8>>,
    pub stop: Stop,
}

// The tokens so far of a text of `total` bytes, and the `rest` of it, before which `depth` brackets are open. The numbers
// of recent names save most searches among all names. Tokens stand in runs, since one piece for all of them would be moved as it
// grows, and its memory would not serve for the tree that is made next.
#[derive(Drop)]
struct Lexer<'a> {
    total: usize,
    rest: &'a [u8],
    depth: usize,
    runs: Vec<Vec<Token>>,
    run: Vec<Token>,
    names: IndexSet<Vec<u8>>,
    recent: [usize; RECENT],
    ghost within: { length rest.now ≤ total },
}

fn opens(kind: Kind) -> bool
    ensures { result ≡ opens kind }
{
    matches!(
        kind,
        Kind::Sign(Sign::OpenParen | Sign::OpenBracket | Sign::OpenBrace)
    )
}

fn closes(kind: Kind) -> bool
    ensures { result ≡ closes kind }
{
    matches!(
        kind,
        Kind::Sign(Sign::CloseParen | Sign::CloseBracket | Sign::CloseBrace)
    )
}

// How many brackets are open behind a token, or `None` where it opens one while 64 are open.
fn open_behind(kind: Kind, depth: usize) -> Option<usize>
    ensures some { IfSome result (λ d. d ≡ open_behind kind depth) }
    ensures shallow { IfSome result (λ d. IsTrue (opens kind) → depth < 64) }
    ensures none { IfNone result (IsTrue (opens kind) × (64 ≤ depth)) }
{
    if opens(kind) {
        if depth < 64 { Some(depth + 1) } else { None }
    } else if closes(kind) {
        Some(depth.saturating_sub(1))
    } else {
        Some(depth)
    }
}

// Appends a token to the last run, or to a new one where that is full.
fn push(
    alloc: Global,
    runs: &mut Vec<Vec<Token>>,
    run: &mut Vec<Token>,
    token: Token,
) -> Result<(), AllocError>
    ensures { OnOk result (joined runs.new.items ++ run.new.items ≡ (joined runs.old.items ++ run.old.items) ++ token ∷ []) }
{
    if run.len() >= RUN {
        let full = mem::replace(run, Vec::with_capacity(alloc, RUN)?);
        runs.push(full)?;
    }
    run.push(token)?;
    Ok(())
}

impl<'a> Lexer<'a> {
    ghost use Rattle.source_tokens.specs.Inside.Lexer.{Completes, Ends};

    // Takes the next token, or answers how the text ends.
    fn advance(&mut self, alloc: Global) -> Result<Option<Stop>, AllocError>
        ensures leads { IfOk result (λ stop. (text : List ℕ) → Completes text self.old →
            MatchOption stop (Completes text self.new) (λ end. Ends text self.new end)) }
        ensures shorter { IfOk result (λ stop. IfNone stop (length self.new.rest.now < length self.old.rest.now)) }
    {
        let rest = skip(self.rest);
        let at = (self.total - rest.len()) as u64;
        let Some((form, len)) = lexeme(rest) else {
            return Ok(Some(if rest.is_empty() {
                Stop::Done
            } else {
                Stop::BadByte(at)
            }));
        };
        let (lexeme, rest) = rest.split_at(len);
        let Some(kind) = kind_of(alloc, &mut self.names, &mut self.recent, form, lexeme)? else {
            return Ok(Some(Stop::BadNumber(at)));
        };
        push(alloc, &mut self.runs, &mut self.run, Token { at, kind })?;
        let Some(depth) = open_behind(kind, self.depth) else {
            return Ok(Some(Stop::TooDeep(at)));
        };
        self.depth = depth;
        self.rest = rest;
        Ok(None)
    }
}

/// Cuts a text into tokens, up to its end or its first fault. The names are distinct. A refusal is want of memory.
pub fn lex(alloc: Global, text: &[u8]) -> Result<Lexed, AllocError>
    ensures cut { IfOk result (λ l. IsLexed text.now (joined l.tokens.items) (spellings l) l.stop) }
    ensures only { IfOk result (λ l. (ts : List Token) (ns : List (List ℕ)) (end : Stop) → IsLexed text.now ts ns end
        → (ts ≡ joined l.tokens.items) × (ns ≡ spellings l) × (end ≡ l.stop)) }
    ensures lawful { IfOk result (λ l. AreLawful (length text.now) (joined l.tokens.items) (spellings l) l.stop) }
{
    let mut lexer = Lexer {
        total: text.len(),
        rest: text,
        depth: 0,
        runs: Vec::new(alloc),
        run: Vec::new(alloc),
        names: IndexSet::new(alloc),
        recent: [0; RECENT],
    };
    loop {
        if let Some(stop) = lexer.advance(alloc)? {
            let Lexer {
                mut runs,
                run,
                names,
                ..
            } = lexer;
            runs.push(run)?;
            return Ok(Lexed {
                tokens: runs,
                names,
                stop,
            });
        }
    }
}
