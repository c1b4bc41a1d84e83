//! Reads the text of a program.

ghost use Rattle.std.specs.Prelude.{◌≡◌, ◌≢◌, [], ℕ, List, None, IsAscii, IfOk, IfErr, slice_get};
ghost use Rattle.std.specs.List.{All};
ghost use Rattle.indexmap.specs.IndexSet.{index_set_len};
ghost use Rattle.priml_syntax.specs.Tree.{Tree};
ghost use Rattle.priml_syntax.specs.Read.{read_program};
ghost use Rattle.priml_syntax.specs.Scoped.{IsScoped};
ghost use Rattle.source_tokens.specs.Lexes.{IsLexed};
ghost use Rattle.source_tokens.specs.Laws.{AreShallow};
ghost use Rattle.source_tokens.specs.Names.{name_bytes};
ghost use Rattle.source_tokens.specs.Runs.{joined};
ghost use Rattle.source_grammar.specs.Faults.{IsUnexpected};
ghost use Rattle.source_grammar.specs.Grammar.{IsProgram};
ghost use Rattle.source_grammar.specs.RawRead.{read_raw};
ghost use Rattle.source_grammar.specs.RawTree.{RawTree};
ghost use Rattle.source_reader.specs.Faults.{faults};
ghost use Rattle.source_reader.specs.Resolved.{resolved};
ghost use Rattle.source_reader.specs.Inside.Fits.{Fits};
ghost use Rattle.source_reader.specs.Inside.Written.{IsWrittenAs, IsFirstOf, stop_fault};
ghost use Rattle.source_reader.specs.Stands.{Stands, IsFaultOf, IsRefused, as_source};

use crate::faults::{Fault, ResolveStop, What};
use crate::resolve::resolve;
use indexmap::IndexSet;
use priml_syntax::Program;
use source_grammar::raw::RawProgram;
use source_grammar::{ParseStop, parse};
use source_tokens::lexer::{Lexed, lex};
use source_tokens::token::{Stop, Token};
use std::alloc::Global;
use std::mem::forget;

/// Why a text gives no program. Each but the last has the offset of a byte. The tokens of the whole text are looked at first, and of their faults the
/// earliest place decides; only where they are those of a program, names and limits are. At one place the smaller number of the kind decides.
#[derive(Clone, Copy, Debug, PartialEq, Eq)]
pub enum SourceFault {
    /// 1: the byte begins no token and is no separator.
    BadByte(u64),
    /// 2: the number is two to the 63 or more.
    BadNumber(u64),
    /// 3: with the token here the text leaves the grammar; or the text ends here before the program does.
    Unexpected(u64),
    /// 4: the name stands for nothing in scope.
    UnknownName(u64),
    /// 5: the name is declared a second time.
    TwiceNamed(u64),
    /// 6: the bracket opens while 64 are open.
    TooDeep(u64),
    /// 7: what stands here is one too many of its kind.
    TooMany(u64, What),
    /// 8: the program does not fit in memory.
    OutOfMemory,
}

/// The program that a text stands for; it is the only one. Where it stands for none, its fault.
pub fn read_source(alloc: Global, text: &[u8]) -> Result<Program, SourceFault>
    ensures program { IfOk result (λ p. Stands text.now (read_program p)) }
    ensures scoped { IfOk result (λ p. IsScoped (read_program p)) }
    ensures only { IfOk result (λ p. (q : Tree) → Stands text.now q → q ≡ read_program p) }
    ensures refused { IfErr result (IsRefused text.now) }
    ensures one { IfErr result (λ e. e ≢ SourceFault.OutOfMemory → (f : SourceFault) → IsFaultOf text.now f → f ≡ e) }
{
    let (program, _tree) = read_source_with_tree(alloc, text)?;
    Ok(program)
}

/// The same, for a process that ends soon: the tree that is read on the way stays in memory, since to free it node by node takes as long
/// as to resolve it.
pub fn read_source_leaving_tree(alloc: Global, text: &[u8]) -> Result<Program, SourceFault>
    ensures program { IfOk result (λ p. Stands text.now (read_program p)) }
    ensures scoped { IfOk result (λ p. IsScoped (read_program p)) }
    ensures only { IfOk result (λ p. (q : Tree) → Stands text.now q → q ≡ read_program p) }
    ensures refused { IfErr result (IsRefused text.now) }
    ensures one { IfErr result (λ e. e ≢ SourceFault.OutOfMemory → (f : SourceFault) → IsFaultOf text.now f → f ≡ e) }
{
    let (program, tree) = read_source_with_tree(alloc, text)?;
    forget(tree);
    Ok(program)
}

// The program, with the tree that was read on the way.
fn read_source_with_tree(alloc: Global, text: &[u8]) -> Result<(Program, SourceTree), SourceFault>
    ensures program { IfOk result (λ r. Stands text.now (read_program r.0)) }
    ensures scoped { IfOk result (λ r. IsScoped (read_program r.0)) }
    ensures only { IfOk result (λ r. (q : Tree) → Stands text.now q → q ≡ read_program r.0) }
    ensures refused { IfErr result (IsRefused text.now) }
    ensures one { IfErr result (λ e. e ≢ SourceFault.OutOfMemory → (f : SourceFault) → IsFaultOf text.now f → f ≡ e) }
{
    let tree = written(alloc, text)?;
    let program = program(alloc, &tree)?;
    Ok((program, tree))
}

// A text as a tree over its distinct names, which are not resolved.
#[derive(Drop)]
struct SourceTree {
    names: IndexSet<Vec<u8>>,
    raw: RawProgram,
}

// The tree that the text is written as.
fn written(alloc: Global, text: &[u8]) -> Result<SourceTree, SourceFault>
    ensures written { IfOk result (λ w. IsWrittenAs text.now (name_bytes w.names) (read_raw w.raw)) }
    ensures only { IfOk result (λ w. (ns : List (List ℕ)) (q : RawTree) → IsWrittenAs text.now ns q → (ns ≡ name_bytes w.names) × (q ≡ read_raw w.raw)) }
    ensures refused { IfErr result (IsRefused text.now) }
{
    let Ok(lexed) = lex(alloc, text) else {
        return Err(SourceFault::OutOfMemory);
    };
    let Lexed {
        tokens,
        names,
        stop,
    } = lexed;
    let raw = whole(alloc, text, &tokens, stop)?;
    Ok(SourceTree { names, raw })
}

// The tree of these tokens, if they are those of the whole text.
fn whole(
    alloc: Global,
    text: &[u8],
    runs: &[Vec<Token>],
    stop: Stop,
) -> Result<RawProgram, SourceFault>
    requires { AreShallow 0 (joined runs.now) }
    ensures derived { IfOk result (λ raw. IsProgram (joined runs.now) (read_raw raw)) }
    ensures only { IfOk result (λ raw. (q : RawTree) → IsProgram (joined runs.now) q → q ≡ read_raw raw) }
    ensures done { IfOk result (λ raw. stop ≡ Stop.Done) }
    ensures refused { IfErr result (λ e. (ns : List (List ℕ)) → IsLexed text.now (joined runs.now) ns stop → IsRefused text.now e) }
{
    match parse(alloc, runs) {
        Ok(raw) => match fault_of(stop) {
            None => Ok(raw),
            Some(fault) => Err(fault),
        },
        Err(ParseStop::Unexpected(Some(token))) => Err(SourceFault::Unexpected(token.at)),
        Err(ParseStop::Unexpected(None)) => Err(cut_off(text, stop)),
        Err(ParseStop::OutOfMemory) => Err(SourceFault::OutOfMemory),
    }
}

// The fault of a text whose tokens all begin a program and are none.
fn cut_off(text: &[u8], stop: Stop) -> SourceFault
    ensures { (ts : List Token) (ns : List (List ℕ)) (n : ℕ) → slice_get ts n ≡ None → IsUnexpected ts n →
        IsLexed text.now ts ns stop → IsRefused text.now result }
{
    match fault_of(stop) {
        Some(fault) => fault,
        None => SourceFault::Unexpected(text.len() as u64),
    }
}

// The fault at which a text stops before its end.
fn fault_of(stop: Stop) -> Option<SourceFault>
    ensures { result ≡ stop_fault stop }
{
    match stop {
        Stop::Done => None,
        Stop::BadByte(at) => Some(SourceFault::BadByte(at)),
        Stop::BadNumber(at) => Some(SourceFault::BadNumber(at)),
        Stop::TooDeep(at) => Some(SourceFault::TooDeep(at)),
    }
}

// The program that the tree stands for, by the distinct names of its text.
fn program(alloc: Global, tree: &SourceTree) -> Result<Program, SourceFault>
    requires fits { Fits (index_set_len tree.now.names) (read_raw tree.now.raw) }
    requires ascii { All IsAscii (name_bytes tree.now.names) }
    ensures clean { IfOk result (λ p. faults (read_raw tree.now.raw) ≡ []) }
    ensures meant { IfOk result (λ p. resolved (name_bytes tree.now.names) (read_raw tree.now.raw) ≡ read_program p) }
    ensures refused { IfErr result (λ e. e ≢ SourceFault.OutOfMemory → IsFirstOf (faults (read_raw tree.now.raw)) e) }
{
    match resolve(alloc, &tree.names, &tree.raw) {
        Ok(program) => Ok(program),
        Err(ResolveStop::Fault(fault)) => Err(in_text(fault)),
        Err(ResolveStop::OutOfMemory) => Err(SourceFault::OutOfMemory),
    }
}

// A fault of names and limits as one of the text.
fn in_text(fault: Fault) -> SourceFault
    ensures { result ≡ as_source fault }
{
    match fault {
        Fault::UnknownName(at) => SourceFault::UnknownName(at),
        Fault::TwiceNamed(at) => SourceFault::TwiceNamed(at),
        Fault::TooMany(at, what) => SourceFault::TooMany(at, what),
    }
}
