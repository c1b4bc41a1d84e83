//! The distinct names of a text, and what a lexeme means among them.
ghost use Rattle.std.specs.Prelude.{◌≡◌, ◌<◌, IsTrue, IfOk, MatchOption, Some, slice_get};
ghost use Rattle.source_tokens.specs.Lexes.{Spells};
ghost use Rattle.source_tokens.specs.Inside.Forms.{IsForm};
ghost use Rattle.source_tokens.specs.Names.{name_bytes, IsNumbered, IsTooLarge};

use crate::bytes::number;
use crate::form::Form;
use crate::token::Kind;
use crate::word::reserved;
use indexmap::IndexSet;
use std::alloc::{AllocError, Global};

/// How many numbers of recent names are kept.
pub(crate) const RECENT: usize = 128;

/// Where the number of a name stands among the recent ones, if it stands there.
fn place_of(spelling: &[u8]) -> usize
    ensures { result < 128 }
{
    let len = spelling.len();
    if len == 0 {
        return 0;
    }
    let first = spelling[0] as usize;
    let middle = spelling[(len - 1) / 2] as usize;
    let last = spelling[len - 1] as usize;
    (7 * first + 10 * middle + last) % RECENT
}

/// Whether the name of this number has this spelling.
fn is_spelled(names: &IndexSet<Vec<u8>>, id: usize, spelling: &[u8]) -> bool
    ensures { IsTrue result → slice_get (name_bytes names.now) id ≡ Some spelling.now }
{
    match names.get_index(id) {
        Some(name) => name.as_slice() == spelling,
        None => false,
    }
}

/// The number of a name, which joins the names if it is new.
fn number_of(
    alloc: Global,
    names: &mut IndexSet<Vec<u8>>,
    recent: &mut [usize; RECENT],
    spelling: &[u8],
) -> Result<usize, AllocError>
    ensures { IfOk result (λ id. IsNumbered (name_bytes names.old) spelling.now id (name_bytes names.new)) }
{
    // most names came before, and not long ago
    let place = place_of(spelling);
    let known = recent[place];
    if is_spelled(names, known, spelling) {
        return Ok(known);
    }
    let id = number_in(alloc, names, spelling)?;
    recent[place] = id;
    Ok(id)
}

/// The number of a name among all names, which it joins if it is new.
fn number_in(
    alloc: Global,
    names: &mut IndexSet<Vec<u8>>,
    spelling: &[u8],
) -> Result<usize, AllocError>
    ensures { IfOk result (λ id. IsNumbered (name_bytes names.old) spelling.now id (name_bytes names.new)) }
{
    if let Some(id) = names.get_index_of(spelling) {
        return Ok(id);
    }
    let id = names.len();
    names.insert(Vec::from_slice(alloc, spelling)?)?;
    Ok(id)
}

/// What a lexeme means, or `None` for a number of two to the 63 or more.
pub(crate) fn kind_of(
    alloc: Global,
    names: &mut IndexSet<Vec<u8>>,
    recent: &mut [usize; RECENT],
    form: Form,
    lexeme: &[u8],
) -> Result<Option<Kind>, AllocError>
    requires { IsForm form lexeme.now }
    ensures { IfOk result (λ kind. MatchOption kind
        (IsTooLarge form lexeme.now × (names.new ≡ names.old))
        (λ k. Spells (name_bytes names.old) lexeme.now k (name_bytes names.new))) }
{
    match form {
        Form::Word => match reserved(lexeme) {
            Some(word) => Ok(Some(Kind::Word(word))),
            None => Ok(Some(Kind::Name(number_of(alloc, names, recent, lexeme)?))),
        },
        Form::Number => Ok(number(lexeme).map(Kind::Number)),
        Form::Sign(sign) => Ok(Some(Kind::Sign(sign))),
    }
}
