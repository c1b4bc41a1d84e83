//! The reserved words.
ghost use Rattle.std.specs.Prelude.{◌≡◌, ◌≢◌, IfSome, IfNone};
ghost use Rattle.source_tokens.specs.declared.token.Word.{Word};
ghost use Rattle.source_tokens.specs.Lexemes.{word_spelling};

use crate::token::Word;

/// The reserved word that these bytes spell.
pub(crate) fn reserved(word: &[u8]) -> Option<Word>
    ensures found { IfSome result (λ w. word.now ≡ word_spelling w) }
    ensures none { IfNone result ((w : Word) → word.now ≢ word_spelling w) }
{
    match word {
        b"at" => Some(Word::At),
        b"do" => Some(Word::Do),
        b"if" => Some(Word::If),
        b"or" => Some(Word::Or),
        b"ret" => Some(Word::Ret),
        b"inl" => Some(Word::Inl),
        b"inr" => Some(Word::Inr),
        b"fst" => Some(Word::Fst),
        b"snd" => Some(Word::Snd),
        b"not" => Some(Word::Not),
        b"and" => Some(Word::And),
        b"int" => Some(Word::Int),
        b"proc" => Some(Word::Proc),
        b"main" => Some(Word::Main),
        b"sync" => Some(Word::Sync),
        b"call" => Some(Word::Call),
        b"else" => Some(Word::Else),
        b"case" => Some(Word::Case),
        b"true" => Some(Word::True),
        b"unit" => Some(Word::Unit),
        b"bool" => Some(Word::Bool),
        b"order" => Some(Word::Order),
        b"spawn" => Some(Word::Spawn),
        b"input" => Some(Word::Input),
        b"false" => Some(Word::False),
        b"output" => Some(Word::Output),
        b"thread" => Some(Word::Thread),
        b"priority" => Some(Word::Priority),
        _ => None,
    }
}
