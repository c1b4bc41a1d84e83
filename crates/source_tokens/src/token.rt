//! Tokens with their places.

/// A reserved word.
#[derive(Clone, Copy, Debug, PartialEq, Eq)]
pub enum Word {
    Priority,
    Order,
    Proc,
    Main,
    At,
    Ret,
    Spawn,
    Sync,
    Call,
    Do,
    Input,
    Output,
    If,
    Else,
    Case,
    Inl,
    Inr,
    Fst,
    Snd,
    Not,
    And,
    Or,
    True,
    False,
    Unit,
    Bool,
    Int,
    Thread,
}

/// A sign, as `<-` or `{`.
#[derive(Clone, Copy, Debug, PartialEq, Eq)]
pub enum Sign {
    Arrow,
    AtMost,
    Equal,
    Less,
    Plus,
    Minus,
    Star,
    Slash,
    Percent,
    OpenParen,
    CloseParen,
    OpenBrace,
    CloseBrace,
    OpenBracket,
    CloseBracket,
    Comma,
    Semicolon,
    Colon,
}

/// What a token is. A name is its number among the distinct names of the text, in the order of their first
/// occurrence, from 0. A number is below two to the 63.
#[derive(Clone, Copy, Debug, PartialEq, Eq)]
pub enum Kind {
    Name(usize),
    Number(u64),
    Word(Word),
    Sign(Sign),
}

/// A token, with the offset of its first byte in the text.
#[derive(Clone, Copy, Debug, PartialEq, Eq)]
pub struct Token {
    pub at: u64,
    pub kind: Kind,
}

/// How a text ends as tokens: read to its end, or at its first fault.
#[derive(Clone, Copy, Debug, PartialEq, Eq)]
pub enum Stop {
    /// All bytes are read.
    Done,
    /// The byte at this offset begins no token.
    BadByte(u64),
    /// The number at this offset is two to the 63 or more.
    BadNumber(u64),
    /// The bracket at this offset, the last of the tokens, opens while 64 are open.
    TooDeep(u64),
}
