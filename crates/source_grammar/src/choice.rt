//! The forms that one token decides on.

use priml_syntax::Op;

/// The forms of a type, by the first token.
#[derive(Clone, Copy, Debug)]
pub enum TyForm {
    Simple,
    Thread,
    Paired,
}

/// What joins two types in brackets.
#[derive(Clone, Copy, Debug)]
pub enum Mid {
    Star,
    Plus,
}

/// The words that stand before an expression in brackets.
#[derive(Clone, Copy, Debug)]
pub enum Prefix {
    First,
    Second,
    Negated,
}

/// The words of the two sides of a sum.
#[derive(Clone, Copy, Debug)]
pub enum Side {
    Left,
    Right,
}

/// The forms of an expression, by the first token.
#[derive(Clone, Copy, Debug)]
pub enum ExprForm {
    Leaf,
    Opened,
    Applied(Prefix),
    Injected(Side),
}

/// What joins two expressions in brackets.
#[derive(Clone, Copy, Debug)]
pub enum Joint {
    Comma,
    Operator(Op),
}

/// The forms of an action, by its word.
#[derive(Clone, Copy, Debug)]
pub enum ActionForm {
    Ret,
    Spawn,
    Sync,
    Call,
    Do,
    Input,
    Output,
}

/// The forms of an ending, by its word.
#[derive(Clone, Copy, Debug)]
pub enum TailForm {
    Ret,
    If,
    Case,
}

/// The forms of a declaration, by its word.
#[derive(Clone, Copy, Debug)]
pub enum DeclarationForm {
    Priority,
    Order,
    Procedure,
}
