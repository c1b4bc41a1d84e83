//! The tree of a text, as the grammar gives it: names are not resolved. Each node has the offset of its first token.

use priml_syntax::Op;

/// A name where it stands: its offset, and its number among the distinct names of the text.
#[derive(Clone, Copy, Debug, PartialEq, Eq)]
pub struct Name {
    pub at: u64,
    pub id: usize,
}

/// A type.
#[derive(Drop)]
pub enum RawTy {
    Unit,
    Bool,
    Int,
    Thread(Name, Box<RawTy>),
    Pair(Box<RawTy>, Box<RawTy>),
    Sum(Box<RawTy>, Box<RawTy>),
}

/// A type where it is written.
#[derive(Drop)]
pub struct Written {
    pub at: u64,
    pub ty: RawTy,
}

/// An expression. Brackets around it make no node.
#[cycle(raw_expr)]
#[derive(Drop)]
pub struct RawExpr {
    pub at: u64,
    pub form: RawForm,
}

/// What stands in an expression. A name is its number among the names of the text; its place is the node's.
#[cycle(raw_expr)]
#[derive(Drop)]
pub enum RawForm {
    Var(usize),
    Int(u64),
    Bool(bool),
    Unit,
    Pair(Box<RawTwo>),
    Fst(Box<RawExpr>),
    Snd(Box<RawExpr>),
    Inl(Box<RawInjection>),
    Inr(Box<RawInjection>),
    Op(Op, Box<RawTwo>),
    Not(Box<RawExpr>),
}

/// Two expressions, in order. They stand in one box, so that a tree takes little room.
#[cycle(raw_expr)]
#[derive(Drop)]
pub struct RawTwo {
    pub first: RawExpr,
    pub second: RawExpr,
}

/// A value of a sum, with the sum's type.
#[cycle(raw_expr)]
#[derive(Drop)]
pub struct RawInjection {
    pub sum: Written,
    pub value: RawExpr,
}

/// A block: bound actions and an ending.
#[cycle(raw)]
#[derive(Drop)]
pub struct RawBlock {
    pub at: u64,
    pub binds: Vec<RawBind>,
    pub tail: RawTail,
}

/// A bound action: the name that it binds, and the offset of the action's word.
#[cycle(raw)]
#[derive(Drop)]
pub struct RawBind {
    pub name: Name,
    pub at: u64,
    pub action: RawAction,
}

/// An action.
#[cycle(raw)]
#[derive(Drop)]
pub enum RawAction {
    Ret(RawExpr),
    Spawn(Name, Box<RawBlock>),
    Sync(Name),
    Call(Box<RawCall>),
    Do(Box<RawBlock>),
    Input,
    Output(RawExpr),
}

/// A call: the procedure's name, its priorities and its arguments.
#[derive(Drop)]
pub struct RawCall {
    pub procedure: Name,
    pub priorities: Vec<Name>,
    pub arguments: Vec<RawExpr>,
}

/// What ends a block, with the offset of its word.
#[cycle(raw)]
#[derive(Drop)]
pub struct RawTail {
    pub at: u64,
    pub form: RawTailForm,
}

/// The forms of an ending. Each branch of a `case` has the name that it binds.
#[cycle(raw)]
#[derive(Drop)]
pub enum RawTailForm {
    Ret(RawExpr),
    If(RawExpr, Box<RawBlock>, Box<RawBlock>),
    Case(RawExpr, Name, Box<RawBlock>, Name, Box<RawBlock>),
}

/// A parameter and its type.
#[derive(Drop)]
pub struct RawParam {
    pub name: Name,
    pub ty: Written,
}

/// A procedure: the offset of its word `proc`, its name, its priority variables, the pairs that it is given (the first
/// at most the second), its own priority, its parameters, its result type and its body.
#[derive(Drop)]
pub struct RawProc {
    pub at: u64,
    pub name: Name,
    pub vars: Vec<Name>,
    pub given: Vec<(Name, Name)>,
    pub own: Name,
    pub params: Vec<RawParam>,
    pub result: Written,
    pub body: RawBlock,
}

/// A declaration before `main`. An order has the offset of its word `order`.
#[derive(Drop)]
pub enum RawDecl {
    Priority(Name),
    Order(u64, Name, Name),
    Proc(RawProc),
}

/// The main procedure: the offset of its word `main`, its own priority, its result type and its body.
#[derive(Drop)]
pub struct RawMain {
    pub at: u64,
    pub own: Name,
    pub result: Written,
    pub body: RawBlock,
}

/// A program as it is written.
#[derive(Drop)]
pub struct RawProgram {
    pub decls: Vec<RawDecl>,
    pub main: RawMain,
}
