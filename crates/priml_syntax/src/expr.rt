ghost use Rattle.std.specs.Prelude.{◌≡◌, ℕ, IfOk, map};
ghost use Rattle.priml_syntax.specs.Read.{read_term, read_form};

use crate::memory::boxed;
use crate::ty::Ty;
use std::alloc::{AllocError, Global};

/// An operator of two operands, both of which are always evaluated, the left one first.
#[derive(Clone, Copy, Debug, PartialEq, Eq)]
pub enum Op {
    /// `+` of two numbers.
    Add,
    /// `-` of two numbers.
    Sub,
    /// `*` of two numbers.
    Mul,
    /// `/` of two numbers, truncated toward zero.
    Div,
    /// `%` of two numbers, with the sign of the left one.
    Rem,
    /// `<` of two numbers.
    Less,
    /// `<=` of two numbers.
    AtMost,
    /// `==` of two numbers.
    Equal,
    /// `and` of two truth values.
    And,
    /// `or` of two truth values.
    Or,
}

/// An expression at its place: the byte offset of its first token.
#[cycle(expr)]
#[derive(Drop)]
pub struct Expr {
    pub at: u64,
    pub form: ExprForm,
}

/// What stands in an expression.
#[cycle(expr)]
#[derive(Drop)]
pub enum ExprForm {
    /// A variable, by its place in scope, 0 for the outermost.
    Var(u32),
    /// A number as it is written.
    Int(i64),
    Bool(bool),
    Unit,
    Pair(Box<Expr>, Box<Expr>),
    /// The first part of a pair.
    Fst(Box<Expr>),
    /// The second part of a pair.
    Snd(Box<Expr>),
    /// A left value of the sum type that is written with it.
    Inl(Ty, Box<Expr>),
    /// A right value of the sum type that is written with it.
    Inr(Ty, Box<Expr>),
    Op(Op, Box<Expr>, Box<Expr>),
    Not(Box<Expr>),
}

impl Op {
    /// An equal operator.
    pub fn copy(&self, _alloc: Global) -> Result<Op, AllocError>
        ensures { IfOk result (λ o. o ≡ self.now) }
    {
        Ok(*self)
    }
}

impl Expr {
    /// An equal expression.
    #[cycle(copy)]
    pub fn copy(&self, alloc: Global) -> Result<Expr, AllocError>
        ensures { IfOk result (λ e. read_term e ≡ read_term self.now) }
    {
        let form = self.form.copy(alloc)?;
        Ok(Expr { at: self.at, form })
    }
}

impl ExprForm {
    /// An equal form.
    #[cycle(copy)]
    pub fn copy(&self, alloc: Global) -> Result<ExprForm, AllocError>
        ensures { IfOk result (λ f. (at : ℕ) → read_form f at ≡ read_form self.now at) }
    {
        match self {
            ExprForm::Var(x) => Ok(ExprForm::Var(*x)),
            ExprForm::Int(n) => Ok(ExprForm::Int(*n)),
            ExprForm::Bool(b) => Ok(ExprForm::Bool(*b)),
            ExprForm::Unit => Ok(ExprForm::Unit),
            ExprForm::Pair(a, b) => {
                let a = boxed(alloc, a.copy(alloc)?)?;
                Ok(ExprForm::Pair(a, boxed(alloc, b.copy(alloc)?)?))
            }
            ExprForm::Fst(a) => Ok(ExprForm::Fst(boxed(alloc, a.copy(alloc)?)?)),
            ExprForm::Snd(a) => Ok(ExprForm::Snd(boxed(alloc, a.copy(alloc)?)?)),
            ExprForm::Inl(t, a) => {
                let t = t.copy(alloc)?;
                Ok(ExprForm::Inl(t, boxed(alloc, a.copy(alloc)?)?))
            }
            ExprForm::Inr(t, a) => {
                let t = t.copy(alloc)?;
                Ok(ExprForm::Inr(t, boxed(alloc, a.copy(alloc)?)?))
            }
            ExprForm::Op(op, a, b) => {
                let a = boxed(alloc, a.copy(alloc)?)?;
                Ok(ExprForm::Op(*op, a, boxed(alloc, b.copy(alloc)?)?))
            }
            ExprForm::Not(a) => Ok(ExprForm::Not(boxed(alloc, a.copy(alloc)?)?)),
        }
    }
}

// Equal expressions, in order.
pub(crate) fn copies(alloc: Global, list: &[Expr]) -> Result<Vec<Expr>, AllocError>
    ensures { IfOk result (λ v. map read_term v.items ≡ map read_term list.now) }
{
    let mut all = Vec::new(alloc);
    for e in list {
        all.push(e.copy(alloc)?)?;
    }
    Ok(all)
}
