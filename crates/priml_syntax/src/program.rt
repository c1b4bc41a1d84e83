ghost use Rattle.std.specs.Prelude.{◌≡◌, IfOk, map, string_bytes};
ghost use Rattle.priml_syntax.specs.Read.{read_type, read_proc, read_program};

use crate::block::Block;
use crate::prio::Prio;
use crate::ty::Ty;
use std::alloc::{AllocError, Global};

/// A program.
#[derive(Drop)]
pub struct Program {
    /// The names of its priorities, in the order of declaration.
    pub names: Vec<String>,
    /// The declared pairs: the byte offset of the word `order`, and the numbers of two priorities, the first of
    /// which is at most the second.
    pub pairs: Vec<(u64, u32, u32)>,
    /// Its procedures, in the order of declaration.
    pub procs: Vec<Proc>,
    pub main: Proc,
}

/// A procedure, or the `main` of a program, which has no variables, constraints or parameters.
#[derive(Drop)]
pub struct Proc {
    /// Its place, the byte offset of its word `proc` or `main`.
    pub at: u64,
    /// The number of its priority variables.
    pub vars: u32,
    /// Its constraints: the first of each is at most the second.
    pub given: Vec<(Prio, Prio)>,
    /// The types of its parameters, which are the outermost variables in the scope of its body.
    pub params: Vec<Ty>,
    /// The priority at which it runs.
    pub own: Prio,
    pub result: Ty,
    pub body: Block,
}

impl Proc {
    /// An equal procedure.
    pub fn copy(&self, alloc: Global) -> Result<Proc, AllocError>
        ensures { IfOk result (λ f. read_proc f ≡ read_proc self.now) }
    {
        let given = Vec::from_slice(alloc, &self.given)?;
        let params = types(alloc, &self.params)?;
        let result = self.result.copy(alloc)?;
        let body = self.body.copy(alloc)?;
        Ok(Proc {
            at: self.at,
            vars: self.vars,
            given,
            params,
            own: self.own,
            result,
            body,
        })
    }
}

impl Program {
    /// An equal program.
    pub fn copy(&self, alloc: Global) -> Result<Program, AllocError>
        ensures { IfOk result (λ p. read_program p ≡ read_program self.now) }
    {
        let names = names(alloc, &self.names)?;
        let pairs = Vec::from_slice(alloc, &self.pairs)?;
        let procs = procs(alloc, &self.procs)?;
        let main = self.main.copy(alloc)?;
        Ok(Program {
            names,
            pairs,
            procs,
            main,
        })
    }
}

// Equal types, in order.
fn types(alloc: Global, list: &[Ty]) -> Result<Vec<Ty>, AllocError>
    ensures { IfOk result (λ v. map read_type v.items ≡ map read_type list.now) }
{
    let mut all = Vec::new(alloc);
    for t in list {
        all.push(t.copy(alloc)?)?;
    }
    Ok(all)
}

// Equal names, in order.
fn names(alloc: Global, list: &[String]) -> Result<Vec<String>, AllocError>
    ensures { IfOk result (λ v. map string_bytes v.items ≡ map string_bytes list.now) }
{
    let mut all = Vec::with_capacity(alloc, list.len())?;
    for name in list {
        all.push(name.clone()?)?;
    }
    Ok(all)
}

// Equal procedures, in order.
fn procs(alloc: Global, list: &[Proc]) -> Result<Vec<Proc>, AllocError>
    ensures { IfOk result (λ v. map read_proc v.items ≡ map read_proc list.now) }
{
    let mut all = Vec::with_capacity(alloc, list.len())?;
    for f in list {
        all.push(f.copy(alloc)?)?;
    }
    Ok(all)
}
