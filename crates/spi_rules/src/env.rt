// Environments: the list of the types of names 0, 1 and so on.

ghost use Rattle.std.specs.Prelude.{◌≡◌, ◌<◌, ◌≤◌, ◌^◌, ◌↔◌, ◌-◌, List, [], length, map, slice_get, Some, IfSome, IfNone, IsNone, IfOk, OnOk, OnErr};
ghost use Rattle.spi_term.specs.View.{ty};
ghost use Rattle.spi_rules.specs.Environment.{extended, untrusted};

use crate::NoMemory;
use spi_term::Ty;
use std::alloc::Global;
use std::marker::Model;

/// An environment: the type of each name, from name 0 on.
#[derive(Drop)]
pub struct Env {
    types: Vec<Ty>,
}

impl Model for Env {
    ghost use Rattle.std.specs.Prelude.{◌<◌, ◌^◌, List, length, map};
    ghost use Rattle.spi_term.specs.Term as Term;
    ghost use Rattle.spi_term.specs.View.{ty};
    ghost use Rattle.spi_term.specs.Codes.{coded_types};

    ghost Value = { List Term.Ty };

    ghost view = { λ env. map ty env.types.items };

    ghost coded = { coded_types };

    ghost invariant = { λ env. length env.types.items < 2 ^ 32 };
}

impl Env {
    /// No names.
    pub fn new(alloc: Global) -> Env
        ensures { result ≡ [] }
    {
        Env {
            types: Vec::new(alloc),
        }
    }

    /// `count` names of type `Un`, at most 100,000.
    pub fn of_free(alloc: Global, count: u32) -> Result<Env, NoMemory>
        requires { count ≤ 100_000 }
        ensures { IfOk result (λ env. env ≡ untrusted count) }
    {
        let mut types = Vec::new(alloc);
        for name in 0..count {
            let _ = name;
            types.push(Ty::Un)?;
        }
        Ok(Env { types })
    }

    /// Adds a name of this type at the end. Where memory runs out, the type is dropped and the environment is
    /// as before.
    pub fn push(&mut self, t: Ty) -> Result<(), NoMemory>
        requires { length self.old < 2 ^ 32 - 1 }
        ensures ok { OnOk result (self.new ≡ extended self.old (ty t)) }
        ensures err { OnErr result (self.new ≡ self.old) }
    {
        self.types.push(t)?;
        Ok(())
    }

    /// Takes the last name away and gives its type, and none exactly where there is no name.
    pub fn pop(&mut self) -> Option<Ty>
        ensures some { IfSome result (λ t. self.old ≡ extended self.new (ty t)) }
        ensures none { IfNone result (self.old ≡ [] × self.new ≡ []) }
    {
        self.types.pop()
    }

    /// The type of a name, and none exactly where the name isn't below the length.
    pub fn get(&self, name: u32) -> Option<&Ty>
        ensures some { IfSome result (λ t. slice_get self.now name ≡ Some (ty t.now)) }
        ensures none { IsNone result ↔ (length self.now ≤ name) }
    {
        self.types.get(name as usize)
    }

    /// The types of all names, in order.
    pub fn types(&self) -> &[Ty]
        ensures { map ty result.now ≡ self.now }
    {
        &self.types
    }

    /// How many names there are.
    pub fn len(&self) -> u32
        ensures { result ≡ length self.now }
    {
        self.types.len() as u32
    }
}
