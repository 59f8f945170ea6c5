//! Chains of spellings that share what they have in common.

ghost use Rattle.std.specs.Prelude.{◌≡◌, ◌<◌, ◌≤◌, [], ◌∷◌, ◌++◌, map, length, reverse, take, OnOk, OnErr, IfOk};
ghost use Rattle.spi_scope.specs.Chains.{chain_at, link, chains, LeadBack};

use crate::NoMemory;
use spi_text::Text;
use std::alloc::{AllocError, Global};
use std::marker::Model;

/// A spelling, and the chain outside it. Link i begins chain i + 1.
#[derive(Drop)]
pub struct Link {
    pub word: Text,
    pub outer: u32,
}

/// Chains of spellings, each with its number, and the chains that were noted. Chain 0 is empty.
#[derive(Drop)]
pub struct Trail {
    alloc: Global,
    links: Vec<Link>,
    noted: Vec<u32>,
}

impl Model for Trail {
    ghost use Rattle.std.specs.Prelude.{◌+◌, ◌<◌, ◌^◌, [], ◌∷◌, map, length};
    ghost use Rattle.spi_scope.specs.Chains.{Chained, coded_chained, link, chains, all_at, AreNumbersBelow, LeadBack};

    ghost Value = { Chained };

    ghost coded = { coded_chained };

    ghost view = { λ s. let cs = chains (map link s.links.items) in
        record { chains = cs; noted = all_at cs s.noted.items } };

    ghost invariant = { λ s. LeadBack 1 (map link s.links.items)
        × AreNumbersBelow (length s.links.items + 1) s.noted.items
        × (length s.links.items < 2 ^ 32) };
}

impl Trail {
    /// The empty chain alone.
    pub fn new(alloc: Global) -> Self
        ensures chains { result.chains ≡ [] ∷ [] }
        ensures noted { result.noted ≡ [] }
    {
        Trail {
            alloc,
            links: Vec::new(alloc),
            noted: Vec::new(alloc),
        }
    }

    /// Room for so many chains more.
    pub fn reserve(&mut self, more: usize) -> Result<(), NoMemory>
        ensures { self.new ≡ self.old }
    {
        self.links.reserve(more)?;
        Ok(())
    }

    /// One more chain: the spelling before an earlier chain. There is no room for 2 ^ 32 chains, and so many don't come: each is
    /// that of a binder, which has a token of its own.
    pub fn extend(&mut self, word: &Text, outer: u32) -> Result<u32, NoMemory>
        requires { outer < length self.old.chains }
        ensures number { IfOk result (λ n. n ≡ length self.old.chains) }
        ensures chains { OnOk result
            (self.new.chains ≡ self.old.chains ++ (word.now ∷ chain_at self.old.chains outer) ∷ []) }
        ensures noted { OnOk result (self.new.noted ≡ self.old.noted) }
        ensures err { OnErr result (self.new ≡ self.old) }
    {
        if self.links.len() >= 4_294_967_294 {
            return Err(AllocError);
        }
        let word = word.copy(self.alloc)?;
        self.links.push(Link { word, outer })?;
        Ok(self.links.len() as u32)
    }

    /// The chain is noted.
    #[inline(always)]
    pub fn note(&mut self, chain: u32) -> Result<(), NoMemory>
        requires { chain < length self.old.chains }
        ensures chains { self.new.chains ≡ self.old.chains }
        ensures noted { OnOk result (self.new.noted ≡ self.old.noted ++ chain_at self.old.chains chain ∷ []) }
        ensures err { OnErr result (self.new ≡ self.old) }
    {
        self.noted.push(chain)?;
        Ok(())
    }

    /// How many chains were noted.
    pub fn count(&self) -> usize
        ensures { result ≡ length self.now.noted }
    {
        self.noted.len()
    }

    /// The chains that were noted first, so many.
    pub fn into_scopes(self, count: usize) -> Scopes
        ensures { result ≡ take count self.noted }
    {
        let Trail {
            links,
            mut noted,
            ..
        } = self;
        noted.truncate(count);
        Scopes { links, noted }
    }
}

/// The names in scope at each node. A contract sees their spellings, the innermost first.
pub struct Scopes {
    links: Vec<Link>,
    noted: Vec<u32>,
}

impl Drop for Scopes {
    fn drop(self) {
        let Scopes { links: _, noted: _ } = self;
    }
}

impl Model for Scopes {
    ghost use Rattle.std.specs.Prelude.{List, ◌+◌, [], ◌∷◌, map, length};
    ghost use Rattle.std.specs.Coded.{coded_list};
    ghost use Rattle.spi_scope.specs.Scope.{Names};
    ghost use Rattle.spi_scope.specs.Table.{coded_names};
    ghost use Rattle.spi_scope.specs.Chains.{link, chains, all_at, AreNumbersBelow, LeadBack};

    ghost Value = { List Names };

    ghost coded = { coded_list coded_names };

    ghost view = { λ s. all_at (chains (map link s.links.items)) s.noted.items };

    ghost invariant = { λ s. LeadBack 1 (map link s.links.items)
        × AreNumbersBelow (length s.links.items + 1) s.noted.items };
}

impl Scopes {
    /// The names at no node.
    pub fn new(alloc: Global) -> Self
        ensures { result ≡ [] }
    {
        Scopes {
            links: Vec::new(alloc),
            noted: Vec::new(alloc),
        }
    }

    /// The names in scope at a node, the outermost first, and none where the node wasn't noted.
    pub fn names_at(&self, alloc: Global, node: u32) -> Result<Vec<Text>, NoMemory>
        ensures { IfOk result (λ v. v.items ≡ reverse (chain_at self.now node)) }
    {
        if node as usize >= self.noted.len() {
            return Ok(Vec::new(alloc));
        }
        let chain = self.noted[node as usize];
        spellings(alloc, &self.links, chain)
    }
}

/// The spellings of a chain, the outermost first.
fn spellings(alloc: Global, links: &[Link], chain: u32) -> Result<Vec<Text>, NoMemory>
    requires lead_back { LeadBack 1 (map link links.now) }
    requires within { chain ≤ length links.now }
    ensures { IfOk result (λ v. v.items ≡ reverse (chain_at (chains (map link links.now)) chain)) }
{
    let mut found = Vec::new(alloc);
    let mut at = chain;
    while at > 0 {
        let link = &links[at as usize - 1];
        found.push(link.word.copy(alloc)?)?;
        at = link.outer;
    }
    found.reverse();
    Ok(found)
}
