//! The free names by their spellings.

ghost use Rattle.std.specs.Prelude.{◌≡◌, ◌∷◌, [], ℕ, map, Some, IfOk, OnOk};
ghost use Rattle.spi_tree.specs.Views.{decl_of};
ghost use Rattle.spi_scope.specs.Scope.{Names, number_of};
ghost use Rattle.spi_scope.specs.Points.{with_free, names_behind, all_names};
ghost use Rattle.spi_honest.specs.Free.{NumbersSpellings};

use crate::NoMemory;
use indexmap::IndexMap;
use spi_tree::{Decl, SWord};
use std::alloc::{AllocError, Global};

/// A table of free names, with their numbers.
pub struct FreeNames<'n> {
    numbers: IndexMap<&'n str, u32>,
    count: u32,
}

impl Drop for FreeNames<'_> {
    fn drop(self) {
        let Self { numbers, count } = self;
    }
}

/// One more name. There is no room for 2 ^ 32 names, and so many don't come: each has a token of its own.
fn bind<'n>(names: &mut FreeNames<'n>, word: &'n SWord) -> Result<(), NoMemory>
    ensures { OnOk result
        ((xs : Names) → NumbersSpellings names.old xs
        → NumbersSpellings names.new (word.entry.now.word ∷ xs)) }
{
    if names.count == u32::MAX {
        return Err(AllocError);
    }
    names.numbers.insert(word.word.as_str(), names.count)?;
    names.count += 1;
    Ok(())
}

/// More names, in order.
fn bind_all<'n>(names: &mut FreeNames<'n>, words: &'n [SWord]) -> Result<(), NoMemory>
    ensures { OnOk result
        ((xs : Names) → NumbersSpellings names.old xs
        → NumbersSpellings names.new (with_free xs words.entry.now)) }
{
    for word in words {
        bind(names, word)?;
    }
    Ok(())
}

/// The names that a declaration brings.
fn bind_declared<'n>(names: &mut FreeNames<'n>, decl: &'n Decl) -> Result<(), NoMemory>
    ensures { OnOk result
        ((xs : Names) → NumbersSpellings names.old xs
        → NumbersSpellings names.new (names_behind xs (decl_of decl.entry.now))) }
{
    match decl {
        Decl::Free { first, more, .. } => {
            bind(names, first)?;
            bind_all(names, more)
        }
        Decl::Abbr { .. } => Ok(()),
    }
}

impl<'n> FreeNames<'n> {
    /// The free names of the declarations. The time is that of the declarations.
    pub fn of(alloc: Global, decls: &'n [Decl]) -> Result<Self, NoMemory>
        ensures { IfOk result (λ names. NumbersSpellings names (all_names [] (map decl_of decls.entry.now))) }
    {
        let mut names = FreeNames {
            numbers: IndexMap::new(alloc),
            count: 0,
        };
        for decl in decls {
            bind_declared(&mut names, decl)?;
        }
        Ok(names)
    }

    /// The number of the name that is spelled so.
    pub fn number(&self, word: &SWord) -> Option<u32>
        ensures { (xs : Names) → NumbersSpellings self.now xs → result ≡ number_of xs word.now.word }
    {
        self.numbers.get(&word.word.as_str()).copied()
    }
}

/// The number of a word that is a free name.
pub fn name_number(names: &FreeNames<'_>, word: &SWord) -> u32
    requires { (xs : Names) × (i : ℕ) × NumbersSpellings names.now xs
        × (number_of xs word.now.word ≡ Some i) }
    ensures { (xs : Names) → NumbersSpellings names.now xs → number_of xs word.now.word ≡ Some result }
{
    match names.number(word) {
        Some(number) => number,
        None => unreachable!(),
    }
}
