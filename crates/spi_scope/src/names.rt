//! The names in scope, with a table of the innermost name of each spelling. A spelling stays in the table: where none of
//! its names is in scope it has no number there.

ghost use Rattle.std.specs.Prelude.{◌≡◌, ◌+◌, ◌-◌, ◌^◌, ◌<◌, drop, [], ◌∷◌, reverse, length, IfOk, is_some, slice_get, take, Some, OnOk, OnErr, IfSome};
ghost use Rattle.std.specs.Str.{bytes_eq};
ghost use Rattle.std.specs.Option.{option_flatten};
ghost use Rattle.indexmap.specs.IndexMap.{IsUnique, get, index_map_len, with_value_at};
ghost use Rattle.spi_scope.specs.Scope.{number_of, outer_names};
ghost use Rattle.spi_scope.specs.Table.{KeepsTable, IsPushed, IsPopped, spellings, top, with_names, noting};

use crate::NoMemory;
use crate::guesses::Guesses;
use crate::spelling::Spelling;
use crate::trail::{Scopes, Trail};
use indexmap::IndexMap;
use spi_text::Text;
use std::alloc::{AllocError, Global};
use std::marker::Model;

/// A name in scope: its spelling, the number that it hides, the slot of its spelling in the table, and the number of the
/// chain that it begins, where it has one.
#[derive(Drop)]
pub struct Held<'t> {
    pub word: &'t Text,
    pub before: Option<u32>,
    pub slot: u32,
    pub chain: u32,
}

/// The chain of all names in scope.
fn top_chain(hidden: &[Held]) -> u32
    ensures { result ≡ top (reverse hidden.now) }
{
    match hidden {
        [] => 0,
        [.., last] => last.chain,
    }
}

/// The spelling in this slot has another number, or none.
fn set_number<'t>(
    innermost: &mut IndexMap<Spelling<'t>, Option<u32>>,
    slot: usize,
    number: Option<u32>,
)
    requires { slot < index_map_len innermost.old }
    ensures after { innermost.new ≡ with_value_at innermost.old slot number }
    ensures unique { IsUnique bytes_eq innermost.old }
{
    let (_, stored) = innermost.pair_mut(slot);
    *stored = number;
}

/// The slot of a spelling in the table, with its number there, where it is the one that was guessed.
#[inline(always)]
fn known<'t>(
    innermost: &IndexMap<Spelling<'t>, Option<u32>>,
    guesses: &Guesses,
    spelling: &Spelling,
) -> Option<(u32, Option<u32>)>
    ensures entry { IfSome result
        (λ r. slice_get innermost.now.entries r.0 ≡ Some (spelling.now, r.1)) }
    ensures value { IfSome result (λ r. get bytes_eq innermost.now spelling.now ≡ Some r.1) }
    ensures within { IfSome result (λ r. r.0 < index_map_len innermost.now) }
{
    let slot = guesses.slot(spelling)?;
    let (key, number) = innermost.get_index(slot as usize)?;
    if *key == *spelling {
        Some((slot, *number))
    } else {
        None
    }
}

/// The number of a word in the table.
#[inline(never)]
fn looked_up(innermost: &IndexMap<Spelling, Option<u32>>, word: &str) -> Option<u32>
    ensures { result ≡ option_flatten (get bytes_eq innermost.now word.now) }
{
    innermost.get(&Spelling::of(word)).copied().flatten()
}

/// One more name in scope, whose spelling may be in the table or not. Gives back whether a name was spelled so. There is
/// no room for more than 2 ^ 32 spellings, and so many don't come: each is that of a token of its own.
#[inline(never)]
fn enter<'t>(
    innermost: &mut IndexMap<Spelling<'t>, Option<u32>>,
    hidden: &mut Vec<Held<'t>>,
    guesses: &mut Guesses,
    word: &'t Text,
    chain: u32,
) -> Result<bool, NoMemory>
    requires keeps { KeepsTable innermost.old hidden.old.items }
    requires room { length hidden.old.items + 1 < 2 ^ 32 }
    ensures keeps { KeepsTable innermost.new hidden.new.items }
    ensures ok { OnOk result (IsPushed hidden.old.items hidden.new.items word.now chain) }
    ensures hid { IfOk result
        (λ hid. hid ≡ is_some (number_of (spellings (reverse hidden.old.items)) word.now)) }
    ensures err { OnErr result (hidden.new.items ≡ hidden.old.items) }
{
    if innermost.len() > 4_294_967_295 {
        return Err(AllocError);
    }
    let number = hidden.len() as u32;
    let (at, old) = innermost.insert_full(Spelling::of(word.as_str()), Some(number))?;
    let slot = at as u32;
    let before = old.flatten();
    match hidden.push(Held {
        word,
        before,
        slot,
        chain,
    }) {
        Ok(()) => {
            guesses.put(&Spelling::of(word.as_str()), slot);
            Ok(before.is_some())
        }
        Err(failed) => {
            set_number(innermost, at, before);
            Err(AllocError::from(failed))
        }
    }
}

/// One more name in scope, whose spelling has this slot and this number so far. Gives back whether a name was spelled so.
#[inline(always)]
fn enter_at<'t>(
    innermost: &mut IndexMap<Spelling<'t>, Option<u32>>,
    hidden: &mut Vec<Held<'t>>,
    word: &'t Text,
    chain: u32,
    slot: u32,
    before: Option<u32>,
) -> Result<bool, NoMemory>
    requires keeps { KeepsTable innermost.old hidden.old.items }
    requires room { length hidden.old.items + 1 < 2 ^ 32 }
    requires entry { slice_get innermost.old.entries slot ≡ Some (word.now, before) }
    requires value { get bytes_eq innermost.old word.now ≡ Some before }
    requires within { slot < index_map_len innermost.old }
    ensures keeps { KeepsTable innermost.new hidden.new.items }
    ensures ok { OnOk result (IsPushed hidden.old.items hidden.new.items word.now chain) }
    ensures hid { IfOk result
        (λ hid. hid ≡ is_some (number_of (spellings (reverse hidden.old.items)) word.now)) }
    ensures err { OnErr result (hidden.new.items ≡ hidden.old.items) }
{
    let its_number = hidden.len() as u32;
    hidden.push(Held {
        word,
        before,
        slot,
        chain,
    })?;
    set_number(innermost, slot as usize, Some(its_number));
    Ok(before.is_some())
}

/// One more name in scope, whose spelling is looked for first where it is guessed. Gives back whether a name was spelled so.
#[inline(always)]
fn enter_guessed<'t>(
    innermost: &mut IndexMap<Spelling<'t>, Option<u32>>,
    hidden: &mut Vec<Held<'t>>,
    guesses: &mut Guesses,
    word: &'t Text,
    chain: u32,
) -> Result<bool, NoMemory>
    requires keeps { KeepsTable innermost.old hidden.old.items }
    requires room { length hidden.old.items + 1 < 2 ^ 32 }
    ensures keeps { KeepsTable innermost.new hidden.new.items }
    ensures ok { OnOk result (IsPushed hidden.old.items hidden.new.items word.now chain) }
    ensures hid { IfOk result
        (λ hid. hid ≡ is_some (number_of (spellings (reverse hidden.old.items)) word.now)) }
    ensures err { OnErr result (hidden.new.items ≡ hidden.old.items) }
{
    match known(innermost, guesses, &Spelling::of(word.as_str())) {
        Some((slot, before)) => enter_at(innermost, hidden, word, chain, slot, before),
        None => enter(innermost, hidden, guesses, word, chain),
    }
}

/// The innermost name goes out of scope.
fn leave<'t>(innermost: &mut IndexMap<Spelling<'t>, Option<u32>>, hidden: &mut Vec<Held<'t>>)
    requires keeps { KeepsTable innermost.old hidden.old.items }
    requires some { 0 < length hidden.old.items }
    ensures keeps { KeepsTable innermost.new hidden.new.items }
    ensures out { IsPopped hidden.old.items hidden.new.items }
{
    if let Some(Held { slot, before, .. }) = hidden.pop() {
        set_number(innermost, slot as usize, before);
    }
}

/// The names in scope. A contract sees their spellings, the innermost first, and those that were in scope at each
/// node that was noted. The innermost of them that a type binds, so many as are loose, have no chain.
#[derive(Drop)]
pub struct Names<'t> {
    innermost: IndexMap<Spelling<'t>, Option<u32>>,
    hidden: Vec<Held<'t>>,
    trail: Trail,
    guesses: Guesses,
    loose: u32,
}

impl<'t> Model for Names<'t> {
    ghost use Rattle.std.specs.Prelude.{◌≤◌, drop, length, reverse};
    ghost use Rattle.spi_scope.specs.Table.{Naming, coded_naming, KeepsTable, Begin, spellings};

    ghost Value = { Naming };

    ghost coded = { coded_naming };

    ghost view = { λ s. record { names = spellings (reverse s.hidden.items); noted = s.trail.noted } };

    ghost invariant = { λ s.
        KeepsTable s.innermost s.hidden.items × Begin s.trail.chains (drop s.loose (reverse s.hidden.items))
        × (s.loose ≤ length s.hidden.items) };
}

impl<'t> Names<'t> {
    /// No names.
    pub fn new(alloc: Global) -> Self
        ensures names { result.names ≡ [] }
        ensures noted { result.noted ≡ [] }
    {
        Names {
            innermost: IndexMap::new(alloc),
            hidden: Vec::new(alloc),
            trail: Trail::new(alloc),
            guesses: Guesses::new(alloc),
            loose: 0,
        }
    }

    /// Room for so many names more.
    pub fn reserve(&mut self, alloc: Global, more: usize) -> Result<(), NoMemory>
        ensures { self.new ≡ self.old }
    {
        self.innermost.reserve(more)?;
        self.hidden.reserve(more)?;
        self.trail.reserve(more)?;
        self.guesses
            .reserve(alloc, self.hidden.len().saturating_add(more))
    }

    /// How many names are in scope.
    pub fn len(&self) -> u32
        ensures { result ≡ length self.now.names }
    {
        self.hidden.len() as u32
    }

    /// The number of the innermost name that is spelled so.
    pub fn number(&self, word: &str) -> Option<u32>
        ensures number { result ≡ number_of self.now.names word.now }
        ensures below { IfSome result (λ n. n < length self.now.names) }
    {
        match known(&self.innermost, &self.guesses, &Spelling::of(word)) {
            Some((_, number)) => number,
            None => looked_up(&self.innermost, word),
        }
    }

    /// One more name in scope. Gives back whether a name in scope was spelled so. There is no room for 2 ^ 32 names, and so
    /// many don't come: each has a token of its own, and a file has at most 16,777,216 bytes.
    pub fn bind(&mut self, word: &'t Text) -> Result<bool, NoMemory>
        ensures names { OnOk result (self.new ≡ with_names self.old (word.now ∷ self.old.names)) }
        ensures hid { IfOk result (λ hid. hid ≡ is_some (number_of self.old.names word.now)) }
    {
        if self.loose > 0 {
            return self.bind_loose(word);
        }
        if self.hidden.len() >= 4_294_967_295 {
            return Err(AllocError);
        }
        let outer = top_chain(&self.hidden);
        let chain = self.trail.extend(word, outer)?;
        enter_guessed(
            &mut self.innermost,
            &mut self.hidden,
            &mut self.guesses,
            word,
            chain,
        )
    }

    /// One more name in scope, which a type binds. No node is noted while it is in scope, so it needs no chain.
    pub fn bind_in_type(&mut self, word: &'t Text) -> Result<(), NoMemory>
        ensures { OnOk result (self.new ≡ with_names self.old (word.now ∷ self.old.names)) }
    {
        self.bind_loose(word)?;
        Ok(())
    }

    /// One more name in scope, with no chain. Gives back whether a name in scope was spelled so. There is no room for 2 ^ 32
    /// names, and so many don't come.
    fn bind_loose(&mut self, word: &'t Text) -> Result<bool, NoMemory>
        ensures names { OnOk result (self.new ≡ with_names self.old (word.now ∷ self.old.names)) }
        ensures hid { IfOk result (λ hid. hid ≡ is_some (number_of self.old.names word.now)) }
    {
        if self.hidden.len() >= 4_294_967_295 {
            return Err(AllocError);
        }
        let hides = enter_guessed(
            &mut self.innermost,
            &mut self.hidden,
            &mut self.guesses,
            word,
            0,
        )?;
        self.loose += 1;
        Ok(hides)
    }

    /// One more name in scope, whose spelling is most often a new one.
    pub fn declare(&mut self, word: &'t Text) -> Result<bool, NoMemory>
        ensures names { OnOk result (self.new ≡ with_names self.old (word.now ∷ self.old.names)) }
        ensures hid { IfOk result (λ hid. hid ≡ is_some (number_of self.old.names word.now)) }
    {
        if self.loose > 0 {
            return self.bind_loose(word);
        }
        if self.hidden.len() >= 4_294_967_295 {
            return Err(AllocError);
        }
        let outer = top_chain(&self.hidden);
        let chain = self.trail.extend(word, outer)?;
        enter(
            &mut self.innermost,
            &mut self.hidden,
            &mut self.guesses,
            word,
            chain,
        )
    }

    /// The innermost name goes out of scope.
    pub fn unbind(&mut self)
        requires { 0 < length self.old.names }
        ensures { self.new ≡ with_names self.old (outer_names self.old.names) }
    {
        leave(&mut self.innermost, &mut self.hidden);
        if self.loose > 0 {
            self.loose -= 1;
        }
    }

    /// The innermost names go out of scope, up to so many.
    pub fn cut(&mut self, len: u32)
        ensures { self.new ≡ with_names self.old (drop (length self.old.names - len) self.old.names) }
    {
        while self.len() > len {
            self.unbind();
        }
    }

    /// The names in scope are those at one more node. There is no node where a name of a type is in scope, so none is noted
    /// there: such a name has no chain.
    #[inline(always)]
    pub fn note(&mut self) -> Result<(), NoMemory>
        ensures { OnOk result (self.new ≡ noting self.old) }
    {
        if self.loose > 0 {
            return Err(AllocError);
        }
        let chain = top_chain(&self.hidden);
        self.trail.note(chain)
    }

    /// The spellings of the names in scope, the outermost first.
    pub fn texts(&self, alloc: Global) -> Result<Vec<Text>, NoMemory>
        ensures { IfOk result (λ v. v.items ≡ reverse self.now.names) }
    {
        let mut texts = Vec::with_capacity(alloc, self.hidden.len())?;
        for held in &self.hidden {
            texts.push(held.word.copy(alloc)?)?;
        }
        Ok(texts)
    }

    /// How many nodes were noted.
    pub fn nodes(&self) -> usize
        ensures { result ≡ length self.now.noted }
    {
        self.trail.count()
    }

    /// The names that were in scope at each of the first nodes, so many.
    pub fn into_scopes(self, nodes: usize) -> Scopes
        ensures { result ≡ take nodes self.entry.noted }
    {
        let Names { trail, .. } = self;
        trail.into_scopes(nodes)
    }
}
