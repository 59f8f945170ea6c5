// Effects by counts and what uses do to them. Atoms with a name that has left its scope are held by their names alone: such
// an atom can't be taken out any more, and only its names still count.
ghost use Rattle.std.specs.Prelude.{◌≡◌, ℕ, suc, max, ◌≤◌, ◌<◌, ◌&&◌, not, true, false, nat_eq, [], ◌∷◌, ◌++◌, length, slice_get, Some, IfOk, OnOk};
ghost use Rattle.spi_term.specs.Term as Term;
ghost use Rattle.spi_term.specs.Term.{Message, Atom, Effect, nonce};
ghost use Rattle.spi_effect.specs.Made.{are_many, greater, mentions, is_within};
ghost use Rattle.spi_intern.specs.declared.store.Store.{Store};
ghost use Rattle.spi_intern.specs.Table.{TellsAll};
ghost use Rattle.spi_intern.specs.Atoms.{SaysAtom};
ghost use Rattle.spi_intern.specs.Meaning.{Means};
ghost use Rattle.spi_count.specs.Counts.{count_of};
ghost use Rattle.spi_count.specs.Sums.{name_bound, Below};
ghost use Rattle.spi_count.specs.declared.keys.Keys.{Keys};
ghost use Rattle.spi_count.specs.Keeping.{IsKeyed, HasKey, HaveKeys};
ghost use Rattle.spi_count.specs.Adding.{IsKey, SumOf};
ghost use Rattle.spi_audit.specs.Accounts.{Held, IsHeld, Marks, IsScopeCut, lasting_with, LeavesOne, LeavesTwo, HoldsMore, HoldsLess};
ghost use Rattle.spi_intern.specs.Parts.{message_of};

use crate::NoMemory;
use spi_count::{AtomKind, Counts, Keys, Sum, add_atom, add_atoms, add_type, take_atom, take_type};
use spi_intern::{AtomId, MsgId, MsgPart, Store, TyId};
use std::alloc::Global;
use std::mem::replace;

/// An effect: the atoms with names in scope by counts, and of the others which names they have, and whether each of them
/// is a `many`.
#[derive(Drop)]
pub struct Account {
    pub sum: Sum,
    pub loose: Counts,
    pub lasting: bool,
}

impl Account {
    /// The counts of the atoms with names in scope.
    pub fn into_sum(self) -> Sum
        ensures { result ≡ self.sum }
    {
        let Account {
            sum,
            loose: _,
            lasting: _,
        } = self;
        sum
    }

    // The atoms with names in scope of two effects apart, and the others of both.
    fn apart(self, other: Account) -> Result<(Sum, Sum, Counts, bool), NoMemory>
        ensures first { IfOk result (λ r. r.0 ≡ self.sum) }
        ensures second { IfOk result (λ r. r.1 ≡ other.sum) }
        ensures loose { IfOk result
            (λ r. (k : ℕ) → count_of r.2.counts k
            ≡ max (count_of self.loose.counts k) (count_of other.loose.counts k)) }
        ensures lasting { IfOk result (λ r. r.3 ≡ (self.lasting && other.lasting)) }
    {
        let Account {
            sum,
            loose,
            lasting,
        } = self;
        let Account {
            sum: more_sum,
            loose: more_loose,
            lasting: more_lasting,
        } = other;
        let names = merged(loose, more_loose)?;
        Ok((sum, more_sum, names, both(lasting, more_lasting)))
    }

    /// The sum of two effects.
    pub fn summed(self, other: Account) -> Result<Account, NoMemory>
        ensures { IfOk result
            (λ r. (s : Store) (keys : Keys) (n : ℕ) (es fs : Effect) → IsKeyed s keys → Held s keys n self es
            → Held s keys n other fs → Held s keys n r (es ++ fs)) }
    {
        let (sum, more, loose, lasting) = self.apart(other)?;
        let joined = Sum::joined(sum, more)?;
        Ok(Account {
            sum: joined,
            loose,
            lasting,
        })
    }

    /// The greater count of each atom of two effects.
    pub fn greatest(self, other: Account) -> Result<Account, NoMemory>
        ensures { IfOk result
            (λ r. (s : Store) (keys : Keys) (n : ℕ) (es fs : Effect) → IsKeyed s keys → Held s keys n self es
            → Held s keys n other fs → Held s keys n r (greater es fs)) }
    {
        let (sum, more, loose, lasting) = self.apart(other)?;
        let greatest = Sum::greatest(sum, more)?;
        Ok(Account {
            sum: greatest,
            loose,
            lasting,
        })
    }
}

/// The effect without atoms.
pub fn empty_account(alloc: Global) -> Account
    ensures { (s : Store) (keys : Keys) (n : ℕ) → IsKeyed s keys → Held s keys n result [] }
{
    Account {
        sum: Sum::new(alloc),
        loose: Counts::new(alloc),
        lasting: true,
    }
}

// The names of a message are marked.
fn mark_names(store: &Store, id: MsgId, loose: &mut Counts) -> Result<(), NoMemory>
    requires { id.place < length store.now.messages }
    ensures { OnOk result
        ((m : Message) → slice_get store.now.messages id.place ≡ Some m
        → Marks loose.old.counts loose.new.counts m) }
{
    match store.part(id) {
        MsgPart::Bound(_) => Ok(()),
        MsgPart::Name(x) => loose.raise_to(x as u64, 1),
        MsgPart::Unit => Ok(()),
        MsgPart::Pair(a, b) => {
            mark_names(store, a, loose)?;
            mark_names(store, b, loose)
        }
        MsgPart::Inl(a) => mark_names(store, a, loose),
        MsgPart::Inr(a) => mark_names(store, a, loose),
        MsgPart::Enc(a, b) => {
            mark_names(store, a, loose)?;
            mark_names(store, b, loose)
        }
        MsgPart::Hash(a) => mark_names(store, a, loose),
    }
}

// The names of the message with a key are marked.
fn mark_key(store: &Store, keys: &Keys, key: u64, loose: &mut Counts) -> Result<(), NoMemory>
    requires { IsKey store.now keys.now key }
    ensures { OnOk result ((r : IsKey store.now keys.now key) → Marks loose.old.counts loose.new.counts r.1) }
{
    match keys.id((key % 4_294_967_296) as usize) {
        Some(id) => mark_names(store, id, loose),
        None => unreachable!(),
    }
}

// Whether each loose atom is a `many`, with one more of this kind.
fn is_lasting(lasting: bool, kind: AtomKind) -> bool
    ensures { result ≡ lasting_with lasting kind }
{
    match kind {
        AtomKind::End => false,
        AtomKind::Check => false,
        AtomKind::Many => lasting,
    }
}

// The atoms with a name from `scope` on become loose.
fn loosen(store: &Store, keys: &Keys, scope: u32, account: &mut Account) -> Result<(), NoMemory>
    requires scope { scope ≤ 300000 }
    requires held { IsHeld store.now keys.now account.old }
    ensures { OnOk result
        ((n : ℕ) (es : Effect) → scope ≤ n → Held store.now keys.now n account.old es
        → Held store.now keys.now scope account.new es) }
{
    let least = (scope as u64 + 1) * 4_294_967_296;
    while let Some((kind, key, _)) = account.sum.take_from(least) {
        mark_key(store, keys, key, &mut account.loose)?;
        account.lasting = is_lasting(account.lasting, kind);
    }
    Ok(())
}

// Names from `scope` on leave: whether no atom within has one.
fn cut(store: &Store, keys: &Keys, scope: u32, account: &mut Account) -> Result<bool, NoMemory>
    requires scope { scope ≤ 300000 }
    requires held { IsHeld store.now keys.now account.old }
    ensures { IfOk result (λ b. IsScopeCut store.now keys.now scope account.old b account.new) }
{
    if account.sum.reaches((scope as u64 + 1) * 4_294_967_296) {
        loosen(store, keys, scope, account)?;
        Ok(false)
    } else {
        Ok(true)
    }
}

// No atom within has a name, and no loose one.
fn is_free_of(inside: bool, loose: u64) -> bool
    ensures { result ≡ (inside && nat_eq loose 0) }
{
    inside && loose == 0
}

/// Whether both are true.
pub fn both(a: bool, b: bool) -> bool
    ensures { result ≡ (a && b) }
{
    a && b
}

/// The name `scope` leaves: whether the effect doesn't have it.
pub fn leave_one(
    store: &Store,
    keys: &Keys,
    scope: u32,
    account: &mut Account,
) -> Result<bool, NoMemory>
    requires scope { scope ≤ 300000 }
    requires held { IsHeld store.now keys.now account.old }
    ensures { IfOk result (λ b. LeavesOne store.now keys.now scope account.old b account.new) }
{
    let loose = account.loose.count(scope as u64);
    let inside = cut(store, keys, scope, account)?;
    Ok(is_free_of(inside, loose))
}

/// The name `scope` and the next one leave: whether the effect has neither.
pub fn leave_two(
    store: &Store,
    keys: &Keys,
    scope: u32,
    account: &mut Account,
) -> Result<bool, NoMemory>
    requires scope { scope ≤ 300000 }
    requires held { IsHeld store.now keys.now account.old }
    ensures { IfOk result (λ b. LeavesTwo store.now keys.now scope account.old b account.new) }
{
    let first = account.loose.count(scope as u64);
    let second = account.loose.count(scope as u64 + 1);
    let inside = cut(store, keys, scope, account)?;
    Ok(is_free_of(is_free_of(inside, first), second))
}

/// The same where each atom must be a `many` too.
pub fn serve(
    store: &Store,
    keys: &Keys,
    scope: u32,
    account: &mut Account,
) -> Result<bool, NoMemory>
    requires scope { scope ≤ 300000 }
    requires held { IsHeld store.now keys.now account.old }
    ensures { IfOk result
        (λ b. (es : Effect) → Held store.now keys.now (suc scope) account.old es
        → Held store.now keys.now scope account.new es × (b ≡ are_many es && not (mentions scope es))) }
{
    let lasting = both(account.lasting, account.sum.is_all_many());
    let free = leave_one(store, keys, scope, account)?;
    Ok(both(lasting, free))
}

/// One more atom, whose message has a key.
pub fn put_atom(keys: &Keys, a: AtomId, account: &mut Account) -> Result<(), NoMemory>
    ensures { OnOk result
        ((s : Store) (b : Atom) (k : ℕ) → IsKeyed s keys.now → SaysAtom s.messages a b
        → HasKey s keys.now (message_of b) → name_bound (message_of b) ≤ k
        → HoldsMore s keys.now k (b ∷ []) account.old account.new) }
{
    add_atom(keys, a, &mut account.sum)?;
    Ok(())
}

/// An atom less, where it stands there.
pub fn drop_atom(keys: &Keys, a: AtomId, account: &mut Account)
    ensures { (s : Store) (b : Atom) (k : ℕ) → IsKeyed s keys.now → SaysAtom s.messages a b
        → name_bound (message_of b) ≤ k → HoldsLess s keys.now k (b ∷ []) account.old account.new }
{
    take_atom(keys, a, &mut account.sum);
}

/// The effect of a Nonce type goes in.
pub fn put_type(store: &Store, keys: &Keys, t: TyId, account: &mut Account) -> Result<(), NoMemory>
    requires { t.place < length store.now.types }
    ensures { OnOk result
        ((fs : Effect) (k : ℕ) → IsKeyed store.now keys.now → Means store.now t.place (nonce fs)
        → HaveKeys store.now keys.now fs → Below k fs
        → HoldsMore store.now keys.now k fs account.old account.new) }
{
    add_type(store, keys, t, &mut account.sum)?;
    Ok(())
}

/// The effect of a Nonce type goes out.
pub fn drop_type(store: &Store, keys: &Keys, t: TyId, account: &mut Account)
    requires { t.place < length store.now.types }
    ensures { (fs : Effect) (k : ℕ) → IsKeyed store.now keys.now → Means store.now t.place (nonce fs)
        → Below k fs → HoldsLess store.now keys.now k fs account.old account.new }
{
    take_type(store, keys, t, &mut account.sum);
}

// The names of both.
fn merged(a: Counts, b: Counts) -> Result<Counts, NoMemory>
    ensures { IfOk result
        (λ c. (k : ℕ) → count_of c.counts k ≡ max (count_of a.counts k) (count_of b.counts k)) }
{
    let (mut most, less) = if a.len() < b.len() { (b, a) } else { (a, b) };
    most.rise_to(less)?;
    Ok(most)
}

// No count of the first is above that of the second.
fn is_sum_within(a: Sum, b: &Sum) -> bool
    ensures { (s : Store) (keys : Keys) (es fs : Effect) → IsKeyed s keys → SumOf s keys a es
        → SumOf s keys b.now fs → result ≡ is_within es fs }
{
    let mut rest = a;
    while let Some((kind, key, count)) = rest.pop() {
        if b.count(kind, key) < count {
            return false;
        }
    }
    true
}

/// An effect that is written takes the place of another: whether that is within it.
pub fn written_over(
    alloc: Global,
    keys: &Keys,
    ids: &[AtomId],
    account: &mut Account,
) -> Result<bool, NoMemory>
    ensures { IfOk result
        (λ b. (s : Store) (fs es : Effect) (k : ℕ) → IsKeyed s keys.now
        → TellsAll (SaysAtom s.messages) ids.now fs → HaveKeys s keys.now fs → Below k fs
        → Held s keys.now k account.old es → Held s keys.now k account.new fs × (b ≡ is_within es fs)) }
{
    let mut written = empty_account(alloc);
    add_atoms(keys, ids, &mut written.sum)?;
    let none = account.loose.is_empty();
    let old = replace(account, written);
    let within = is_sum_within(old.into_sum(), &account.sum);
    Ok(both(none, within))
}
