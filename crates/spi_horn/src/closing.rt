// The numbers that rules lead to, in the order in which they are found.

ghost use Rattle.std.specs.Prelude.{◌≡◌, ◌<◌, ◌≤◌, ℕ, List, [], None, false, IsTrue, IfOk, OnOk, ◌↔◌, length, map, replicate, slice_get, Some};
ghost use Rattle.spi_horn.specs.Leading.{SpeaksBelow, StartsWithin, HasSomePlace, IsOrder, IsLeastModel};
ghost use Rattle.spi_horn.specs.Finding.{AddsNumber, Tries, IsLookedThrough, KeepsPlaces};
ghost use Rattle.spi_horn.specs.Waits.{numbers, RulesWait};

use crate::NoMemory;
use crate::rules::{Reached, Rule, Why};
use crate::waiting::{Waiting, wait_all};
use std::alloc::Global;

/// Numbers that are reached, and for each number its place among them.
#[derive(Drop)]
pub struct Closure {
    pub order: Vec<Reached>,
    pub places: Vec<Option<usize>>,
}

fn is_found(closure: &Closure, n: usize) -> bool
    requires { n < length closure.now.places.items }
    ensures found { IsTrue result ↔ HasSomePlace closure.now.places.items n }
    ensures not { result ≡ false → slice_get closure.now.places.items n ≡ Some None }
{
    closure.places[n].is_some()
}

fn add(closure: &mut Closure, n: usize, why: Why) -> Result<(), NoMemory>
    requires { n < length closure.old.places.items }
    ensures { OnOk result
        (AddsNumber n why closure.old.order.items closure.old.places.items closure.new.order.items
        closure.new.places.items) }
{
    if !is_found(closure, n) {
        let place = closure.order.len();
        closure.order.push(Reached { number: n, why })?;
        closure.places[n] = Some(place);
    }
    Ok(())
}

fn try_rule(closure: &mut Closure, rule: Rule, k: usize) -> Result<(), NoMemory>
    requires first { rule.first < length closure.old.places.items }
    requires second { rule.second < length closure.old.places.items }
    requires gives { rule.gives < length closure.old.places.items }
    ensures { OnOk result
        (Tries rule k closure.old.order.items closure.old.places.items closure.new.order.items
        closure.new.places.items) }
{
    if is_found(closure, rule.first) && is_found(closure, rule.second) {
        add(closure, rule.gives, Why::ByRule(k))?;
    }
    Ok(())
}

// Tries each of the rules that wait there.
fn fire(rules: &[Rule], waiting: &Waiting, closure: &mut Closure) -> Result<(), NoMemory>
    requires rules { SpeaksBelow (length closure.old.places.items) rules.now }
    requires tried { StartsWithin (length rules.now) (numbers waiting.now) }
    ensures good { OnOk result
        ((start : List ℕ) (c : ℕ)
        → IsLookedThrough rules.now start closure.old.order.items closure.old.places.items c
        (numbers waiting.now) 0
        → IsLookedThrough rules.now start closure.new.order.items closure.new.places.items c [] 0) }
    ensures keeps { OnOk result (KeepsPlaces closure.old.places.items closure.new.places.items) }
{
    for k in &waiting.rules {
        let rule = rules[*k];
        try_rule(closure, rule, *k)?;
    }
    Ok(())
}

fn start_all(start: &[usize], closure: &mut Closure) -> Result<(), NoMemory>
    requires within { StartsWithin (length closure.old.places.items) start.now }
    requires order { closure.old.order.items ≡ [] }
    requires places { closure.old.places.items ≡ replicate (length closure.old.places.items) None }
    ensures good { OnOk result
        ((rules : List Rule)
        → IsLookedThrough rules start.now closure.new.order.items closure.new.places.items 0 [] 0) }
    ensures started { OnOk result
        ((j n : ℕ) → slice_get start.now j ≡ Some n → HasSomePlace closure.new.places.items n) }
    ensures count { OnOk result (length closure.new.places.items ≡ length closure.old.places.items) }
{
    for (j, n) in start.iter().enumerate() {
        add(closure, *n, Why::Start(j))?;
    }
    Ok(())
}

// Goes along the order, which grows by what the rules that wait for its numbers give.
fn reach_all(rules: &[Rule], lists: &[Waiting], closure: &mut Closure) -> Result<(), NoMemory>
    requires rules { SpeaksBelow (length closure.old.places.items) rules.now }
    requires waits { RulesWait rules.now (length rules.now) (map numbers lists.now) }
    requires same { length lists.now ≡ length closure.old.places.items }
    requires begun { (start : List ℕ)
        × IsLookedThrough rules.now start closure.old.order.items closure.old.places.items 0 [] 0 }
    ensures good { OnOk result
        ((start : List ℕ)
        → IsLookedThrough rules.now start closure.old.order.items closure.old.places.items 0 [] 0
        → IsLookedThrough rules.now start closure.new.order.items closure.new.places.items
        (length closure.new.order.items) [] 0) }
    ensures keeps { OnOk result (KeepsPlaces closure.old.places.items closure.new.places.items) }
{
    let mut cursor = 0;
    while cursor < closure.order.len() {
        let number = closure.order[cursor].number;
        fire(rules, &lists[number], closure)?;
        cursor += 1;
    }
    Ok(())
}

/// The numbers below `count` that the rules lead to from the start: exactly those have a place in the order, each with
/// its reason, whose premises have earlier places. The time is linear in the rules, the start and `count`. Its only
/// error is NoMemory.
pub fn close(
    alloc: Global,
    rules: &[Rule],
    start: &[usize],
    count: usize,
) -> Result<Closure, NoMemory>
    requires rules { SpeaksBelow count rules.now }
    requires start { StartsWithin count start.now }
    ensures least { IfOk result (λ closure. IsLeastModel rules.now start.now closure.places.items) }
    ensures order { IfOk result
        (λ closure. IsOrder rules.now start.now closure.order.items closure.places.items) }
    ensures count { IfOk result (λ closure. length closure.places.items ≡ count) }
    ensures few { IfOk result (λ closure. length closure.order.items ≤ count) }
{
    let lists = wait_all(alloc, rules, count)?;
    let places = vec![in alloc; None; count]?;
    let mut closure = Closure {
        order: Vec::new(alloc),
        places,
    };
    start_all(start, &mut closure)?;
    reach_all(rules, &lists, &mut closure)?;
    Ok(closure)
}
