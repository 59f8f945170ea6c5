// What of an order a number needs, as lines.

ghost use Rattle.std.specs.Prelude.{◌≡◌, ◌<◌, ◌≤◌, ◌+◌, ℕ, suc, List, [], Some, true, false, IfOk, OnOk, length, replicate, slice_get, slice_set};
ghost use Rattle.spi_horn.specs.Leading.{IsPlacedAt, StandsBefore, IsReason, IsOrder};
ghost use Rattle.spi_horn.specs.Needs.{IsMarked, MarksPlace, SpreadsMarks, IsSpread, SaysWhy, SaysAt, AreMarkedWritten};
ghost use Rattle.spi_horn.specs.Lines.{ProvesTarget};

use crate::NoMemory;
use crate::closing::Closure;
use crate::rules::{Rule, Why};
use std::alloc::Global;

/// Why a line may stand: its number is at this place of the start; or the rule at this place gives it, and the lines
/// with these indices have its first and its second premise.
#[derive(Clone, Copy)]
pub enum Ground {
    Start(usize),
    ByRule(usize, usize, usize),
}

/// A number that is reached by the lines before it.
#[derive(Clone, Copy)]
pub struct Line {
    pub number: usize,
    pub ground: Ground,
}

fn mark(closure: &Closure, marks: &mut [bool], n: usize)
    requires { StandsBefore closure.now.places.items (length marks.old) n }
    ensures { MarksPlace closure.now.places.items n marks.old marks.new }
{
    if let Some(place) = closure.places[n] {
        marks[place] = true;
    }
}

// Where the place is marked, marks the premises of its number.
fn spread(rules: &[Rule], closure: &Closure, marks: &mut [bool], t: usize)
    requires within { t < length marks.old }
    requires short { length marks.old ≤ length closure.now.order.items }
    requires order { (start : List ℕ)
        × IsOrder rules.now start closure.now.order.items closure.now.places.items }
    ensures { SpreadsMarks rules.now closure.now.order.items closure.now.places.items t marks.old marks.new }
{
    if marks[t] {
        match closure.order[t].why {
            Why::Start(_) => {}
            Why::ByRule(k) => {
                let rule = rules[k];
                mark(closure, marks, rule.first);
                mark(closure, marks, rule.second);
            }
        }
    }
}

fn spread_all(rules: &[Rule], closure: &Closure, marks: &mut [bool])
    requires short { length marks.old ≤ length closure.now.order.items }
    requires order { (start : List ℕ)
        × IsOrder rules.now start closure.now.order.items closure.now.places.items }
    ensures spread { (goal : ℕ)
        → IsSpread rules.now closure.now.order.items closure.now.places.items goal (length marks.old)
        marks.old → IsSpread rules.now closure.now.order.items closure.now.places.items goal 0 marks.new }
    ensures count { length marks.new ≡ length marks.old }
{
    let mut t = marks.len();
    while t > 0 {
        t -= 1;
        spread(rules, closure, marks, t);
    }
}

fn line_of(closure: &Closure, line_at: &[usize], n: usize) -> usize
    requires { StandsBefore closure.now.places.items (length line_at.now) n }
    ensures { (s : ℕ) → IsPlacedAt closure.now.places.items n s → slice_get line_at.now s ≡ Some result }
{
    match closure.places[n] {
        Some(place) => line_at[place],
        None => 0,
    }
}

fn ground_of(rules: &[Rule], closure: &Closure, line_at: &[usize], why: Why) -> Ground
    requires { (start : List ℕ) × (t : ℕ) × (n : ℕ) × (t < length line_at.now)
        × IsReason rules.now start closure.now.places.items t n why }
    ensures { SaysWhy rules.now closure.now.places.items line_at.now why result }
{
    match why {
        Why::Start(j) => Ground::Start(j),
        Why::ByRule(k) => {
            let rule = rules[k];
            let first = line_of(closure, line_at, rule.first);
            let second = line_of(closure, line_at, rule.second);
            Ground::ByRule(k, first, second)
        }
    }
}

// The line of a place.
fn line_for(rules: &[Rule], closure: &Closure, line_at: &[usize], t: usize) -> Line
    requires within { t < length closure.now.order.items }
    requires long { t < length line_at.now }
    requires order { (start : List ℕ)
        × IsOrder rules.now start closure.now.order.items closure.now.places.items }
    ensures { SaysAt rules.now closure.now.order.items closure.now.places.items line_at.now t result }
{
    let reached = closure.order[t];
    let ground = ground_of(rules, closure, line_at, reached.why);
    Line {
        number: reached.number,
        ground,
    }
}

// Writes the line of a place, where it's marked.
fn write_at(
    rules: &[Rule],
    closure: &Closure,
    marks: &[bool],
    t: usize,
    lines: &mut Vec<Line>,
    line_at: &mut Vec<usize>,
) -> Result<(), NoMemory>
    requires within { t < length marks.now }
    requires short { length marks.now ≤ length closure.now.order.items }
    requires order { (start : List ℕ)
        × IsOrder rules.now start closure.now.order.items closure.now.places.items }
    requires written { AreMarkedWritten rules.now closure.now.order.items closure.now.places.items marks.now t
        lines.old.items line_at.old.items }
    ensures { OnOk result
        (AreMarkedWritten rules.now closure.now.order.items closure.now.places.items marks.now (t + 1)
        lines.new.items line_at.new.items) }
{
    line_at.push(lines.len())?;
    if marks[t] {
        let line = line_for(rules, closure, line_at, t);
        lines.push(line)?;
    }
    Ok(())
}

// The lines of the marked places.
fn write(
    alloc: Global,
    rules: &[Rule],
    closure: &Closure,
    marks: &[bool],
) -> Result<Vec<Line>, NoMemory>
    requires short { length marks.now ≤ length closure.now.order.items }
    requires order { (start : List ℕ)
        × IsOrder rules.now start closure.now.order.items closure.now.places.items }
    ensures written { IfOk result
        (λ lines. (line_at : List ℕ)
        × AreMarkedWritten rules.now closure.now.order.items closure.now.places.items marks.now
        (length marks.now)
        lines.items line_at) }
    ensures few { IfOk result (λ lines. length lines.items ≤ length marks.now) }
{
    let mut lines = Vec::new(alloc);
    let mut line_at = Vec::new(alloc);
    for t in 0..marks.len() {
        write_at(rules, closure, marks, t, &mut lines, &mut line_at)?;
    }
    Ok(lines)
}

/// Lines that lead to the number at a place of an order: each holds by earlier ones, the last has the number, and each
/// other one is named by a later one. The time is linear in the place. Its only error is NoMemory.
pub fn trace(
    alloc: Global,
    rules: &[Rule],
    closure: &Closure,
    place: usize,
) -> Result<Vec<Line>, NoMemory>
    requires within { place < length closure.now.order.items }
    requires order { (start : List ℕ)
        × IsOrder rules.now start closure.now.order.items closure.now.places.items }
    ensures proves { IfOk result
        (λ lines. (start : List ℕ) (target : ℕ)
        → IsOrder rules.now start closure.now.order.items closure.now.places.items
        → IsPlacedAt closure.now.places.items target place
        → ProvesTarget rules.now start lines.items target) }
    ensures few { IfOk result (λ lines. length lines.items ≤ place + 1) }
{
    let mut marks = vec![in alloc; false; place + 1]?;
    marks[place] = true;
    spread_all(rules, closure, &mut marks);
    let lines = write(alloc, rules, closure, &marks)?;
    Ok(lines)
}
