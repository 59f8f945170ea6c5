// For each number the rules that wait for it.

ghost use Rattle.std.specs.Prelude.{◌≡◌, ◌<◌, [], IfOk, OnOk, length, map, replicate};
ghost use Rattle.spi_horn.specs.Leading.{SpeaksBelow};
ghost use Rattle.spi_horn.specs.Waits.{numbers, PutsWait, RulesWait};

use crate::NoMemory;
use crate::rules::Rule;
use std::alloc::Global;

/// The places of the rules that wait for one premise.
#[derive(Drop)]
pub struct Waiting {
    pub rules: Vec<usize>,
}

fn empty(alloc: Global, count: usize) -> Result<Vec<Waiting>, NoMemory>
    ensures { IfOk result (λ lists. map numbers lists.items ≡ replicate count []) }
{
    let mut lists = Vec::new(alloc);
    for _number in 0..count {
        lists.push(Waiting {
            rules: Vec::new(alloc),
        })?;
    }
    Ok(lists)
}

fn put(lists: &mut [Waiting], p: usize, k: usize) -> Result<(), NoMemory>
    requires { p < length lists.old }
    ensures { OnOk result (PutsWait p k (map numbers lists.old) (map numbers lists.new)) }
{
    lists[p].rules.push(k)?;
    Ok(())
}

fn put_all(lists: &mut [Waiting], rules: &[Rule]) -> Result<(), NoMemory>
    requires rules { SpeaksBelow (length lists.old) rules.now }
    requires none { map numbers lists.old ≡ replicate (length lists.old) [] }
    ensures { OnOk result (RulesWait rules.now (length rules.now) (map numbers lists.new)) }
{
    for (k, rule) in rules.iter().enumerate() {
        put(lists, rule.first, k)?;
        put(lists, rule.second, k)?;
    }
    Ok(())
}

/// For each number below `count` the rules with this premise.
pub fn wait_all(alloc: Global, rules: &[Rule], count: usize) -> Result<Vec<Waiting>, NoMemory>
    requires { SpeaksBelow count rules.now }
    ensures waits { IfOk result (λ lists. RulesWait rules.now (length rules.now) (map numbers lists.items)) }
    ensures count { IfOk result (λ lists. length lists.items ≡ count) }
{
    let mut lists = empty(alloc, count)?;
    put_all(&mut lists, rules)?;
    Ok(lists)
}
