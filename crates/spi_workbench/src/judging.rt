//! An edit after another.

ghost use Rattle.std.specs.Prelude.{◌≡◌, List, map, IfOk, IfErr, OnOk};
ghost use Rattle.spi_text.specs.declared.lines.Span.{Span as Place};
ghost use Rattle.spi_tree.specs.Trees as t;
ghost use Rattle.spi_tree.specs.Views.{proc_of, file_of};
ghost use Rattle.spi_term.specs.Spelling.{stopped};
ghost use Rattle.spi_scope.specs.First.{IsClean, HasFirst};
ghost use Rattle.spi_scope.specs.StandsFor.{StandsFor};
ghost use Rattle.spi_scope.specs.Files.{meant};
ghost use Rattle.spi_edits.specs.Edits.{Edit as Written, Bench as Written_bench, puts, drops};
ghost use Rattle.spi_edits.specs.Views.{edit_of};
ghost use Rattle.spi_workbench.specs.Reading.{file_with, part_meant};
ghost use Rattle.spi_workbench.specs.Counting.{part_nodes, edit_nodes};
ghost use Rattle.spi_workbench.specs.Work.{IsHeaded, IsAt, Comes, WorkStarts, StoodEdits, StoppedEdits};

use crate::NoMemory;
use crate::answer::Refusal;
use crate::behind::part_behind;
use crate::placing::put_behind;
use spi_bench::Bench;
use spi_edits::Edit;
use spi_infer::Steps;
use spi_scope::{File, ScopeFault, resolve};
use spi_term::Process;
use spi_text::{Span, Text};
use spi_tree::{SProc, SWord, Tree};
use std::alloc::{AllocError, Global};
use std::mem::replace;
use std::sync::ledger::Ledger;

/// The file that the tree stands for, or its first fault.
pub fn read_file(alloc: Global, tree: &Tree) -> Result<Result<File, ScopeFault>, NoMemory>
    ensures ok { IfOk result (λ r. IfOk r (λ f. StandsFor (file_of tree.now) (meant f))) }
    ensures err { IfOk result (λ r. IfErr r (λ e. HasFirst (file_of tree.now) e)) }
{
    match resolve(alloc, tree) {
        Ok(file) => Ok(Ok(file)),
        Err(ScopeFault::NoMemory) => Err(AllocError),
        Err(fault) => Ok(Err(fault)),
    }
}

/// What is kept from one edit to the next: the heading, read with some process, how many shared names there are, the
/// parts, and the nodes of the heading and of all parts so far.
pub struct Work<'b> {
    pub tree: Tree<'b>,
    pub news: u32,
    pub bench: Bench,
    pub count: u64,
}

impl<'b> Drop for Work<'b> {
    fn drop(self) {
        let Work {
            tree: _,
            news: _,
            bench: _,
            count: _,
        } = self;
    }
}

/// The process of a part that is read behind the heading, or its first fault.
fn read_part<'b>(
    alloc: Global,
    tree: &mut Tree<'b>,
    news: u32,
    part: SProc<'b>,
) -> Result<Result<Process, ScopeFault>, NoMemory>
    requires { (b : Written_bench) × IsHeaded b news (file_of tree.old) }
    ensures tree { OnOk result
        ((b : Written_bench) → IsHeaded b news (file_of tree.old)
        → file_of tree.new ≡ file_with b (proc_of part.entry)) }
    ensures ok { IfOk result
        (λ r. IfOk r (λ q. (b : Written_bench) → IsHeaded b news (file_of tree.old)
        → (q ≡ part_meant b (proc_of part.entry)) × IsClean (file_with b (proc_of part.entry)))) }
    ensures err { IfOk result
        (λ r. IfErr r
        (λ e. (b : Written_bench) → IsHeaded b news (file_of tree.old)
        → HasFirst (file_with b (proc_of part.entry)) e)) }
{
    put_behind(&mut tree.process, news, part);
    match read_file(alloc, tree)? {
        Ok(file) => Ok(Ok(part_behind(alloc, &file.process, news)?)),
        Err(fault) => Ok(Err(fault)),
    }
}

/// A part is put, or is refused.
fn put_part<'b, L: Ledger>(
    alloc: Global,
    work: &mut Work<'b>,
    name: &SWord,
    part: SProc<'b>,
    nodes: u64,
    steps: &mut Steps<L>,
) -> Result<Option<Refusal>, NoMemory>
    requires { (b : Written_bench) × (before : List Written) × IsAt b before work.old
        × (nodes ≡ stopped (part_nodes b (proc_of part))) }
    ensures { IfOk result
        (λ r. (b : Written_bench) (before : List Written) (s : Place) → IsAt b before work.old
        → nodes ≡ stopped (part_nodes b (proc_of part.entry))
        → Comes b before (puts s name.now (proc_of part.entry)) work.new r) }
{
    let process = match read_part(alloc, &mut work.tree, work.news, part)? {
        Ok(process) => process,
        Err(fault) => return Ok(Some(Refusal::Scope(fault))),
    };
    let span = name.span;
    let count = work.count.saturating_add(nodes);
    if count > 100_000 {
        return Ok(Some(Refusal::BenchTooLarge { span, count }));
    }
    work.count = count;
    match work.bench.put(&name.word, process, steps) {
        Ok(_) => Ok(None),
        Err(_) => Err(AllocError),
    }
}

/// A part is dropped, or there is none of that name.
fn drop_part(alloc: Global, work: &mut Work, name: &SWord) -> Result<Option<Refusal>, NoMemory>
    ensures { IfOk result
        (λ r. (b : Written_bench) (before : List Written) (s : Place) → IsAt b before work.old
        → Comes b before (drops s name.now) work.new r) }
{
    if let Some(_) = work.bench.drop_part(&name.word) {
        return Ok(None);
    }
    let span = name.span;
    let word = Text::of(alloc, name.word.as_str())?;
    Ok(Some(Refusal::UnknownPart { span, word }))
}

/// An edit, whose part is moved out of it.
fn judge_edit<'b, L: Ledger>(
    alloc: Global,
    work: &mut Work<'b>,
    edit: &mut Edit<'b>,
    nodes: u64,
    steps: &mut Steps<L>,
) -> Result<Option<Refusal>, NoMemory>
    requires { (b : Written_bench) × (before : List Written) × IsAt b before work.old
        × (nodes ≡ stopped (edit_nodes b (edit_of edit.old))) }
    ensures { IfOk result
        (λ r. (b : Written_bench) (before : List Written) → IsAt b before work.old
        → nodes ≡ stopped (edit_nodes b (edit_of edit.old)) → Comes b before (edit_of edit.old) work.new r) }
{
    match edit {
        Edit::Put { part, .. } => {
            let span = Span { from: 0, to: 0 };
            let part = replace(part, SProc::Stop { span });
            match edit {
                Edit::Put { name, .. } => put_part(alloc, work, name, part, nodes, steps),
                Edit::Drop { .. } => unreachable!(),
            }
        }
        Edit::Drop { name, .. } => drop_part(alloc, work, name),
    }
}

/// The edits in order, and a verdict after each.
pub fn judge_all<'b, L: Ledger>(
    alloc: Global,
    work: &mut Work<'b>,
    edits: &mut [Edit<'b>],
    nodes: &[u64],
    steps: &mut Steps<L>,
) -> Result<Result<Vec<bool>, Refusal>, NoMemory>
    requires { (b : Written_bench) × WorkStarts b work.old edits.old nodes.now }
    ensures ok { IfOk result
        (λ r. IfOk r (λ vs. (b : Written_bench) → WorkStarts b work.old edits.old nodes.now
        → StoodEdits b (map edit_of edits.old) work.new vs.items)) }
    ensures err { IfOk result
        (λ r. IfErr r
        (λ e. (b : Written_bench) → WorkStarts b work.old edits.old nodes.now
        → StoppedEdits b (map edit_of edits.old) e)) }
{
    let mut verdicts = Vec::new(alloc);
    for i in 0..edits.len() {
        if let Some(refusal) = judge_edit(alloc, work, &mut edits[i], nodes[i], steps)? {
            return Ok(Err(refusal));
        }
        verdicts.push(work.bench.verdict())?;
    }
    Ok(Ok(verdicts))
}
